// Calls 0 to 7: opening, the placing calls, and those that move the controller's state.
ghost use Rattle.std.specs.Prelude.{◌≡◌, ◌%◌, ◌^◌, get_or};
ghost use Rattle.chain.specs.After.{after};
ghost use Rattle.session.specs.Lent.{memory, lent, lent_of};
ghost use Rattle.calls.specs.Step.{step_of, world};
ghost use Rattle.call_words.specs.Decode.{read_placing, read_moving};
ghost use Rattle.dispatch.specs.Slices.{StepsRows};
ghost use Rattle.bus.specs.Tables.{bus_of};
ghost use Rattle.rows.specs.Store.{store_of};

use call_words::arguments;
use calls::{Outcome, answers};
use models::values;
use session::{Session, lifecycle, place};
use words::slices;
use words::slices::word_at;

fn byte_at(w: &[u64], i: usize) -> u8
    ensures { result ≡ get_or w.now i 0 % 2 ^ 8 }
{
    (word_at(w, i) % 256) as u8
}

// 0 to 4: opening and the placing calls.
pub(crate) fn place_call(
    number: u64,
    session: Session,
    bus: &mut [u64],
    rows: &mut [u64],
    area: &[u8],
    call: &[u64],
) -> Outcome
    ensures { after result (lent (bus_of bus.new) (memory (store_of rows.new) area.now))
        ≡ step_of (read_placing number call.now) (world session (lent_of bus.old rows.old area.now)) }
{
    let at = byte_at(call, 1);
    match number {
        0 => {
            let o = arguments::opening(call);
            let opened = lifecycle::open(o, rows, area, bus);
            answers::of_opened(opened, session)
        }
        1 => {
            let device = arguments::snapshot(call);
            answers::of_placed(place::set_device(session, bus, device), session)
        }
        2 => {
            let row = arguments::port_row(call);
            answers::of_placed(place::set_port(session, bus, at, row), session)
        }
        3 => {
            let list = slices::rest(call, 2);
            answers::of_placed(place::set_endpoints(session, bus, at, list), session)
        }
        _ => {
            let mark = words::to_flag(word_at(call, 2));
            answers::of_placed(place::set_reconcile(session, bus, at, mark), session)
        }
    }
}

// 5 to 7: the calls that move the controller's state, whatever the bus and the area.
pub(crate) fn move_call(number: u64, session: Session, rows: &mut [u64], call: &[u64]) -> Outcome
    ensures { StepsRows result (read_moving number call.now) session rows.old rows.new }
{
    match number {
        5 => {
            let reply = arguments::acquire_reply(call);
            answers::of_called(lifecycle::acquire(session, reply))
        }
        6 => {
            let reply = values::option_error_at(call, 1);
            answers::of_called(lifecycle::initialize(session, reply))
        }
        _ => {
            let fresh = words::to_option_u64(word_at(call, 1), word_at(call, 2));
            let reply = values::option_error_at(call, 3);
            answers::of_called(lifecycle::close(session, rows, fresh, reply))
        }
    }
}
