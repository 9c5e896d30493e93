// One call on lent words, by the number that is its first word in C (docs/CALLS.md). What C links is the step that the theorem over lists of calls speaks of.
#![tactic(auto)]

ghost use Rattle.std.specs.Prelude.{true, ◌≡◌, get_or};
ghost use Rattle.chain.specs.After.{after};
ghost use Rattle.session.specs.Lent.{lent_of};
ghost use Rattle.session_words.specs.State.{is_session};
ghost use Rattle.call_words.specs.Decode.{read_call};
ghost use Rattle.dispatch.specs.Apply.{is_by_value, is_other, ran, run_of, ran_on, dispatch_of};
ghost use Rattle.dispatch.specs.Slices.{buffers_of};
ghost use Rattle.calls.specs.Step.{world};

use answer_words::{encode, lists};
use call_words::form;
use calls::Outcome;
use direct::replies;
use models::values::id_at;
use session::Session;
use session_words::state;
use words::slices::word_at;

mod controller; // controller.rt: calls 0 to 7
pub mod read; // read.rt: reports and questions, which change nothing but the answer
mod requests; // requests.rt: calls on requests

// The calls that carry the session by value.
fn step(
    session: Session,
    bus: &mut [u64],
    rows: &mut [u64],
    area: &mut [u8],
    call: &[u64],
    bytes: &[u8],
    lists: &mut [u64],
) -> Outcome
    requires { is_by_value (get_or call.now 0 0) ≡ true }
    ensures { ran (after result (lent_of bus.new rows.new area.new)) lists.new
        ≡ run_of (read_call call.now bytes.now) (world session (lent_of bus.old rows.old area.old))
        lists.old }
{
    let number = word_at(call, 0);
    match number {
        0..=4 => controller::place_call(number, session, bus, rows, area, call),
        5..=7 => controller::move_call(number, session, rows, call),
        8 | 9 => requests::submit_call(number, session, bus, rows, area, call, bytes),
        10..=24 => requests::recover_call(number, session, rows, area, call, bytes, lists),
        _ => requests::withdraw_call(session, rows, call),
    }
}

// Runs such a call and writes the session, the answer and its lists.
fn answer_by_value(
    session: &mut [u64],
    bus: &mut [u64],
    rows: &mut [u64],
    area: &mut [u8],
    call: &[u64],
    bytes: &[u8],
    out: &mut [u64],
    lists: &mut [u64],
)
    requires { is_by_value (get_or call.now 0 0) ≡ true }
    ensures { buffers_of session.new bus.new rows.new area.new out.new lists.new
        ≡ ran_on (read_call call.now bytes.now) (buffers_of session.old bus.old rows.old area.old out.old lists.old) }
{
    let before = state::to_session(session);
    let outcome = step(before, bus, rows, area, call, bytes, lists);
    let next = outcome.session;
    let answer = outcome.answer;
    state::write_session(session, next);
    encode::write_answer(out, answer);
}

// Runs such a call, or a reply, 10 and 12.
fn answer_other(
    session: &mut [u64],
    bus: &mut [u64],
    rows: &mut [u64],
    area: &mut [u8],
    call: &[u64],
    bytes: &[u8],
    out: &mut [u64],
    lists: &mut [u64],
)
    requires { (is_session session.old ≡ true) × (is_other (get_or call.now 0 0) ≡ true) }
    ensures { buffers_of session.new bus.new rows.new area.new out.new lists.new
        ≡ ran_on (read_call call.now bytes.now) (buffers_of session.old bus.old rows.old area.old out.old lists.old) }
{
    let number = word_at(call, 0);
    match number {
        10 => replies::submit_reply(session, rows, call, out),
        12 => replies::poll_reply(session, rows, area, call, bytes, out),
        _ => answer_by_value(session, bus, rows, area, call, bytes, out, lists),
    }
}

// Runs the call. Where it leaves the session, its words are not written: they are its own.
fn answer(
    session: &mut [u64],
    bus: &mut [u64],
    rows: &mut [u64],
    area: &mut [u8],
    call: &[u64],
    bytes: &[u8],
    out: &mut [u64],
    lists: &mut [u64],
)
    requires { is_session session.old ≡ true }
    ensures { buffers_of session.new bus.new rows.new area.new out.new lists.new
        ≡ ran_on (read_call call.now bytes.now) (buffers_of session.old bus.old rows.old area.old out.old lists.old) }
{
    let number = word_at(call, 0);
    match number {
        11 => {
            let id = id_at(call, 1);
            direct::poll_request(session, rows, id, out)
        }
        13..=15 => requests::change_call(number, session, rows, call, out),
        16..=21 => requests::report_call(number, session, rows, area, call, out),
        _ => answer_other(session, bus, rows, area, call, bytes, out, lists),
    }
}

// The call that the words say, on the words of a session. 0: it was answered; 1: no call; 2: not a session's own words; 3: too few
// words for the answer; 4: too few words for lists. In the last four nothing changes.
pub fn apply(
    session: &mut [u64],
    bus: &mut [u64],
    rows: &mut [u64],
    area: &mut [u8],
    call: &[u64],
    bytes: &[u8],
    out: &mut [u64],
    lists: &mut [u64],
) -> u64
    ensures { after result (buffers_of session.new bus.new rows.new area.new out.new lists.new)
        ≡ dispatch_of call.now bytes.now (buffers_of session.old bus.old rows.old area.old out.old lists.old) }
{
    if !form::is_call(call) {
        return 1;
    }
    if !state::is_session(session) {
        return 2;
    }
    if out.len() < encode::WORDS {
        return 3;
    }
    if lists.len() < lists::WORDS {
        return 4;
    }
    answer(session, bus, rows, area, call, bytes, out, lists);
    0
}
