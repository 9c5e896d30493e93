// Document 01's examples of recoveries, each run on a store of two rows of 8 bytes. A line has the example, then the answer, the states of the two
// rows by ascending id, how many are held and the controller's state.
#![tactic(auto)]

use crate::fixtures::{bulk, device, id_of, opening};
use recovery::{BackendAbort, BackendLists, Recovered, recover, recovery_reply};
use reports::status;
use session::lifecycle::AcquireFailure;
use session::{Session, lifecycle, place};
use std::io;
use std::io::Write;
use submissions::{NewRequest, submit, submit_reply};
use targets::Readings;
use texts::print;

mod fixtures; // fixtures.rt: the opening, the device, ids and requests
mod show; // show.rt: answers as text

// The words of the store's rows.
const ROWS: usize = 2 * rows::ROW_WORDS;

// The words of the bus.
const BUS: usize = bus::WORDS;

// The device of slot 1 on port 1, with endpoint 81h.
fn set_device(s: Session, bus: &mut [u64]) {
    let row = bus::PortRow {
        generation: 1,
        reading: Some(0x403),
    };
    let one = [0x181u64];
    let _ = place::set_port(s, bus, 1, row);
    let _ = place::set_device(s, bus, device());
    let _ = place::set_endpoints(s, bus, 1, &one);
}

// The device placed, and the controller initialized.
fn prepare(s: Session, bus: &mut [u64]) -> Session {
    set_device(s, bus);
    let acquired = lifecycle::acquire(s, Ok(()));
    let ready = lifecycle::initialize(acquired.session, None);
    ready.session
}

// Both halves of a submission.
fn hold(s: Session, bus: &mut [u64], rows: &mut [u64], area: &mut [u8], token: u64) -> Session {
    let word = Ok(0x403);
    let q = NewRequest {
        spec: bulk(),
        bytes: b"",
        packets: None,
        readings: Readings {
            first: word,
            second: word,
        },
    };
    let r = submit::submit_request_packets(s, bus, rows, area, q);
    let x = submit_reply::submit_reply(r.session, rows, Ok(token));
    x.session
}

// Both halves of an abort of the lower id: no completions, and token 7 aborted.
fn abort(s: Session, rows: &mut [u64], area: &mut [u8], restart_ready: bool) -> Recovered {
    let none: [u64; 0] = [];
    let seven = [7u64];
    let reply = Ok(BackendAbort {
        restart_ready,
        error: None,
    });
    let lists = BackendLists {
        tokens: &none,
        completions: &none,
        aborted: &seven,
        bytes: b"",
    };
    let begun = recover::abort_request(s, rows, id_of(0));
    recovery_reply::recovery_reply(begun.session, rows, area, reply, lists)
}

// The store and the session after the recovery.
fn show_after<W: Write>(out: &mut W, s: Session, rows: &[u64]) -> io::Result<()> {
    let controller = s.state;
    print::text(out, b"; ")?;
    show::letter(out, status::request_status(s, rows, id_of(0)))?;
    print::text(out, b" ")?;
    show::letter(out, status::request_status(s, rows, id_of(1)))?;
    print::text(out, b"; held")?;
    show::held(out, status::held_count(s, rows))?;
    print::text(out, b"; ")?;
    show::controller(out, controller)?;
    print::text(out, b"\n")
}

// Both rows used, the first with token 7.
fn fill(s: Session, bus: &mut [u64], rows: &mut [u64], area: &mut [u8], higher: u64) -> Session {
    let s = hold(s, bus, rows, area, 7);
    hold(s, bus, rows, area, higher)
}

fn show_abort<W: Write>(
    out: &mut W,
    s: Session,
    rows: &mut [u64],
    area: &mut [u8],
    restart_ready: bool,
) -> io::Result<()> {
    let r = abort(s, rows, area, restart_ready);
    let answer = r.answer;
    show::recovered(out, answer)?;
    show_after(out, r.session, rows)
}

// A row with token 7, then one with the token `higher`.
fn example<W: Write>(out: &mut W, name: &[u8], higher: u64, restart_ready: bool) -> io::Result<()> {
    let mut bus = [0u64; BUS];
    let mut rows = [0u64; ROWS];
    let mut area = [0u8; 16];
    print::text(out, name)?;
    let opened = lifecycle::open(opening(), &mut rows, &area, &mut bus);
    let Ok(s) = opened else {
        return print::text(out, b"not opened\n");
    };
    let s = prepare(s, &mut bus);
    let s = fill(s, &mut bus, &mut rows, &mut area, higher);
    show_abort(out, s, &mut rows, &mut area, restart_ready)
}

fn main(rt: HostRuntime) -> io::Result<()> {
    let mut out = rt.stdout();
    example(
        &mut out,
        b"tokens 7, 9 affected, ready, aborted (7): ",
        9,
        true,
    )?;
    example(
        &mut out,
        b"tokens 7, 9 affected, not ready, aborted (7): ",
        9,
        false,
    )?;
    example(
        &mut out,
        b"two rows with token 7, ready, aborted (7): ",
        7,
        true,
    )
}
