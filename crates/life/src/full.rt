// A life on a store of 130 rows, of which 128 may be held.
use crate::calls::{ask, send, show_held, submit_bulk};
use crate::fixtures::opening;
use crate::prepare::prepare;
use crate::show;
use session::{Session, lifecycle};
use std::io;
use std::io::Write;
use submissions::submit_reply;

// The words of the store's rows.
const ROWS: usize = 130 * rows::ROW_WORDS;

// The words of the bus.
const BUS: usize = bus::WORDS;

// Both halves of a submission, not printed.
fn hold(s: Session, bus: &mut [u64], rows: &mut [u64], area: &mut [u8]) -> Session {
    let r = submit_bulk(s, bus, rows, area, 1);
    let x = submit_reply::submit_reply(r.session, rows, Ok(1));
    x.session
}

fn hold_many(s: Session, bus: &mut [u64], rows: &mut [u64], area: &mut [u8], n: u64) -> Session {
    let mut held = s;
    for _ in 0..n {
        held = hold(held, bus, rows, area);
    }
    held
}

// One more is accepted, the next refused by 5.
fn reach_limit<W: Write>(
    out: &mut W,
    s: Session,
    bus: &mut [u64],
    rows: &mut [u64],
    area: &mut [u8],
) -> io::Result<()> {
    let s = send(out, s, bus, rows, area, 1, Ok(1))?;
    show_held(out, s, rows)?;
    ask(out, s, bus, rows, area, 1)?;
    Ok(())
}

// 127 held, and then 128.
fn hold_all<W: Write>(
    out: &mut W,
    s: Session,
    bus: &mut [u64],
    rows: &mut [u64],
    area: &mut [u8],
) -> io::Result<()> {
    let s = hold_many(s, bus, rows, area, 127);
    show_held(out, s, rows)?;
    reach_limit(out, s, bus, rows, area)
}

// A store of 130 rows of a byte.
pub(crate) fn run<W: Write>(out: &mut W) -> io::Result<()> {
    let mut bus = [0u64; BUS];
    let mut rows = [0u64; ROWS];
    let mut area = [0u8; 130];
    let opened = lifecycle::open(opening(130, 1), &mut rows, &area, &mut bus);
    show::opened(out, b"open", opened)?;
    let Ok(s) = opened else {
        return Ok(());
    };
    let s = prepare(out, s, &mut bus)?;
    hold_all(out, s, &mut bus, &mut rows, &mut area)
}
