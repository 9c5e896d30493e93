// A life on a store of two rows: each refusal that a request can meet, and what it leaves.
use crate::calls::{
    ask, ask_poll, cancel, close, reclaim, send, show_held, take, take_poll, time_out,
};
use crate::fixtures::{completion, error, id_of, opening};
use crate::prepare::prepare;
use crate::show;
use models::ErrorCategory;
use reports::status;
use session::{Session, lifecycle};
use std::io;
use std::io::Write;
use texts::print;

// The words of the store's rows.
const ROWS: usize = 2 * rows::ROW_WORDS;

// The words of the bus.
const BUS: usize = bus::WORDS;

fn show_bytes<W: Write>(
    out: &mut W,
    s: Session,
    rows: &[u64],
    area: &[u8],
    sequence: u64,
) -> io::Result<()> {
    match status::completed_bytes(s, rows, area, id_of(sequence)) {
        Err(refusal) => show::refusal(out, b"bytes", refusal.number),
        Ok(bytes) => print::bytes(out, b"bytes", bytes),
    }
}

// The first request's report and its bytes.
fn show_first<W: Write>(out: &mut W, s: Session, rows: &[u64], area: &[u8]) -> io::Result<()> {
    show::reported(out, b"status", status::request_status(s, rows, id_of(0)))?;
    show_bytes(out, s, rows, area, 0)
}

// Refused by 40 and by 1 while a submission is in flight.
fn ask_twice<W: Write>(
    out: &mut W,
    s: Session,
    bus: &mut [u64],
    rows: &mut [u64],
    area: &mut [u8],
) -> io::Result<Session> {
    let s = ask(out, s, bus, rows, area, 8)?;
    show_first(out, s, rows, area)?;
    ask(out, s, bus, rows, area, 8)
}

// A poll's reply is refused by 2, then the submission's own passes.
fn accept<W: Write>(
    out: &mut W,
    s: Session,
    rows: &mut [u64],
    area: &mut [u8],
) -> io::Result<Session> {
    let s = take_poll(out, s, rows, area, Ok(None), b"")?;
    take(out, s, rows, Ok(70))
}

// A request that is Pending has no bytes.
fn begin<W: Write>(
    out: &mut W,
    s: Session,
    bus: &mut [u64],
    rows: &mut [u64],
    area: &mut [u8],
) -> io::Result<Session> {
    let s = ask_twice(out, s, bus, rows, area)?;
    let s = accept(out, s, rows, area)?;
    show_bytes(out, s, rows, area, 0)?;
    Ok(s)
}

// Pending with both flags; its reclaim is refused by 42.
fn flag<W: Write>(out: &mut W, s: Session, rows: &mut [u64]) -> io::Result<Session> {
    let s = cancel(out, s, rows, 0)?;
    let s = time_out(out, s, rows, 0)?;
    reclaim(out, s, rows, 0)
}

// A poll refused by 40, one that brings nothing, and one that brings 3 bytes.
fn complete<W: Write>(
    out: &mut W,
    s: Session,
    rows: &mut [u64],
    area: &mut [u8],
) -> io::Result<Session> {
    let s = ask_poll(out, s, rows, 9)?;
    let s = ask_poll(out, s, rows, 0)?;
    let s = take_poll(out, s, rows, area, Ok(None), b"")?;
    let s = ask_poll(out, s, rows, 0)?;
    take_poll(out, s, rows, area, completion(3, 13), b"abc")
}

// Refused by 3 with no area; the bytes; refused by 41, and by 40 once the row is free.
fn release<W: Write>(
    out: &mut W,
    s: Session,
    rows: &mut [u64],
    area: &[u8],
) -> io::Result<Session> {
    show_bytes(out, s, rows, b"", 0)?;
    show_bytes(out, s, rows, area, 0)?;
    let s = cancel(out, s, rows, 0)?;
    let s = reclaim(out, s, rows, 0)?;
    show_first(out, s, rows, area)?;
    Ok(s)
}

// One request that was accepted, to its end.
fn one_request<W: Write>(
    out: &mut W,
    s: Session,
    rows: &mut [u64],
    area: &mut [u8],
) -> io::Result<Session> {
    let s = flag(out, s, rows)?;
    let s = complete(out, s, rows, area)?;
    release(out, s, rows, area)
}

fn requests_of<W: Write>(
    out: &mut W,
    s: Session,
    bus: &mut [u64],
    rows: &mut [u64],
    area: &mut [u8],
) -> io::Result<Session> {
    let s = begin(out, s, bus, rows, area)?;
    one_request(out, s, rows, area)
}

// Both rows used.
fn fill<W: Write>(
    out: &mut W,
    s: Session,
    bus: &mut [u64],
    rows: &mut [u64],
    area: &mut [u8],
) -> io::Result<Session> {
    let s = send(out, s, bus, rows, area, 8, Ok(71))?;
    send(out, s, bus, rows, area, 4, Ok(72))
}

// Reports in the order of ids, and one by its id.
fn show_reports<W: Write>(out: &mut W, s: Session, rows: &[u64]) -> io::Result<()> {
    show::tally(out, b"reports", status::count_reports(s, rows))?;
    show::next(out, b"first", status::request_reports(s, rows, None))?;
    show::next(
        out,
        b"next",
        status::request_reports(s, rows, Some(id_of(2))),
    )?;
    show::next(
        out,
        b"next",
        status::request_reports(s, rows, Some(id_of(3))),
    )?;
    show::reported(out, b"status", status::request_status(s, rows, id_of(3)))
}

// Refused by 5 with no free row.
fn overfill<W: Write>(
    out: &mut W,
    s: Session,
    bus: &mut [u64],
    rows: &mut [u64],
    area: &mut [u8],
) -> io::Result<Session> {
    let s = fill(out, s, bus, rows, area)?;
    let s = ask(out, s, bus, rows, area, 1)?;
    show_held(out, s, rows)?;
    show::tally(out, b"held bytes", status::held_bytes(s, rows))?;
    show_reports(out, s, rows)?;
    Ok(s)
}

// A completion longer than the request: another poll is refused by 28, a reclaim by 42.
fn fail<W: Write>(
    out: &mut W,
    s: Session,
    rows: &mut [u64],
    area: &mut [u8],
) -> io::Result<Session> {
    let s = ask_poll(out, s, rows, 2)?;
    let s = take_poll(out, s, rows, area, completion(9, 1), b"123456789")?;
    let s = ask_poll(out, s, rows, 3)?;
    let s = ask_poll(out, s, rows, 2)?;
    reclaim(out, s, rows, 2)
}

// The backend's refusal, 45, leaves the row free.
fn send_failed<W: Write>(
    out: &mut W,
    s: Session,
    bus: &mut [u64],
    rows: &mut [u64],
    area: &mut [u8],
) -> io::Result<Session> {
    let failed = Err(error(ErrorCategory::Unsupported));
    send(out, s, bus, rows, area, 8, failed)
}

// A submission that the backend refuses, then a full store.
fn trouble<W: Write>(
    out: &mut W,
    s: Session,
    bus: &mut [u64],
    rows: &mut [u64],
    area: &mut [u8],
) -> io::Result<Session> {
    let s = send_failed(out, s, bus, rows, area)?;
    overfill(out, s, bus, rows, area)
}

// A close refused by 52, one by 45, then one that passes.
fn close_open<W: Write>(out: &mut W, s: Session, rows: &mut [u64]) -> io::Result<Session> {
    let failed = Some(error(ErrorCategory::Timeout));
    let s = close(out, s, rows, None, None)?;
    let s = close(out, s, rows, Some(2), failed)?;
    close(out, s, rows, Some(2), None)
}

// Once closed, none is held, and the session closes again.
fn finish_life<W: Write>(out: &mut W, s: Session, rows: &mut [u64]) -> io::Result<()> {
    let s = close_open(out, s, rows)?;
    show_held(out, s, rows)?;
    close(out, s, rows, None, None)?;
    Ok(())
}

// A store of two rows of 8 bytes; opened as one of three it is refused by 3.
pub(crate) fn run<W: Write>(out: &mut W) -> io::Result<()> {
    let mut bus = [0u64; BUS];
    let mut rows = [7u64; ROWS];
    let mut area = [0u8; 16];
    let wrong = lifecycle::open(opening(3, 8), &mut rows, &area, &mut bus);
    show::opened(out, b"open", wrong)?;
    let opened = lifecycle::open(opening(2, 8), &mut rows, &area, &mut bus);
    show::opened(out, b"open", opened)?;
    let Ok(s) = opened else {
        return Ok(());
    };
    let s = prepare(out, s, &mut bus)?;
    let s = requests_of(out, s, &mut bus, &mut rows, &mut area)?;
    let s = trouble(out, s, &mut bus, &mut rows, &mut area)?;
    let s = fail(out, s, &mut rows, &mut area)?;
    finish_life(out, s, &mut rows)
}
