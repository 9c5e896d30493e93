// Calls whose answers are printed.
use crate::fixtures::{bulk, id_of};
use crate::show;
use models::{BackendCompletion, OperationError};
use polls::{poll, poll_reply};
use reports::{change, status};
use session::{Called, Session, lifecycle};
use std::io;
use std::io::Write;
use submissions::{NewRequest, Submission, submit, submit_reply};
use targets::Readings;

pub(crate) fn submit_bulk(
    s: Session,
    bus: &mut [u64],
    rows: &mut [u64],
    area: &mut [u8],
    length: u64,
) -> Called<Submission> {
    let word = Ok(0x403);
    let q = NewRequest {
        spec: bulk(length),
        bytes: b"",
        packets: None,
        readings: Readings {
            first: word,
            second: word,
        },
    };
    submit::submit_request_packets(s, bus, rows, area, q)
}

// The first half of a submission.
pub(crate) fn ask<W: Write>(
    out: &mut W,
    s: Session,
    bus: &mut [u64],
    rows: &mut [u64],
    area: &mut [u8],
    length: u64,
) -> io::Result<Session> {
    let r = submit_bulk(s, bus, rows, area, length);
    let answer = r.answer;
    show::submitted(out, b"submit", answer)?;
    Ok(r.session)
}

// The second half of a submission.
pub(crate) fn take<W: Write>(
    out: &mut W,
    s: Session,
    rows: &mut [u64],
    r: Result<u64, OperationError>,
) -> io::Result<Session> {
    let x = submit_reply::submit_reply(s, rows, r);
    let answer = x.answer;
    show::reported(out, b"submit reply", answer)?;
    Ok(x.session)
}

// Both halves of a submission.
pub(crate) fn send<W: Write>(
    out: &mut W,
    s: Session,
    bus: &mut [u64],
    rows: &mut [u64],
    area: &mut [u8],
    length: u64,
    r: Result<u64, OperationError>,
) -> io::Result<Session> {
    let s = ask(out, s, bus, rows, area, length)?;
    take(out, s, rows, r)
}

pub(crate) fn ask_poll<W: Write>(
    out: &mut W,
    s: Session,
    rows: &[u64],
    sequence: u64,
) -> io::Result<Session> {
    let r = poll::poll_request(s, rows, id_of(sequence));
    let answer = r.answer;
    show::polled(out, b"poll", answer)?;
    Ok(r.session)
}

pub(crate) fn take_poll<W: Write>(
    out: &mut W,
    s: Session,
    rows: &mut [u64],
    area: &mut [u8],
    r: Result<Option<BackendCompletion>, OperationError>,
    bytes: &[u8],
) -> io::Result<Session> {
    let x = poll_reply::poll_reply(s, rows, area, r, bytes);
    let answer = x.answer;
    show::reported(out, b"poll reply", answer)?;
    Ok(x.session)
}

pub(crate) fn cancel<W: Write>(
    out: &mut W,
    s: Session,
    rows: &mut [u64],
    sequence: u64,
) -> io::Result<Session> {
    let x = change::logical_cancel_request(s, rows, id_of(sequence));
    let answer = x.answer;
    show::reported(out, b"cancel", answer)?;
    Ok(x.session)
}

pub(crate) fn time_out<W: Write>(
    out: &mut W,
    s: Session,
    rows: &mut [u64],
    sequence: u64,
) -> io::Result<Session> {
    let x = change::timeout_request(s, rows, id_of(sequence));
    let answer = x.answer;
    show::reported(out, b"timeout", answer)?;
    Ok(x.session)
}

pub(crate) fn reclaim<W: Write>(
    out: &mut W,
    s: Session,
    rows: &mut [u64],
    sequence: u64,
) -> io::Result<Session> {
    let x = change::reclaim_request(s, rows, id_of(sequence));
    let answer = x.answer;
    show::reported(out, b"reclaim", answer)?;
    Ok(x.session)
}

pub(crate) fn close<W: Write>(
    out: &mut W,
    s: Session,
    rows: &mut [u64],
    fresh: Option<u64>,
    r: Option<OperationError>,
) -> io::Result<Session> {
    let x = lifecycle::close(s, rows, fresh, r);
    let answer = x.answer;
    show::verdict(out, b"close", answer)?;
    Ok(x.session)
}

pub(crate) fn show_held<W: Write>(out: &mut W, s: Session, rows: &[u64]) -> io::Result<()> {
    show::tally(out, b"held", status::tally_of(status::held_count(s, rows)))
}
