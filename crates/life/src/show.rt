// Answers as text.
use models::{Refusal, RequestReport, RequestState};
use polls::PollAnswer;
use session::Session;
use std::io;
use std::io::Write;
use submissions::Submission;
use texts::print::{number, text};

fn refused<W: Write>(out: &mut W, r: Refusal) -> io::Result<()> {
    refused_by(out, r.number)
}

fn refused_by<W: Write>(out: &mut W, n: u16) -> io::Result<()> {
    text(out, b" refused")?;
    number(out, n as u64)?;
    text(out, b"\n")
}

pub fn verdict<W: Write>(out: &mut W, name: &[u8], v: Result<(), Refusal>) -> io::Result<()> {
    text(out, name)?;
    match v {
        Err(r) => refused(out, r),
        Ok(()) => text(out, b" ok\n"),
    }
}

pub fn opened<W: Write>(out: &mut W, name: &[u8], o: Result<Session, Refusal>) -> io::Result<()> {
    text(out, name)?;
    match o {
        Err(r) => refused(out, r),
        Ok(_) => text(out, b" ok\n"),
    }
}

// The state's letter and what it holds.
fn state<W: Write>(out: &mut W, s: RequestState) -> io::Result<()> {
    match s {
        RequestState::Pending {
            logical_cancel,
            timed_out,
        } => {
            text(out, b" P")?;
            number(out, logical_cancel as u64)?;
            number(out, timed_out as u64)
        }
        RequestState::Completed {
            actual_length,
            completion_code,
            logical_cancel,
        } => {
            text(out, b" C")?;
            number(out, actual_length)?;
            number(out, completion_code as u64)?;
            number(out, logical_cancel as u64)
        }
        RequestState::Failed {
            error,
            completion_code: _,
            quiescent,
        } => {
            text(out, b" F")?;
            number(out, error.message as u64)?;
            number(out, quiescent as u64)
        }
        RequestState::Aborted => text(out, b" A"),
    }
}

fn report<W: Write>(out: &mut W, r: RequestReport) -> io::Result<()> {
    let own = r.state;
    text(out, b" sequence")?;
    number(out, r.id.sequence)?;
    state(out, own)?;
    text(out, b", own flags")?;
    number(out, r.logical_cancel as u64)?;
    number(out, r.timed_out as u64)?;
    text(out, b"\n")
}

pub fn reported<W: Write>(
    out: &mut W,
    name: &[u8],
    a: Result<RequestReport, Refusal>,
) -> io::Result<()> {
    text(out, name)?;
    match a {
        Err(r) => refused(out, r),
        Ok(x) => report(out, x),
    }
}

pub fn next<W: Write>(
    out: &mut W,
    name: &[u8],
    a: Result<Option<RequestReport>, Refusal>,
) -> io::Result<()> {
    text(out, name)?;
    match a {
        Err(r) => refused(out, r),
        Ok(None) => text(out, b" none\n"),
        Ok(Some(x)) => report(out, x),
    }
}

pub fn polled<W: Write>(
    out: &mut W,
    name: &[u8],
    a: Result<PollAnswer, Refusal>,
) -> io::Result<()> {
    text(out, name)?;
    match a {
        Err(r) => refused(out, r),
        Ok(PollAnswer::Report(x)) => report(out, x),
        Ok(PollAnswer::Asked(token)) => {
            text(out, b" asks for token")?;
            number(out, token)?;
            text(out, b"\n")
        }
    }
}

pub fn submitted<W: Write>(
    out: &mut W,
    name: &[u8],
    a: Result<Submission, Refusal>,
) -> io::Result<()> {
    text(out, name)?;
    match a {
        Err(r) => refused(out, r),
        Ok(x) => {
            text(out, b" begun: sequence")?;
            number(out, x.id.sequence)?;
            text(out, b" row")?;
            number(out, x.row)?;
            text(out, b"\n")
        }
    }
}

pub fn tally<W: Write>(out: &mut W, name: &[u8], a: Result<u64, Refusal>) -> io::Result<()> {
    text(out, name)?;
    match a {
        Err(r) => refused(out, r),
        Ok(n) => {
            number(out, n)?;
            text(out, b"\n")
        }
    }
}

// A refusal by its number alone.
pub fn refusal<W: Write>(out: &mut W, name: &[u8], n: u16) -> io::Result<()> {
    text(out, name)?;
    refused_by(out, n)
}
