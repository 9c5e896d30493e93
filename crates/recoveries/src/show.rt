// Answers as parts of a line.
use models::{ControllerState, Refusal, RequestReport, RequestState};
use recovery::AbortReport;
use std::io;
use std::io::Write;
use texts::print::{number, text};

fn refused<W: Write>(out: &mut W, r: Refusal) -> io::Result<()> {
    text(out, b"refused")?;
    number(out, r.number as u64)
}

// The refusal, or how many were aborted.
pub fn recovered<W: Write>(out: &mut W, a: Result<AbortReport, Refusal>) -> io::Result<()> {
    match a {
        Err(r) => refused(out, r),
        Ok(x) => {
            text(out, b"aborted")?;
            number(out, x.aborted)
        }
    }
}

fn state<W: Write>(out: &mut W, s: RequestState) -> io::Result<()> {
    match s {
        RequestState::Pending { .. } => text(out, b"P"),
        RequestState::Completed { .. } => text(out, b"C"),
        RequestState::Failed { .. } => text(out, b"F"),
        RequestState::Aborted => text(out, b"A"),
    }
}

// The letter of a row's state.
pub fn letter<W: Write>(out: &mut W, a: Result<RequestReport, Refusal>) -> io::Result<()> {
    match a {
        Err(_) => text(out, b"-"),
        Ok(x) => {
            let own = x.state;
            state(out, own)
        }
    }
}

pub fn held<W: Write>(out: &mut W, a: Result<u8, Refusal>) -> io::Result<()> {
    match a {
        Err(_) => text(out, b" -"),
        Ok(n) => number(out, n as u64),
    }
}

pub fn controller<W: Write>(out: &mut W, s: ControllerState) -> io::Result<()> {
    match s {
        ControllerState::Closed => text(out, b"Closed"),
        ControllerState::AcquiredUnknown => text(out, b"AcquiredUnknown"),
        ControllerState::Initialized => text(out, b"Initialized"),
        ControllerState::Closing => text(out, b"Closing"),
        ControllerState::RecoveryRequired => text(out, b"RecoveryRequired"),
    }
}
