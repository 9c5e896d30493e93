// What stands before the first request: a device, its endpoint, and the controller initialized.
use crate::fixtures::{device, error};
use crate::show;
use models::ErrorCategory;
use session::lifecycle::AcquireFailure;
use session::{Session, lifecycle, place};
use std::io;
use std::io::Write;

// Port 2 is refused by 30; then the device of slot 1 on port 1.
fn set_device<W: Write>(out: &mut W, s: Session, bus: &mut [u64]) -> io::Result<()> {
    let row = bus::PortRow {
        generation: 1,
        reading: Some(0x403),
    };
    show::verdict(out, b"set port 2", place::set_port(s, bus, 2, row))?;
    show::verdict(out, b"set port 1", place::set_port(s, bus, 1, row))?;
    show::verdict(out, b"set device", place::set_device(s, bus, device()))
}

// 31 endpoints are refused by 53; then endpoint 81h and no mark.
fn set_endpoint<W: Write>(out: &mut W, s: Session, bus: &mut [u64]) -> io::Result<()> {
    let long = [0u64; 31];
    let one = [0x181u64];
    show::verdict(
        out,
        b"set 31 endpoints",
        place::set_endpoints(s, bus, 1, &long),
    )?;
    show::verdict(out, b"set endpoints", place::set_endpoints(s, bus, 1, &one))?;
    show::verdict(out, b"clear mark", place::set_reconcile(s, bus, 1, false))
}

// Initialise is refused by 51, acquire fails, passes, is refused by 50; then Initialized.
fn start<W: Write>(out: &mut W, s: Session) -> io::Result<Session> {
    let early = lifecycle::initialize(s, None);
    let answer = early.answer;
    show::verdict(out, b"initialize", answer)?;
    let failed = lifecycle::acquire(
        s,
        Err(AcquireFailure {
            error: error(ErrorCategory::Controller),
            retained: false,
        }),
    );
    let answer = failed.answer;
    show::verdict(out, b"acquire", answer)?;
    let acquired = lifecycle::acquire(failed.session, Ok(()));
    let answer = acquired.answer;
    show::verdict(out, b"acquire", answer)?;
    let again = lifecycle::acquire(acquired.session, Ok(()));
    let answer = again.answer;
    show::verdict(out, b"acquire", answer)?;
    let ready = lifecycle::initialize(acquired.session, None);
    let answer = ready.answer;
    show::verdict(out, b"initialize", answer)?;
    Ok(ready.session)
}

pub(crate) fn prepare<W: Write>(out: &mut W, s: Session, bus: &mut [u64]) -> io::Result<Session> {
    set_device(out, s, bus)?;
    set_endpoint(out, s, bus)?;
    start(out, s)
}
