// Opening, and the calls that move the controller's state, each with the backend's reply.
ghost use Rattle.std.specs.Prelude.{◌≡◌};
ghost use Rattle.chain.specs.After.{after};
ghost use Rattle.models.specs.Said.{Tabled, verdict_said};
ghost use Rattle.session.specs.Lent.{memory, lent, lent_of};
ghost use Rattle.session.specs.Called.{passed};
ghost use Rattle.session.specs.Lifecycle.{ports_of, new_session, open_of, acquired_by, acquire_of, initialized_by, initialize_of, closed_session, closed_by, close_of};
ghost use Rattle.session.specs.Said.{opened_said, open_numbers, acquire_numbers, initialize_numbers, close_numbers};
ghost use Rattle.bus.specs.Tables.{bus_of};
ghost use Rattle.rows.specs.Store.{store_of};

use crate::{
    Called, InFlight, Session, Size, is_acquired, is_busy, is_closed, mark, raise, sizes, start,
    with_state,
};
use models::{Cause, ControllerState, OperationError, Ports, Refusal};

// What an opening sets.
#[derive(Clone, Copy)]
pub struct Opening {
    pub session: u64,
    pub first_sequence: u64,
    pub recovery_revision: Option<u64>,
    pub port_count: Option<u8>,
    pub size: Size,
}

// The backend's failure to acquire, and whether it retains resources.
#[derive(Clone, Copy)]
pub struct AcquireFailure {
    pub error: OperationError,
    pub retained: bool,
}

fn pass(session: Session) -> Called<()>
    ensures { result ≡ passed session }
{
    Called {
        answer: Ok(()),
        session,
    }
}

fn ports_of(o: Opening) -> Option<Ports>
    ensures { result ≡ ports_of o }
{
    o.port_count.map(|count| Ports {
        session: o.session,
        count,
    })
}

fn new_session(o: Opening) -> Session
    ensures { result ≡ new_session o }
{
    let recovery_revision = o.recovery_revision;
    let size = o.size;
    Session {
        number: o.session,
        generation: 0,
        next_sequence: o.first_sequence,
        ports: ports_of(o),
        state: ControllerState::Closed,
        recovery_revision,
        recoverable_stall: None,
        in_flight: InFlight::Nothing,
        size,
    }
}

// Opens a session on a store and a bus, whatever they held. Refuses by 3 if a size is wrong.
pub fn open(o: Opening, rows: &mut [u64], area: &[u8], bus: &mut [u64]) -> Result<Session, Refusal>
    ensures step { after result (lent (bus_of bus.new) (memory (store_of rows.new) area.now))
        ≡ open_of o (lent_of bus.old rows.old area.now) }
    ensures table { Tabled open_numbers (opened_said result) }
{
    let size = o.size;
    if !sizes::lent_fits(size, rows.len(), area.len(), bus.len()) {
        return Err(models::refuse(Cause::WrongSize));
    }
    rows::clear_rows(rows);
    bus::clear(bus);
    Ok(new_session(o))
}

// What the backend's reply to acquire leaves.
fn acquired(session: Session, reply: Result<(), AcquireFailure>) -> Called<()>
    ensures { result ≡ acquired_by reply session }
{
    let revision = session.recovery_revision;
    match reply {
        Ok(()) => pass(with_state(session, ControllerState::AcquiredUnknown, revision)),
        Err(failure) => {
            let error = failure.error;
            let refusal = models::refuse_backend(Cause::BackendError, error);
            if failure.retained {
                let next = with_state(session, ControllerState::RecoveryRequired, raise(revision));
                return Called::refused(next, refusal);
            }
            Called::refused(session, refusal)
        }
    }
}

// Refuses by 1 while an operation is in flight, by 50 unless Closed, by 45 if the backend failed: still Closed, unless it retains resources.
pub fn acquire(session: Session, reply: Result<(), AcquireFailure>) -> Called<()>
    ensures step { result ≡ acquire_of reply session }
    ensures table { Tabled acquire_numbers (verdict_said result.answer) }
{
    let flight = session.in_flight;
    let state = session.state;
    if is_busy(flight) {
        return Called::refused_by(session, Cause::OperationInFlight);
    }
    if !is_closed(state) {
        return Called::refused_by(session, Cause::NotClosed);
    }
    acquired(session, reply)
}

// What the backend's reply to initialise leaves.
fn initialized(session: Session, reply: Option<OperationError>) -> Called<()>
    ensures { result ≡ initialized_by reply session }
{
    let revision = session.recovery_revision;
    match reply {
        None => pass(with_state(session, ControllerState::Initialized, revision)),
        Some(error) => Called::refused(
            mark(session),
            models::refuse_backend(Cause::BackendError, error),
        ),
    }
}

// Refuses by 1 while an operation is in flight, by 51 unless AcquiredUnknown, by 45 with a recovery mark if the backend failed.
pub fn initialize(session: Session, reply: Option<OperationError>) -> Called<()>
    ensures step { result ≡ initialize_of reply session }
    ensures table { Tabled initialize_numbers (verdict_said result.answer) }
{
    let flight = session.in_flight;
    let state = session.state;
    if is_busy(flight) {
        return Called::refused_by(session, Cause::OperationInFlight);
    }
    if !is_acquired(state) {
        return Called::refused_by(session, Cause::NotAcquired);
    }
    initialized(session, reply)
}

fn closed_session(session: Session, fresh: u64) -> Session
    ensures { result ≡ closed_session session fresh }
{
    Session {
        number: fresh,
        generation: 0,
        next_sequence: 0,
        state: ControllerState::Closed,
        in_flight: InFlight::Nothing,
        ..session
    }
}

// What the backend's reply to close leaves: a refusal by 45 with a recovery mark, or a new ledger with every row free.
fn closed(
    session: Session,
    rows: &mut [u64],
    fresh: u64,
    reply: Option<OperationError>,
) -> Called<()>
    ensures { after result (store_of rows.new) ≡ closed_by reply fresh session (store_of rows.old) }
{
    match reply {
        Some(error) => Called::refused(
            mark(session),
            models::refuse_backend(Cause::BackendError, error),
        ),
        None => {
            rows::clear_rows(rows);
            pass(closed_session(session, fresh))
        }
    }
}

// Refuses by 1 and 3; passes unchanged if Closed; refuses by 52 without a fresh number; then goes by the reply.
pub fn close(
    session: Session,
    rows: &mut [u64],
    fresh: Option<u64>,
    reply: Option<OperationError>,
) -> Called<()>
    ensures step { after result (store_of rows.new) ≡ close_of fresh reply session (store_of rows.old) }
    ensures table { Tabled close_numbers (verdict_said result.answer) }
{
    let state = session.state;
    let verdict = start::rows_ready(session, rows.len());
    match verdict {
        Err(refusal) => Called::refused(session, refusal),
        Ok(()) => {
            if is_closed(state) {
                return pass(session);
            }
            let Some(number) = fresh else {
                return Called::refused_by(session, Cause::NoFreshSession);
            };
            closed(session, rows, number, reply)
        }
    }
}
