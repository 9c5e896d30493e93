// The session: it goes in and comes out by value. The Rust's `Session`, and what its `UsbSession` keeps beside the rows and the bus.
#![tactic(auto)]

ghost use Rattle.std.specs.Prelude.{◌≡◌};
ghost use Rattle.models.specs.Causes.{number_of};
ghost use Rattle.models.specs.Refusals.{refusal_of};
ghost use Rattle.session.specs.Called.{call_refused};
ghost use Rattle.session.specs.Session.{is_closed, is_acquired, is_initialized, may_recover, is_busy, raised, with_controller, with_flight, with_stall, spent, marked};

use models::{Cause, ControllerState, DeviceId, Ports, Refusal, RequestId};

pub mod lifecycle; // lifecycle.rt: open, acquire, initialise, close
pub mod place; // place.rt: the placing calls
pub mod sizes; // sizes.rt: the sizes of the lent slices, and where a row's bytes lie
pub mod start; // start.rt: 1 and 3, at the start of a call

// What a poll found that a reset of the same endpoint may undo: document 01's stall note.
#[derive(Clone, Copy)]
pub struct RecoverableStall {
    pub revision: u64,
    pub device: DeviceId,
    pub endpoint: u8,
}

// What a recovery asks of the backend; a reset may preserve the data toggle.
#[derive(Clone, Copy)]
pub enum RecoveryKind {
    Abort,
    Reset(bool),
}

// A recovery: the request that it is for, the device and the endpoint that it affects, and what the backend is to do.
#[derive(Clone, Copy)]
pub struct Recovery {
    pub target: RequestId,
    pub device: DeviceId,
    pub endpoint: u8,
    pub kind: RecoveryKind,
}

// The operation that waits for the backend's reply. Each match names all four cases, and C has one tag for them: an Option round three would be no plainer.
#[derive(Clone, Copy)]
pub enum InFlight {
    Nothing,
    Submission(RequestId),
    Poll(RequestId),
    Recovery(Recovery),
}

// How many rows the store has, and how many bytes each.
#[derive(Clone, Copy)]
pub struct Size {
    pub row_count: u64,
    pub row_bytes: u64,
}

#[derive(Clone, Copy)]
pub struct Session {
    pub number: u64,
    pub generation: u64,
    pub next_sequence: u64,
    pub ports: Option<Ports>,
    pub state: ControllerState,
    pub recovery_revision: Option<u64>,
    pub recoverable_stall: Option<RecoverableStall>,
    pub in_flight: InFlight,
    pub size: Size,
}

// The result of a call: its answer or the refusal, and the session it leaves.
#[derive(Clone, Copy)]
pub struct Called<T> {
    pub answer: Result<T, Refusal>,
    pub session: Session,
}

impl<T: Copy> Called<T> {
    pub fn refused(session: Session, refusal: Refusal) -> Self
        ensures { result ≡ call_refused session refusal }
    {
        Called {
            answer: Err(refusal),
            session,
        }
    }

    pub fn refused_by(session: Session, cause: Cause) -> Self
        ensures { result ≡ call_refused session (refusal_of (number_of cause)) }
    {
        Self::refused(session, models::refuse(cause))
    }
}

pub(crate) fn is_closed(s: ControllerState) -> bool
    ensures { result ≡ is_closed s }
{
    s == ControllerState::Closed
}

pub(crate) fn is_acquired(s: ControllerState) -> bool
    ensures { result ≡ is_acquired s }
{
    s == ControllerState::AcquiredUnknown
}

pub fn is_initialized(s: ControllerState) -> bool
    ensures { result ≡ is_initialized s }
{
    s == ControllerState::Initialized
}

// Initialized or RecoveryRequired.
pub fn may_recover(s: ControllerState) -> bool
    ensures { result ≡ may_recover s }
{
    matches!(
        s,
        ControllerState::Initialized | ControllerState::RecoveryRequired
    )
}

pub(crate) fn is_busy(f: InFlight) -> bool
    ensures { result ≡ is_busy f }
{
    !matches!(f, InFlight::Nothing)
}

// Increments; None once the counter is exhausted, and from then on.
fn raise(revision: Option<u64>) -> Option<u64>
    ensures { result ≡ raised revision }
{
    revision?.checked_add(1)
}

pub fn with_state(
    session: Session,
    state: ControllerState,
    recovery_revision: Option<u64>,
) -> Session
    ensures { result ≡ with_controller session state recovery_revision }
{
    Session {
        state,
        recovery_revision,
        ..session
    }
}

pub fn with_flight(session: Session, in_flight: InFlight) -> Session
    ensures { result ≡ with_flight session in_flight }
{
    Session {
        in_flight,
        ..session
    }
}

pub fn with_stall(session: Session, recoverable_stall: Option<RecoverableStall>) -> Session
    ensures { result ≡ with_stall session recoverable_stall }
{
    Session {
        recoverable_stall,
        ..session
    }
}

// The session with the next sequence number and the submission in flight.
pub fn spend(session: Session, next_sequence: u64, id: RequestId) -> Session
    ensures { result ≡ spent session next_sequence id }
{
    Session {
        next_sequence,
        in_flight: InFlight::Submission(id),
        ..session
    }
}

// Marks recovery: unless Closed, the state is RecoveryRequired and the revision rises.
pub fn mark(session: Session) -> Session
    ensures { result ≡ marked session }
{
    let state = session.state;
    let revision = session.recovery_revision;
    if is_closed(state) {
        return session;
    }
    with_state(session, ControllerState::RecoveryRequired, raise(revision))
}
