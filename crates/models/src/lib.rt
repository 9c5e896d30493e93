// The plain types of the Rust's models.rs, models/requests.rs, models/control_plan.rs, models/ports.rs and services/usb.rs,
// under the Rust's names. A message text is a number here, a `usize` length a `u64`, and bytes stand beside the value.
#![tactic(auto)]

ghost use Rattle.std.specs.Prelude.{◌≡◌};
ghost use Rattle.models.specs.Requests.{device_may_access, is_pending};
ghost use Rattle.models.specs.Causes.{number_of};
ghost use Rattle.models.specs.Refusals.{own_error, refusal_of, rejected, from_backend, invalid_completion};

pub mod causes; // causes.rt: why a call is refused
mod codes; // codes.rt: the fieldless enums as words
pub mod kinds; // kinds.rt: tests on the fieldless enums
pub mod values; // values.rt: ids and errors, read from words

pub use causes::Cause;

// So many requests are held at most, and a list of requests has so many places.
pub const HELD_MOST: usize = 128;

#[derive(Clone, Copy, Debug, PartialEq, Eq)]
pub enum ControllerState {
    Closed,
    AcquiredUnknown,
    Initialized,
    Closing,
    RecoveryRequired,
}

#[derive(Clone, Copy, Debug, PartialEq, Eq)]
pub enum DeviceState {
    Observed,
    PortReset,
    SlotEnabled,
    DefaultAddress,
    Addressed,
    Configured,
    Disconnected,
}

#[derive(Clone, Copy, Debug, PartialEq, Eq)]
pub enum ErrorCategory {
    Validation,
    Unsupported,
    OperatingSystem,
    Controller,
    Timeout,
    Disconnect,
    RecoveryRequired,
}

#[derive(Clone, Copy, Debug, PartialEq, Eq)]
pub struct OperationError {
    pub category: ErrorCategory,
    pub message: u16,
    pub os_code: Option<i32>,
    pub completion_code: Option<u32>,
}

// A call that is refused: its number in document 01's table, and its error.
#[derive(Clone, Copy, Debug, PartialEq, Eq)]
pub struct Refusal {
    pub number: u16,
    pub error: OperationError,
}

// The order of the fields is the order of ids. The default is the id of the places that a list of ids leaves.
#[derive(Clone, Copy, Debug, PartialEq, Eq, PartialOrd, Ord, Hash, Default)]
pub struct RequestId {
    pub session: u64,
    pub generation: u64,
    pub sequence: u64,
}

#[derive(Clone, Copy, Debug, PartialEq, Eq, PartialOrd, Ord, Hash)]
pub struct DeviceId {
    pub session: u64,
    pub generation: u64,
    pub slot: u8,
}

#[derive(Clone, Copy, Debug, PartialEq, Eq, PartialOrd, Ord, Hash)]
pub struct PortId {
    pub session: u64,
    pub generation: u64,
    pub number: u8,
}

#[derive(Clone, Copy, Debug, PartialEq, Eq)]
pub enum RequestState {
    Pending {
        logical_cancel: bool,
        timed_out: bool,
    },
    Completed {
        actual_length: u64,
        completion_code: u32,
        logical_cancel: bool,
    },
    Failed {
        error: OperationError,
        completion_code: Option<u32>,
        quiescent: bool,
    },
    Aborted,
}

#[derive(Clone, Copy, Debug, PartialEq, Eq)]
pub enum Direction {
    In,
    Out,
}

#[derive(Clone, Copy, Debug, PartialEq, Eq)]
pub enum TransferType {
    Control,
    Bulk,
    Interrupt,
    Isochronous,
}

#[derive(Clone, Copy, Debug, PartialEq, Eq, Default)]
pub struct SetupPacket {
    pub request_type: u8,
    pub request: u8,
    pub value: u16,
    pub index: u16,
    pub length: u16,
}

// An optional SETUP packet as C's words: a flag, and zeros where there is none.
#[derive(Clone, Copy, Debug, PartialEq, Eq)]
pub struct SetupWords {
    pub present: u64,
    pub request_type: u64,
    pub request: u64,
    pub value: u64,
    pub index: u64,
    pub length: u64,
}

#[derive(Clone, Copy, Debug, PartialEq, Eq)]
pub struct RequestMetadata {
    pub device: DeviceId,
    pub endpoint: u8,
    pub transfer_type: TransferType,
    pub direction: Direction,
    pub requested_length: u64,
    pub setup: Option<SetupPacket>,
}

// A call's report of a request. The Rust's `data` comes back as a part of the lent area, from a call of its own.
#[derive(Clone, Copy, Debug, PartialEq, Eq)]
pub struct RequestReport {
    pub id: RequestId,
    pub metadata: RequestMetadata,
    pub state: RequestState,
    pub logical_cancel: bool,
    pub timed_out: bool,
}

// What the backend brings of a request. The data's bytes are lent beside it, and are not read where `has_data` is false: C hands the flag as a word and
// the bytes as a slice (docs/CALLS.md).
#[derive(Clone, Copy, Debug, PartialEq, Eq)]
pub struct BackendCompletion {
    pub actual_length: Option<u64>,
    pub completion_code: Option<u32>,
    pub has_data: bool,
    pub error: Option<OperationError>,
    pub quiescent: bool,
}

// A request as it is asked for. The data's bytes are lent beside it.
#[derive(Clone, Copy, Debug, PartialEq, Eq)]
pub struct RequestSpec {
    pub device: DeviceId,
    pub endpoint: u8,
    pub transfer_type: TransferType,
    pub direction: Direction,
    pub length: u64,
    pub setup: Option<SetupPacket>,
}

#[derive(Clone, Copy, Debug, PartialEq, Eq)]
pub enum ControlProfile {
    Compliant,
    DeviceCompatibility,
}

#[derive(Clone, Copy, Debug, PartialEq, Eq)]
pub struct DataStage {
    pub direction: Direction,
    pub length: u64,
}

// A control transfer with its stages declared. The data's bytes are lent beside it.
#[derive(Clone, Copy, Debug, PartialEq, Eq)]
pub struct ControlPlan {
    pub device: DeviceId,
    pub profile: ControlProfile,
    pub setup: SetupPacket,
    pub data_stage: Option<DataStage>,
    pub status_direction: Option<Direction>,
}

// The ports of an opening: the session number that their ids carry, and how many there are.
#[derive(Clone, Copy, Debug, PartialEq, Eq)]
pub struct Ports {
    pub session: u64,
    pub count: u8,
}

#[derive(Clone, Copy, Debug, PartialEq, Eq)]
pub struct DeviceSnapshot {
    pub id: DeviceId,
    pub port: PortId,
    pub state: DeviceState,
}

// The controller may still write to the request's buffer: document 01's "held".
pub fn device_may_access(state: RequestState) -> bool
    ensures { result ≡ device_may_access state }
{
    match state {
        RequestState::Pending { .. } => true,
        RequestState::Failed { quiescent, .. } => !quiescent,
        _ => false,
    }
}

pub fn is_pending(state: RequestState) -> bool
    ensures { result ≡ is_pending state }
{
    matches!(state, RequestState::Pending { .. })
}

// An error of the ledger's own: its message is the refusal's number.
fn own_error(category: ErrorCategory, number: u16, code: Option<u32>) -> OperationError
    ensures { result ≡ own_error category number code }
{
    OperationError {
        category,
        message: number,
        os_code: None,
        completion_code: code,
    }
}

// A refusal of our own, by its cause.
pub fn refuse(cause: Cause) -> Refusal
    ensures { result ≡ refusal_of (number_of cause) }
{
    let number = cause.number();
    let error = own_error(cause.category(), number, None);
    Refusal { number, error }
}

pub fn reject(cause: Cause) -> Result<(), Refusal>
    ensures { result ≡ rejected (number_of cause) }
{
    Err(refuse(cause))
}

// 33 and 45 carry the backend's error.
pub fn refuse_backend(cause: Cause, error: OperationError) -> Refusal
    ensures { result ≡ from_backend (number_of cause) error }
{
    Refusal {
        number: cause.number(),
        error,
    }
}

// 48, with the completion's code.
pub fn refuse_completion(code: Option<u32>) -> Refusal
    ensures { result ≡ invalid_completion code }
{
    let cause = Cause::InvalidCompletion;
    let number = cause.number();
    let error = own_error(cause.category(), number, code);
    Refusal { number, error }
}
