// What an event says: the submission and the id of its first call, and the backend's reply.
ghost use Rattle.std.specs.Prelude.{◌≡◌};
ghost use Rattle.marking.specs.Marking.{paper_readings, event_spec, event_id, error_flag, event_completion, event_reply, ready_reply};

use models::{
    BackendCompletion, DeviceId, Direction, ErrorCategory, OperationError, RequestId, RequestSpec,
    TransferType,
};
use paper::{PaperEvent, form};
use recovery::BackendAbort;
use targets::Readings;

pub(crate) fn readings() -> Readings
    ensures { result ≡ paper_readings }
{
    let word = Ok(0x403);
    Readings {
        first: word,
        second: word,
    }
}

// Kind 0: bulk IN, to the slot's device.
pub(crate) fn spec_of(e: PaperEvent) -> RequestSpec
    ensures { result ≡ event_spec e }
{
    RequestSpec {
        device: DeviceId {
            session: 1,
            generation: 0,
            slot: e.slot,
        },
        endpoint: e.endpoint,
        transfer_type: TransferType::Bulk,
        direction: Direction::In,
        length: e.length as u64,
        setup: None,
    }
}

// Kinds 1 to 5.
pub(crate) fn id_of(e: PaperEvent) -> RequestId
    ensures { result ≡ event_id e }
{
    RequestId {
        session: 1,
        generation: 0,
        sequence: e.sequence as u64,
    }
}

fn error_of(e: PaperEvent) -> Option<OperationError>
    ensures { result ≡ error_flag e }
{
    if !form::has_error(e) {
        return None;
    }
    Some(OperationError {
        category: ErrorCategory::RecoveryRequired,
        message: 0,
        os_code: None,
        completion_code: Some(e.code as u32),
    })
}

fn completion_of(e: PaperEvent) -> BackendCompletion
    ensures { result ≡ event_completion e }
{
    BackendCompletion {
        actual_length: Some(e.length as u64),
        completion_code: Some(e.code as u32),
        has_data: true,
        error: error_of(e),
        quiescent: form::is_quiescent(e),
    }
}

// Without the first flag nothing came.
pub(crate) fn reply_of(e: PaperEvent) -> Result<Option<BackendCompletion>, OperationError>
    ensures { result ≡ event_reply e }
{
    if !form::has_completion(e) {
        return Ok(None);
    }
    Ok(Some(completion_of(e)))
}

pub(crate) fn ready_reply() -> Result<BackendAbort, OperationError>
    ensures { result ≡ ready_reply }
{
    Ok(BackendAbort {
        restart_ready: true,
        error: None,
    })
}
