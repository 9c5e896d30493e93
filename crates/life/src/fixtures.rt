// What every life is made of: the opening, the device of slot 1, ids, requests and replies.
use models::{
    BackendCompletion, DeviceId, DeviceSnapshot, DeviceState, Direction, ErrorCategory,
    OperationError, PortId, RequestId, RequestSpec, TransferType,
};
use session::Size;
use session::lifecycle::Opening;

pub(crate) fn opening(row_count: u64, row_bytes: u64) -> Opening {
    Opening {
        session: 1,
        first_sequence: 0,
        recovery_revision: Some(0),
        port_count: Some(1),
        size: Size {
            row_count,
            row_bytes,
        },
    }
}

pub(crate) fn device() -> DeviceSnapshot {
    DeviceSnapshot {
        id: DeviceId {
            session: 1,
            generation: 0,
            slot: 1,
        },
        port: PortId {
            session: 1,
            generation: 1,
            number: 1,
        },
        state: DeviceState::Configured,
    }
}

pub(crate) fn id_of(sequence: u64) -> RequestId {
    RequestId {
        session: 1,
        generation: 0,
        sequence,
    }
}

pub(crate) fn error(category: ErrorCategory) -> OperationError {
    OperationError {
        category,
        message: 7,
        os_code: None,
        completion_code: None,
    }
}

// A bulk IN request to endpoint 81h.
pub(crate) fn bulk(length: u64) -> RequestSpec {
    let d = device();
    let id = d.id;
    RequestSpec {
        device: id,
        endpoint: 0x81,
        transfer_type: TransferType::Bulk,
        direction: Direction::In,
        length,
        setup: None,
    }
}

pub(crate) fn completion(
    length: u64,
    code: u32,
) -> Result<Option<BackendCompletion>, OperationError> {
    Ok(Some(BackendCompletion {
        actual_length: Some(length),
        completion_code: Some(code),
        has_data: true,
        error: None,
        quiescent: true,
    }))
}
