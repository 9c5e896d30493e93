// What every example is made of: the opening, the device of slot 1, ids and requests.
use models::{
    DeviceId, DeviceSnapshot, DeviceState, Direction, PortId, RequestId, RequestSpec, TransferType,
};
use session::Size;
use session::lifecycle::Opening;

pub(crate) fn opening() -> Opening {
    Opening {
        session: 1,
        first_sequence: 0,
        recovery_revision: Some(0),
        port_count: Some(1),
        size: Size {
            row_count: 2,
            row_bytes: 8,
        },
    }
}

pub(crate) fn device() -> DeviceSnapshot {
    DeviceSnapshot {
        id: DeviceId {
            session: 1,
            generation: 0,
            slot: 1,
        },
        port: PortId {
            session: 1,
            generation: 1,
            number: 1,
        },
        state: DeviceState::Configured,
    }
}

pub(crate) fn id_of(sequence: u64) -> RequestId {
    RequestId {
        session: 1,
        generation: 0,
        sequence,
    }
}

// A bulk IN request of 8 bytes to endpoint 81h.
pub(crate) fn bulk() -> RequestSpec {
    let d = device();
    let id = d.id;
    RequestSpec {
        device: id,
        endpoint: 0x81,
        transfer_type: TransferType::Bulk,
        direction: Direction::In,
        length: 8,
        setup: None,
    }
}
