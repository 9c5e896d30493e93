// The session that a paper's events are put to: opened, Initialized, and a device with bulk endpoints in every slot.
#![tactic(auto)]

ghost use Rattle.std.specs.Prelude.{◌≡◌};
ghost use Rattle.session.specs.Lent.{memory, lent, lent_of};
ghost use Rattle.calls.specs.Calls.{Open};
ghost use Rattle.calls.specs.Step.{world, step_of, next, made_on, no_session};
ghost use Rattle.paper_session.specs.Start.{paper_opening, paper_port, slot_snapshot, readied, opening_calls, start_on, PlacesSlot, PlacesSlots};
ghost use Rattle.bus.specs.Tables.{bus_of};
ghost use Rattle.rows.specs.Store.{store_of};

use bus::PortRow;
use calls::answers;
use models::{ControllerState, DeviceId, DeviceSnapshot, DeviceState, PortId};
use rows::ROW_WORDS;
use session::lifecycle::Opening;
use session::{InFlight, Session, Size, lifecycle, place};

// The store: 64 rows of 256 bytes.
const ROWS: usize = 64;

const ROW_BYTES: usize = 256;

// How many words its rows have.
pub const STORE_WORDS: usize = ROWS * ROW_WORDS;

// How many bytes its area has.
pub const AREA_BYTES: usize = ROWS * ROW_BYTES;

fn opening() -> Opening
    ensures { result ≡ paper_opening }
{
    Opening {
        session: 1,
        first_sequence: 0,
        recovery_revision: Some(0),
        port_count: Some(1),
        size: Size {
            row_count: ROWS as u64,
            row_bytes: ROW_BYTES as u64,
        },
    }
}

// What the opening is handed.
fn no_session() -> Session
    ensures { result ≡ no_session }
{
    Session {
        number: 0,
        generation: 0,
        next_sequence: 0,
        ports: None,
        state: ControllerState::Closed,
        recovery_revision: None,
        recoverable_stall: None,
        in_flight: InFlight::Nothing,
        size: Size {
            row_count: 0,
            row_bytes: 0,
        },
    }
}

fn port() -> PortRow
    ensures { result ≡ paper_port }
{
    PortRow {
        generation: 1,
        reading: Some(0x403),
    }
}

fn snapshot(slot: u8) -> DeviceSnapshot
    ensures { result ≡ slot_snapshot slot }
{
    DeviceSnapshot {
        id: DeviceId {
            session: 1,
            generation: 0,
            slot,
        },
        port: PortId {
            session: 1,
            generation: 1,
            number: 1,
        },
        state: DeviceState::Configured,
    }
}

// A slot's device and its endpoints, 81h to 8Fh.
fn place_slot(session: Session, bus: &mut [u64], slot: u8)
    ensures { PlacesSlot slot session bus.old bus.new }
{
    let bulk = [
        0x181u64, 0x182, 0x183, 0x184, 0x185, 0x186, 0x187, 0x188, 0x189, 0x18a, 0x18b, 0x18c,
        0x18d, 0x18e, 0x18f,
    ];
    let _ = place::set_device(session, bus, snapshot(slot));
    let _ = place::set_endpoints(session, bus, slot, &bulk);
}

fn place_slots(session: Session, bus: &mut [u64])
    ensures { PlacesSlots session bus.old bus.new }
{
    for slot in 0..=255 {
        place_slot(session, bus, slot);
    }
}

fn opened(bus: &mut [u64], rows: &mut [u64], area: &[u8]) -> Session
    ensures { world result (lent (bus_of bus.new) (memory (store_of rows.new) area.now))
        ≡ next (step_of (Open paper_opening) (world no_session (lent_of bus.old rows.old area.now))) }
{
    let answer = lifecycle::open(opening(), rows, area, bus);
    let outcome = answers::of_opened(answer, no_session());
    outcome.session
}

// Acquired and Initialized.
fn ready(session: Session) -> Session
    ensures { result ≡ readied session }
{
    let acquired = lifecycle::acquire(session, Ok(()));
    let initialized = lifecycle::initialize(acquired.session, None);
    initialized.session
}

// Opened, acquired, Initialized, with port 1.
fn open(bus: &mut [u64], rows: &mut [u64], area: &[u8]) -> Session
    ensures { world result (lent (bus_of bus.new) (memory (store_of rows.new) area.now))
        ≡ made_on opening_calls (world no_session (lent_of bus.old rows.old area.now)) }
{
    let session = ready(opened(bus, rows, area));
    let _ = place::set_port(session, bus, 1, port());
    session
}

pub fn start(bus: &mut [u64], rows: &mut [u64], area: &[u8]) -> Session
    ensures { world result (lent (bus_of bus.new) (memory (store_of rows.new) area.now)) ≡ start_on (lent_of bus.old rows.old area.now) }
{
    let session = open(bus, rows, area);
    place_slots(session, bus);
    session
}
