// The end of every submission, once it is admitted: the device, the endpoint, the sequence number, and the one place where a submission
// changes rows and area.
ghost use Rattle.std.specs.Prelude.{◌≡◌, ◌+◌, ◌<◌, ◌≤◌, length};
ghost use Rattle.chain.specs.After.{after};
ghost use Rattle.rows.specs.Table.{read_rows};
ghost use Rattle.session.specs.Lent.{lent_of, memory_of};
ghost use Rattle.submissions.specs.Begin.{room_in, new_id, write_of, draft, Placed, begin_of, target_of};

use ledger::{search, tally};
use models::{Refusal, RequestId, RequestMetadata, kinds};
use session::sizes::Place;
use session::{Called, Session};
use targets::{Readings, target};
use words::slices;

// How many requests may be held, as wide as their count.
const HELD_MOST: u8 = models::HELD_MOST as u8;

// A submission in flight: its id and its row.
#[derive(Clone, Copy)]
pub struct Start {
    pub id: RequestId,
    pub row: u64,
}

// The first row without a request; Nothing if there is none or 128 are held.
pub(crate) fn find_room(rows: &[u64]) -> Option<usize>
    ensures { result ≡ room_in (read_rows rows.now) }
{
    if tally::held_count(rows) >= HELD_MOST {
        return None;
    }
    search::first_free(rows)
}

fn new_id(session: Session) -> RequestId
    ensures { result ≡ new_id session }
{
    RequestId {
        session: session.number,
        generation: session.generation,
        sequence: session.next_sequence,
    }
}

// IN gets zeros of the length, OUT the data.
fn write_buffer(area: &mut [u8], start: usize, metadata: RequestMetadata, bytes: &[u8])
    requires { (start + metadata.requested_length ≤ length area.old)
        × (start + length bytes.now ≤ length area.old) }
    ensures { area.new ≡ write_of start metadata bytes.now area.old }
{
    let direction = metadata.direction;
    let n = metadata.requested_length;
    if kinds::is_in(direction) {
        slices::fill(area, start, n as usize, 0);
        return;
    }
    slices::copy(area, start, bytes, bytes.len());
}

// Refuses by 39 if no sequence number is left; else spends one, and writes row and buffer.
fn begin(
    session: Session,
    rows: &mut [u64],
    area: &mut [u8],
    place: Place,
    metadata: RequestMetadata,
    bytes: &[u8],
) -> Called<Start>
    requires { (place.row < length (read_rows rows.old))
        × (place.start + metadata.requested_length ≤ length area.old)
        × (place.start + length bytes.now ≤ length area.old) }
    ensures { after result (memory_of rows.new area.new)
        ≡ begin_of (draft place metadata bytes.now) session (memory_of rows.old area.old) }
{
    let spent = rules::spend_sequence(session.next_sequence);
    match spent {
        Err(refusal) => Called::refused(session, refusal),
        Ok(next) => {
            let id = new_id(session);
            let row = rules::pending_row(id, metadata);
            rows::write_row(rows, place.row, row);
            write_buffer(area, place.start, metadata, bytes);
            Called {
                answer: Ok(Start {
                    id,
                    row: place.row as u64,
                }),
                session: session::spend(session, next, id),
            }
        }
    }
}

// Refuses by 26 to 37, 58 and 38, then by 39. Readings taken before a refusal stay written.
pub(crate) fn begin_target(
    session: Session,
    bus: &mut [u64],
    rows: &mut [u64],
    area: &mut [u8],
    place: Place,
    metadata: RequestMetadata,
    bytes: &[u8],
    readings: Readings,
) -> Called<Start>
    requires { Placed (draft place metadata bytes.now) bus.old rows.old area.old }
    ensures { after result (lent_of bus.new rows.new area.new)
        ≡ target_of (draft place metadata bytes.now) readings session (lent_of bus.old rows.old area.old) }
{
    let state = session.state;
    let ports = session.ports;
    let initialized = session::is_initialized(state);
    let verdict = target::check_target(bus, initialized, ports, metadata, readings);
    match verdict {
        Err(refusal) => Called::refused(session, refusal),
        Ok(()) => begin(session, rows, area, place, metadata, bytes),
    }
}
