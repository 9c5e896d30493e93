// The arguments of calls, read from their words. Every word says something, and one that is missing says 0; `form` tests which words are calls.
ghost use Rattle.std.specs.Prelude.{◌≡◌, ◌+◌, ◌*◌, min, get_or, take, drop};
ghost use Rattle.scope.specs.Returned.{completion_words};
ghost use Rattle.call_words.specs.Parts.{read_port_id, read_setup, read_reading, read_stage, read_status};
ghost use Rattle.call_words.specs.Arguments.{read_opening, read_snapshot, read_port_row, read_acquire_reply, read_spec, read_readings, read_plan, read_submit_reply, read_poll_reply, read_option_id, read_recovery_reply, read_completed, read_completions, read_aborted};

use bus::PortRow;
use models::values::{device_at, error_at, id_at, option_error_at};
use models::{
    BackendCompletion, ControlPlan, ControlProfile, DataStage, DeviceSnapshot, DeviceState,
    Direction, OperationError, PortId, RequestId, RequestSpec, SetupPacket, TransferType,
};
use recovery::BackendAbort;
use rows::codec;
use scope::returned;
use session::Size;
use session::lifecycle::{AcquireFailure, Opening};
use targets::Readings;
use words::slices;
use words::slices::word_at;

// How many words a completion of a recovery's reply has.
pub(crate) const COMPLETION: usize = 11;

fn port_id_at(w: &[u64], at: u8) -> PortId
    ensures { result ≡ read_port_id w.now at }
{
    let i = at as usize;
    PortId {
        session: word_at(w, i),
        generation: word_at(w, i + 1),
        number: (word_at(w, i + 2) % 256) as u8,
    }
}

fn setup_at(w: &[u64], at: u8) -> SetupPacket
    ensures { result ≡ read_setup w.now at }
{
    let i = at as usize;
    SetupPacket {
        request_type: (word_at(w, i) % 256) as u8,
        request: (word_at(w, i + 1) % 256) as u8,
        value: (word_at(w, i + 2) % 65536) as u16,
        index: (word_at(w, i + 3) % 65536) as u16,
        length: (word_at(w, i + 4) % 65536) as u16,
    }
}

// The port's word, or the error.
pub fn reading_at(w: &[u64], at: u8) -> Result<u32, OperationError>
    ensures { result ≡ read_reading w.now at }
{
    let i = at as usize;
    if word_at(w, i) == 0 {
        return Ok((word_at(w, i + 1) % 4294967296) as u32);
    }
    Err(error_at(w, at as u16 + 2))
}

pub fn opening(w: &[u64]) -> Opening
    ensures { result ≡ read_opening w.now }
{
    Opening {
        session: word_at(w, 1),
        first_sequence: word_at(w, 2),
        recovery_revision: words::to_option_u64(word_at(w, 3), word_at(w, 4)),
        port_count: words::to_flag(word_at(w, 5)).then_some((word_at(w, 6) % 256) as u8),
        size: Size {
            row_count: word_at(w, 7),
            row_bytes: word_at(w, 8),
        },
    }
}

pub fn snapshot(w: &[u64]) -> DeviceSnapshot
    ensures { result ≡ read_snapshot w.now }
{
    DeviceSnapshot {
        id: device_at(w, 1),
        port: port_id_at(w, 4),
        state: DeviceState::from(word_at(w, 7)),
    }
}

pub fn port_row(w: &[u64]) -> PortRow
    ensures { result ≡ read_port_row w.now }
{
    PortRow {
        generation: word_at(w, 2),
        reading: words::to_option_u32(word_at(w, 3)),
    }
}

pub fn acquire_reply(w: &[u64]) -> Result<(), AcquireFailure>
    ensures { result ≡ read_acquire_reply w.now }
{
    if word_at(w, 1) == 0 {
        return Ok(());
    }
    Err(AcquireFailure {
        error: error_at(w, 3),
        retained: words::to_flag(word_at(w, 2)),
    })
}

pub fn spec(w: &[u64]) -> RequestSpec
    ensures { result ≡ read_spec w.now }
{
    let setup = codec::to_setup(
        word_at(w, 8),
        word_at(w, 9),
        word_at(w, 10),
        word_at(w, 11),
        word_at(w, 12),
        word_at(w, 13),
    );
    RequestSpec {
        device: device_at(w, 1),
        endpoint: (word_at(w, 4) % 256) as u8,
        transfer_type: TransferType::from(word_at(w, 5)),
        direction: Direction::from(word_at(w, 6)),
        length: word_at(w, 7),
        setup,
    }
}

pub fn readings(w: &[u64]) -> Readings
    ensures { result ≡ read_readings w.now }
{
    Readings {
        first: reading_at(w, 14),
        second: reading_at(w, 20),
    }
}

fn stage_at(w: &[u64], at: u8) -> Option<DataStage>
    ensures { result ≡ read_stage w.now at }
{
    let i = at as usize;
    if word_at(w, i) == 0 {
        return None;
    }
    Some(DataStage {
        direction: Direction::from(word_at(w, i + 1)),
        length: word_at(w, i + 2),
    })
}

fn to_status(w: u64) -> Option<Direction>
    ensures { result ≡ read_status w }
{
    if w == 0 {
        return None;
    }
    Some(Direction::from(w - 1))
}

pub fn plan(w: &[u64]) -> ControlPlan
    ensures { result ≡ read_plan w.now }
{
    ControlPlan {
        device: device_at(w, 1),
        profile: ControlProfile::from(word_at(w, 4)),
        setup: setup_at(w, 5),
        data_stage: stage_at(w, 10),
        status_direction: to_status(word_at(w, 13)),
    }
}

pub fn submit_reply(w: &[u64]) -> Result<u64, OperationError>
    ensures { result ≡ read_submit_reply w.now }
{
    if word_at(w, 1) == 0 {
        return Ok(word_at(w, 2));
    }
    Err(error_at(w, 3))
}

// Nothing came, an error, or a completion.
pub fn poll_reply(w: &[u64]) -> Result<Option<BackendCompletion>, OperationError>
    ensures { result ≡ read_poll_reply w.now }
{
    let kind = word_at(w, 1);
    if kind == 0 {
        return Ok(None);
    }
    if kind == 1 {
        return Err(error_at(w, 3));
    }
    Ok(Some(returned::completion(slices::rest(w, 2))))
}

pub fn option_id(w: &[u64]) -> Option<RequestId>
    ensures { result ≡ read_option_id w.now }
{
    if word_at(w, 1) == 0 {
        return None;
    }
    Some(id_at(w, 2))
}

pub fn backend_abort(w: &[u64]) -> Result<BackendAbort, OperationError>
    ensures { result ≡ read_recovery_reply w.now }
{
    if word_at(w, 1) == 0 {
        return Ok(BackendAbort {
            restart_ready: words::to_flag(word_at(w, 2)),
            error: option_error_at(w, 3),
        });
    }
    Err(error_at(w, 4))
}

// The tokens of completed requests.
pub fn completed(w: &[u64]) -> &[u64]
    ensures { result.now ≡ read_completed w.now }
{
    let n = word_at(w, 8) as usize;
    slices::first(slices::rest(w, 10), n)
}

fn past_completed(w: &[u64]) -> &[u64]
    ensures { result.now ≡ drop (10 + get_or w.now 8 0) w.now }
{
    let n = word_at(w, 8) as usize;
    slices::rest(slices::rest(w, 10), n)
}

// How many words n completions have, at the most `most`.
fn completion_words(n: usize, most: usize) -> usize
    ensures { result ≡ min (n * completion_words) most }
{
    if n > most / COMPLETION {
        return most;
    }
    n * COMPLETION
}

// Their completions' words.
pub fn completions(w: &[u64]) -> &[u64]
    ensures { result.now ≡ read_completions w.now }
{
    let left = past_completed(w);
    let n = completion_words(word_at(w, 9) as usize, left.len());
    slices::first(left, n)
}

// The tokens of aborted requests.
pub fn aborted(w: &[u64]) -> &[u64]
    ensures { result.now ≡ read_aborted w.now }
{
    let left = past_completed(w);
    let n = completion_words(word_at(w, 9) as usize, left.len());
    slices::rest(left, n)
}
