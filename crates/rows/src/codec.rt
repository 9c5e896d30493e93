// A row as words: two that stand in columns (sequence, status), and a record. Each value takes one word a field.
ghost use Rattle.std.specs.Prelude.{◌≡◌, ◌∷◌, cond, eqb, length};
ghost use Rattle.words.specs.Words.{read_flag, read_option_u32};
ghost use Rattle.models.specs.Values.{setup_words, read_error_words};
ghost use Rattle.rows.specs.Codec.{read_setup_words, setup_in, read_metadata, read_state_words, short_words, failed_words, state_words, kind_word, state_by_kind, kind_by, state_in, row_status_words, status_words, read_row, record_of};
ghost use Rattle.rows.specs.Table.{record_words};
ghost use Rattle.models.specs.declared.RequestState.TheVariants as RequestState;

use crate::{RECORD_WORDS, Row};
use models::{
    DeviceId, Direction, OperationError, RequestId, RequestMetadata, RequestState, SetupPacket,
    SetupWords, TransferType, values,
};

// The kinds of a row's state: odd, where the row is held.
pub(crate) const PENDING: u64 = 1;

const COMPLETED: u64 = 2;

const UNCERTAIN: u64 = 3;

const QUIESCENT: u64 = 4;

const ABORTED: u64 = 6;

// The words of a report's state. What a to f hold depends on the tag.
#[derive(Clone, Copy)]
pub struct StateWords {
    pub tag: u64,
    pub a: u64,
    pub b: u64,
    pub c: u64,
    pub d: u64,
    pub e: u64,
    pub f: u64,
}

// The words of a row's state with its status: 0 where the row is free, else the kind. `rest` is what a free row keeps of the kind; what a to f
// hold depends on the kind.
#[derive(Clone, Copy)]
pub struct StatusWords {
    pub status: u64,
    pub rest: u64,
    pub a: u64,
    pub b: u64,
    pub d: u64,
    pub e: u64,
    pub f: u64,
}

pub fn setup_words(o: Option<SetupPacket>) -> SetupWords
    ensures { (setup_in result ≡ o) × (result ≡ setup_words o) }
{
    match o {
        None => SetupWords {
            present: 0,
            request_type: 0,
            request: 0,
            value: 0,
            index: 0,
            length: 0,
        },
        Some(p) => SetupWords {
            present: 1,
            request_type: p.request_type as u64,
            request: p.request as u64,
            value: p.value as u64,
            index: p.index as u64,
            length: p.length as u64,
        },
    }
}

pub fn to_setup(
    present: u64,
    request_type: u64,
    request: u64,
    value: u64,
    index: u64,
    length: u64,
) -> Option<SetupPacket>
    ensures { result ≡ read_setup_words present request_type request value index length }
{
    if present == 0 {
        return None;
    }
    Some(SetupPacket {
        request_type: (request_type % 256) as u8,
        request: (request % 256) as u8,
        value: (value % 65536) as u16,
        index: (index % 65536) as u16,
        length: (length % 65536) as u16,
    })
}

// The metadata that the words of a record from its third on say.
fn to_metadata(w: &[u64]) -> RequestMetadata
    requires { length w.now ≡ 13 }
    ensures { result ≡ read_metadata w.now }
{
    let device = DeviceId {
        session: w[0],
        generation: w[1],
        slot: (w[2] % 256) as u8,
    };
    let setup = to_setup(w[7], w[8], w[9], w[10], w[11], w[12]);
    RequestMetadata {
        device,
        endpoint: (w[3] % 256) as u8,
        transfer_type: TransferType::from(w[4]),
        direction: Direction::from(w[5]),
        requested_length: w[6],
        setup,
    }
}

// Of a state that needs three words beside its tag.
fn short_words(tag: u64, a: u64, b: u64, c: u64) -> StateWords
    ensures { result ≡ short_words tag a b c }
{
    StateWords {
        tag,
        a,
        b,
        c,
        d: 0,
        e: 0,
        f: 0,
    }
}

fn failed_words(error: OperationError, code: Option<u32>, quiescent: bool) -> StateWords
    ensures { (read_state_words result ≡ RequestState.Failed error code quiescent)
        × (result ≡ failed_words error code quiescent) }
{
    let category = error.category;
    let os_code = error.os_code;
    let inner = error.completion_code;
    StateWords {
        tag: 2,
        a: u64::from(category),
        b: error.message as u64,
        c: words::flag_word(quiescent),
        d: words::option_i32_word(os_code),
        e: words::option_u32_word(inner),
        f: words::option_u32_word(code),
    }
}

pub fn state_words(s: RequestState) -> StateWords
    ensures { (read_state_words result ≡ s) × (result ≡ state_words s) }
{
    match s {
        RequestState::Pending {
            logical_cancel,
            timed_out,
        } => short_words(
            0,
            words::flag_word(logical_cancel),
            words::flag_word(timed_out),
            0,
        ),
        RequestState::Completed {
            actual_length,
            completion_code,
            logical_cancel,
        } => short_words(
            1,
            actual_length,
            completion_code as u64,
            words::flag_word(logical_cancel),
        ),
        RequestState::Failed {
            error,
            completion_code,
            quiescent,
        } => failed_words(error, completion_code, quiescent),
        RequestState::Aborted => short_words(3, 0, 0, 0),
    }
}

fn failed_kind(quiescent: bool) -> u64
    ensures { result ≡ cond quiescent 4 3 }
{
    if quiescent { QUIESCENT } else { UNCERTAIN }
}

fn kind_word(s: RequestState) -> u64
    ensures { result ≡ kind_word s }
{
    match s {
        RequestState::Pending {
            logical_cancel: _,
            timed_out: _,
        } => PENDING,
        RequestState::Completed {
            actual_length: _,
            completion_code: _,
            logical_cancel: _,
        } => COMPLETED,
        RequestState::Failed {
            error: _,
            completion_code: _,
            quiescent,
        } => failed_kind(quiescent),
        RequestState::Aborted => ABORTED,
    }
}

fn to_failed(a: u64, b: u64, d: u64, e: u64, f: u64, quiescent: bool) -> RequestState
    ensures { result ≡ RequestState.Failed (read_error_words a b d e) (read_option_u32 f) quiescent }
{
    RequestState::Failed {
        error: values::to_error(a, b, d, e),
        completion_code: words::to_option_u32(f),
        quiescent,
    }
}

pub(crate) fn to_state(kind: u64, a: u64, b: u64, d: u64, e: u64, f: u64) -> RequestState
    ensures { result ≡ state_by_kind kind a b d e f }
{
    if kind < COMPLETED {
        return RequestState::Pending {
            logical_cancel: words::to_flag(a),
            timed_out: words::to_flag(b),
        };
    }
    if kind == COMPLETED {
        return RequestState::Completed {
            actual_length: a,
            completion_code: (b % 4294967296) as u32,
            logical_cancel: words::to_flag(d),
        };
    }
    if kind % 2 == 1 {
        return to_failed(a, b, d, e, f, false);
    }
    if kind == QUIESCENT {
        return to_failed(a, b, d, e, f, true);
    }
    RequestState::Aborted
}

// What a free row keeps of the kind of its state.
fn rest_of(kind: u64) -> u64
    ensures { result ≡ cond (eqb kind 1) 0 kind }
{
    if kind == PENDING {
        return 0;
    }
    kind
}

// The fourth word of a row's state.
fn fourth(kind: u64, c: u64, d: u64) -> u64
    ensures { result ≡ cond (eqb kind 2) c d }
{
    if kind == COMPLETED {
        return c;
    }
    d
}

fn status_by(used: bool, kind: u64, w: StateWords) -> StatusWords
    ensures { result ≡ row_status_words used kind w }
{
    let d = fourth(kind, w.c, w.d);
    if used {
        return StatusWords {
            status: kind,
            rest: 0,
            a: w.a,
            b: w.b,
            d,
            e: w.e,
            f: w.f,
        };
    }
    StatusWords {
        status: 0,
        rest: rest_of(kind),
        a: w.a,
        b: w.b,
        d,
        e: w.e,
        f: w.f,
    }
}

pub(crate) fn status_words(used: bool, s: RequestState) -> StatusWords
    ensures { (read_flag result.status ≡ used) × (state_in result ≡ s) × (result ≡ status_words used s) }
{
    let w = state_words(s);
    let kind = kind_word(s);
    status_by(used, kind, w)
}

pub(crate) fn kind_by(status: u64, rest: u64) -> u64
    ensures { result ≡ kind_by status rest }
{
    if status == 0 {
        return rest;
    }
    status
}

// The row that its two column words and its record say.
pub(crate) fn decode(sequence: u64, status: u64, w: &[u64]) -> Row
    requires { length w.now ≡ record_words }
    ensures { result ≡ read_row (sequence ∷ status ∷ w.now) }
{
    let id = RequestId {
        session: w[0],
        generation: w[1],
        sequence,
    };
    let metadata = to_metadata(&w[2..15]);
    let kind = kind_by(status, w[20]);
    let state = to_state(kind, w[18], w[19], w[21], w[22], w[23]);
    Row {
        used: words::to_flag(status),
        id,
        metadata,
        token: w[15],
        logical_cancel: words::to_flag(w[16]),
        timed_out: words::to_flag(w[17]),
        state,
    }
}

// The record of a row whose SETUP has the words p and whose state the words s.
pub(crate) fn encode(r: Row, p: SetupWords, s: StatusWords) -> [u64; RECORD_WORDS]
    requires { (setup_in p ≡ r.metadata.setup) × (p ≡ setup_words r.metadata.setup)
        × (read_flag s.status ≡ r.used) × (state_in s ≡ r.state) × (s ≡ status_words r.used r.state) }
    ensures { (read_row (r.id.sequence ∷ s.status ∷ result) ≡ r) × (result ≡ record_of r) }
{
    let m = r.metadata;
    let transfer_type = m.transfer_type;
    let direction = m.direction;
    [
        r.id.session,
        r.id.generation,
        m.device.session,
        m.device.generation,
        m.device.slot as u64,
        m.endpoint as u64,
        u64::from(transfer_type),
        u64::from(direction),
        m.requested_length,
        p.present,
        p.request_type,
        p.request,
        p.value,
        p.index,
        p.length,
        r.token,
        words::flag_word(r.logical_cancel),
        words::flag_word(r.timed_out),
        s.a,
        s.b,
        s.rest,
        s.d,
        s.e,
        s.f,
    ]
}
