// Single words of row i, for scans that read no more than they need.
ghost use Rattle.std.specs.Prelude.{◌≡◌, ◌+◌, ◌<◌, ◌≤◌, cond, length};
ghost use Rattle.rows.specs.Table.{column_words, record_words, row_count, record_at, word_at, read_rows, row_at, id_in, token_in, is_held, is_uncertain, is_pending_row};

use crate::codec::PENDING;
use crate::{COLUMN_WORDS, RECORD_WORDS, ROW_WORDS, SEQUENCE, STATUS};
use models::{DeviceId, RequestId};

// Words of a record.
const SESSION: usize = 0;

const GENERATION: usize = 1;

const DEVICE_SESSION: usize = 2;

const DEVICE_GENERATION: usize = 3;

const SLOT: usize = 4;

const ENDPOINT: usize = 5;

const REQUESTED_LENGTH: usize = 8;

const TOKEN: usize = 15;

// How many rows a scan passes at once, where none of them has what it looks for.
pub const BLOCK: usize = 64;

// Where the record of row i starts.
pub(crate) fn record_at(rows: &[u64], i: usize) -> usize
    requires { i < length (read_rows rows.now) }
    ensures { (result ≡ record_at (row_count rows.now) i)
        × (result + record_words ≤ length rows.now) }
{
    let n = rows.len() / ROW_WORDS;
    n * COLUMN_WORDS + i * RECORD_WORDS
}

// Word k of row i, one of the two that stand in columns.
pub(crate) fn column(rows: &[u64], i: usize, k: usize) -> u64
    requires { (i < length (read_rows rows.now)) × (k < column_words) }
    ensures { result ≡ word_at rows.now i k }
{
    let n = rows.len() / ROW_WORDS;
    rows[n * k + i]
}

// Word k of the record of row i.
pub(crate) fn field(rows: &[u64], i: usize, k: usize) -> u64
    requires { (i < length (read_rows rows.now)) × (k < record_words) }
    ensures { result ≡ word_at rows.now i (column_words + k) }
{
    let at = record_at(rows, i);
    rows[at + k]
}

pub fn sequence_at(rows: &[u64], i: usize) -> u64
    requires { i < length (read_rows rows.now) }
    ensures { result ≡ (row_at rows.now i).id.sequence }
{
    column(rows, i, SEQUENCE)
}

pub fn id_at(rows: &[u64], i: usize) -> RequestId
    requires { i < length (read_rows rows.now) }
    ensures { result ≡ (row_at rows.now i).id }
{
    RequestId {
        session: field(rows, i, SESSION),
        generation: field(rows, i, GENERATION),
        sequence: sequence_at(rows, i),
    }
}

// The id of row i; that of the free row, where there is no row i.
pub fn id_in(rows: &[u64], i: usize) -> RequestId
    ensures { result ≡ id_in (read_rows rows.now) i }
{
    if i < crate::count(rows) {
        return id_at(rows, i);
    }
    RequestId::default()
}

pub fn device_at(rows: &[u64], i: usize) -> DeviceId
    requires { i < length (read_rows rows.now) }
    ensures { result ≡ (row_at rows.now i).metadata.device }
{
    DeviceId {
        session: field(rows, i, DEVICE_SESSION),
        generation: field(rows, i, DEVICE_GENERATION),
        slot: (field(rows, i, SLOT) % 256) as u8,
    }
}

pub fn endpoint_at(rows: &[u64], i: usize) -> u8
    requires { i < length (read_rows rows.now) }
    ensures { result ≡ (row_at rows.now i).metadata.endpoint }
{
    (field(rows, i, ENDPOINT) % 256) as u8
}

pub fn used_at(rows: &[u64], i: usize) -> bool
    requires { i < length (read_rows rows.now) }
    ensures { result ≡ (row_at rows.now i).used }
{
    words::to_flag(column(rows, i, STATUS))
}

pub fn requested_length_at(rows: &[u64], i: usize) -> u64
    requires { i < length (read_rows rows.now) }
    ensures { result ≡ (row_at rows.now i).metadata.requested_length }
{
    field(rows, i, REQUESTED_LENGTH)
}

pub fn token_at(rows: &[u64], i: usize) -> u64
    requires { i < length (read_rows rows.now) }
    ensures { result ≡ (row_at rows.now i).token }
{
    field(rows, i, TOKEN)
}

// The token of row i; 0, where there is no row i.
pub fn token_in(rows: &[u64], i: usize) -> u64
    ensures { result ≡ token_in (read_rows rows.now) i }
{
    if i < crate::count(rows) {
        return token_at(rows, i);
    }
    0
}

// The row is Failed and not quiescent.
pub fn uncertain_at(rows: &[u64], i: usize) -> bool
    requires { i < length (read_rows rows.now) }
    ensures { result ≡ is_uncertain (row_at rows.now i) }
{
    let status = column(rows, i, STATUS);
    (status % 2 == 1) & (status != PENDING)
}

// The row is a request that is Pending.
pub fn pending_at(rows: &[u64], i: usize) -> bool
    requires { i < length (read_rows rows.now) }
    ensures { result ≡ is_pending_row (row_at rows.now i) }
{
    column(rows, i, STATUS) == PENDING
}

// The controller may still write to the row's bytes.
pub fn held_at(rows: &[u64], i: usize) -> bool
    requires { i < length (read_rows rows.now) }
    ensures { result ≡ is_held (row_at rows.now i) }
{
    let status = column(rows, i, STATUS);
    status % 2 == 1
}

// 1 where the row is held, else 0.
pub fn held_word_at(rows: &[u64], i: usize) -> u64
    requires { i < length (read_rows rows.now) }
    ensures { (result ≡ cond (is_held (row_at rows.now i)) 1 0) × (result < 2) }
{
    let status = column(rows, i, STATUS);
    status % 2
}
