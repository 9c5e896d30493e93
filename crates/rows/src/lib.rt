// Request rows, kept as words of a slice that the caller lends.
#![tactic(auto)]

ghost use Rattle.std.specs.Prelude.{◌≡◌, ◌+◌, ◌*◌, ◌<◌, ◌≤◌, length, set};
ghost use Rattle.rows.specs.Table.{row_words, read_rows, row_at, empty_row};
ghost use Rattle.rows.specs.Store.{store_of, put_in, emptied};

use models::{RequestId, RequestMetadata, RequestState};
use words::slices;

pub mod codec; // codec.rt: a row as words, and back
pub mod columns; // columns.rt: single words of a row
pub mod in_place; // in_place.rt: a report read and a row changed by words

// How many words of a row stand in columns, how many in its record, and how many it has.
const COLUMN_WORDS: usize = 2;

const RECORD_WORDS: usize = 24;

pub const ROW_WORDS: usize = COLUMN_WORDS + RECORD_WORDS;

// The columns: of the sequences, and of the status words.
const SEQUENCE: usize = 0;

const STATUS: usize = 1;

// A row of the store: free, where `used` is false, or a request with its metadata, the backend's token, the record's own copies
// of the two flags, and its state.
#[derive(Clone, Copy)]
pub struct Row {
    pub used: bool,
    pub id: RequestId,
    pub metadata: RequestMetadata,
    pub token: u64,
    pub logical_cancel: bool,
    pub timed_out: bool,
    pub state: RequestState,
}

// How many rows the words hold.
pub fn count(rows: &[u64]) -> usize
    ensures { result ≡ length (read_rows rows.now) }
{
    rows.len() / ROW_WORDS
}

pub fn empty_row() -> Row
    ensures { result ≡ empty_row }
{
    let w = [0u64; RECORD_WORDS];
    codec::decode(0, 0, &w)
}

pub fn read_row(rows: &[u64], i: usize) -> Row
    requires { i < length (read_rows rows.now) }
    ensures { result ≡ row_at rows.now i }
{
    let sequence = columns::column(rows, i, SEQUENCE);
    let status = columns::column(rows, i, STATUS);
    let at = columns::record_at(rows, i);
    let end = at + RECORD_WORDS;
    codec::decode(sequence, status, &rows[at..end])
}

// The words of row i of n that stand in columns.
pub(crate) fn put_columns(rows: &mut [u64], n: usize, i: usize, sequence: u64, status: u64)
    requires { (i < n) × (n * row_words ≤ length rows.old) }
    ensures { rows.new ≡ set (set rows.old i sequence) (n + i) status }
{
    rows[i] = sequence;
    rows[n + i] = status;
}

pub fn write_row(rows: &mut [u64], i: usize, r: Row)
    requires { i < length (read_rows rows.old) }
    ensures { store_of rows.new ≡ put_in (store_of rows.old) i r }
{
    let n = rows.len() / ROW_WORDS;
    let at = columns::record_at(rows, i);
    let id = r.id;
    let metadata = r.metadata;
    let setup = metadata.setup;
    let state = r.state;
    let p = codec::setup_words(setup);
    let s = codec::status_words(r.used, state);
    let w = codec::encode(r, p, s);
    put_columns(rows, n, i, id.sequence, s.status);
    slices::copy(rows, at, &w, RECORD_WORDS);
}

// Every row is free.
pub fn clear_rows(rows: &mut [u64])
    ensures { store_of rows.new ≡ emptied (store_of rows.old) }
{
    let n = rows.len();
    slices::fill(rows, 0, n, 0);
}
