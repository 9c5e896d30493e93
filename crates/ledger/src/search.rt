// Searches along the columns of the rows.
ghost use Rattle.std.specs.Prelude.{◌≡◌, ◌<◌, ◌≤◌, length, take};
ghost use Rattle.chain.specs.Lists.{find, count, found_in, any_in};
ghost use Rattle.rows.specs.Table.{read_rows, row_at, is_uncertain};
ghost use Rattle.ledger.specs.Search.{is_at, is_free, has_sequence, found_before, block_start, place_to_change};

use models::{Cause, Refusal, RequestId};
use rows::columns;
use rows::columns::BLOCK;

// How many rows are read one by one before any block.
const NEAR: usize = 8;

// Whether row i has this id. Compares the sequence first and stops there if it differs.
fn holds(rows: &[u64], i: usize, id: RequestId) -> bool
    requires { i < length (read_rows rows.now) }
    ensures { result ≡ is_at id (row_at rows.now i) }
{
    columns::sequence_at(rows, i) == id.sequence
        && columns::used_at(rows, i)
        && columns::id_at(rows, i) == id
}

// The row of an id, where none before `from` has it. Rows from `to` on are not read.
fn scan(rows: &[u64], id: RequestId, from: usize, to: usize) -> Option<usize>
    requires { (from ≤ find (is_at id) (read_rows rows.now)) × (to ≤ length (read_rows rows.now)) }
    ensures { result ≡ found_before to (is_at id) (read_rows rows.now) }
{
    (from..to).find(|i| holds(rows, *i, id))
}

// How many rows before `to` have the sequence, where none before `from` has it. The loop only adds: it compiles to vector code.
fn count_sequence(rows: &[u64], sequence: u64, from: usize, to: usize) -> u64
    requires { (from ≤ find (has_sequence sequence) (read_rows rows.now))
        × (from ≤ to) × (to ≤ length (read_rows rows.now)) }
    ensures { result ≡ count (has_sequence sequence) (take to (read_rows rows.now)) }
{
    let mut total: u64 = 0;
    for i in from..to {
        total += u64::from(columns::sequence_at(rows, i) == sequence);
    }
    total
}

// Where the block starts that has the first row with the sequence.
fn block_of(rows: &[u64], sequence: u64) -> usize
    ensures { result ≡ block_start (find (has_sequence sequence) (read_rows rows.now)) }
{
    let blocks = rows::count(rows) / BLOCK;
    for block in 0..blocks {
        let at = block * BLOCK;
        if count_sequence(rows, sequence, at, at + BLOCK) != 0 {
            return at;
        }
    }
    blocks * BLOCK
}

// The row of an id. The first rows, which fill first, are read one by one.
pub fn find(rows: &[u64], id: RequestId) -> Option<usize>
    ensures { result ≡ found_in (is_at id) (read_rows rows.now) }
{
    let n = rows::count(rows);
    let near = scan(rows, id, 0, n.min(NEAR));
    if near.is_some() {
        return near;
    }
    let at = block_of(rows, id.sequence);
    scan(rows, id, at, n)
}

// `find`, for a change of the row. 40: no row has the id.
pub fn place(rows: &[u64], id: RequestId) -> Result<usize, Refusal>
    ensures { result ≡ place_to_change id (read_rows rows.now) }
{
    find(rows, id).ok_or(models::refuse(Cause::UnknownRequest))
}

// The first row without a request. The range's `find` takes eight instructions a row, this loop six inside a submission and five as a function of its own.
#[inline(never)]
pub fn first_free(rows: &[u64]) -> Option<usize>
    ensures { result ≡ found_in is_free (read_rows rows.now) }
{
    for i in 0..rows::count(rows) {
        if !columns::used_at(rows, i) {
            return Some(i);
        }
    }
    None
}

// Whether a row is Failed and not quiescent.
pub fn any_uncertain(rows: &[u64]) -> bool
    ensures { result ≡ any_in is_uncertain (read_rows rows.now) }
{
    (0..rows::count(rows)).any(|i| columns::uncertain_at(rows, i))
}
