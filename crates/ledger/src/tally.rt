// How many rows are held, and how many bytes: document 01's tallies, which stop at their width's maximum.
ghost use Rattle.std.specs.Prelude.{◌≡◌, ◌+◌, ◌<◌, length};
ghost use Rattle.rows.specs.Table.{read_rows, row_at};
ghost use Rattle.ledger.specs.Tally.{saturate, held_length, held_count, held_bytes};

use rows::columns;

// The length of row i joins the total if the row is held.
fn add_held(rows: &[u64], i: usize, total: u64) -> u64
    requires { i < length (read_rows rows.now) }
    ensures { result ≡ saturate 64 (total + held_length (row_at rows.now i)) }
{
    if !columns::held_at(rows, i) {
        return total;
    }
    total.saturating_add(columns::requested_length_at(rows, i))
}

pub fn held_count(rows: &[u64]) -> u8
    ensures { result ≡ held_count 8 (read_rows rows.now) }
{
    let mut total: u64 = 0;
    for i in 0..rows::count(rows) {
        total += columns::held_word_at(rows, i);
    }
    u8::try_from(total).unwrap_or(u8::MAX)
}

pub fn held_bytes(rows: &[u64]) -> u64
    ensures { result ≡ held_bytes 64 (read_rows rows.now) }
{
    let mut total: u64 = 0;
    for i in 0..rows::count(rows) {
        total = add_held(rows, i, total);
    }
    total
}
