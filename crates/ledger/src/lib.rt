// What the Rust's `RequestLedger` does, over rows in lent words.
#![tactic(auto)]

ghost use Rattle.std.specs.Prelude.{◌≡◌, ◌<◌, length};
ghost use Rattle.chain.specs.After.{after};
ghost use Rattle.models.specs.Said.{Tabled};
ghost use Rattle.rows.specs.Store.{store_of};
ghost use Rattle.rows.specs.Table.{read_rows};
ghost use Rattle.rules.specs.Said.{change_numbers};
ghost use Rattle.ledger.specs.Apply.{changed_at, apply_of};
ghost use Rattle.ledger.specs.Said.{applied_said, apply_numbers};

use models::{Refusal, RequestId, RequestReport};
use rules::Change;

pub mod in_place; // in_place.rt: a change on the words of its row
pub mod search; // search.rt: the row of an id, the first free row, an uncertain row
pub mod tally; // tally.rt: how many rows are held, and how many bytes

// Changes row i by a rule and writes it. A refusal leaves it as it is.
pub fn change_at(rows: &mut [u64], i: usize, change: Change) -> Result<RequestReport, Refusal>
    requires { i < length (read_rows rows.old) }
    ensures step { after result (store_of rows.new) ≡ changed_at i change (store_of rows.old) }
    ensures table { Tabled (change_numbers change) (applied_said result) }
{
    let row = rows::read_row(rows, i);
    let step = rules::change_row(row, change)?;
    rows::write_row(rows, i, step.row);
    Ok(step.report)
}

// Changes the row of an id.
pub fn apply(rows: &mut [u64], id: RequestId, change: Change) -> Result<RequestReport, Refusal>
    ensures step { after result (store_of rows.new) ≡ apply_of id change (store_of rows.old) }
    ensures table { Tabled (apply_numbers change) (applied_said result) }
{
    let i = search::place(rows, id)?;
    change_at(rows, i, change)
}
