// Changes of a row in its encoding, each what `apply` does. The answer is the row's index, so that its report can be encoded from
// there.
ghost use Rattle.std.specs.Prelude.{◌≡◌};
ghost use Rattle.chain.specs.After.{after};
ghost use Rattle.models.specs.Said.{Tabled};
ghost use Rattle.rows.specs.Store.{store_of};
ghost use Rattle.rules.specs.declared.Change.TheVariants as Change;
ghost use Rattle.ledger.specs.InPlace.{apply_placed, placed_said};
ghost use Rattle.ledger.specs.Said.{apply_numbers};

use crate::search;
use models::{Cause, Refusal, RequestId};
use rows::{Row, columns, in_place};

// The backend took the submission. Its row is Pending; one that is not is changed by its value.
pub fn accept(rows: &mut [u64], id: RequestId, token: u64) -> Result<usize, Refusal>
    ensures step { after result (store_of rows.new) ≡ apply_placed id (Change.Accept token) (store_of rows.old) }
    ensures table { Tabled (apply_numbers (Change.Accept token)) (placed_said result) }
{
    let i = search::place(rows, id)?;
    if columns::pending_at(rows, i) {
        in_place::accept_row(rows, i, token);
        return Ok(i);
    }
    let row = rows::read_row(rows, i);
    rows::write_row(rows, i, Row { token, ..row });
    Ok(i)
}

pub fn logical_cancel(rows: &mut [u64], id: RequestId) -> Result<usize, Refusal>
    ensures step { after result (store_of rows.new) ≡ apply_placed id Change.LogicalCancel (store_of rows.old) }
    ensures table { Tabled (apply_numbers Change.LogicalCancel) (placed_said result) }
{
    let i = search::place(rows, id)?;
    if !columns::pending_at(rows, i) {
        return Err(models::refuse(Cause::NotPending));
    }
    in_place::cancel_row(rows, i);
    Ok(i)
}

pub fn timeout(rows: &mut [u64], id: RequestId) -> Result<usize, Refusal>
    ensures step { after result (store_of rows.new) ≡ apply_placed id Change.Timeout (store_of rows.old) }
    ensures table { Tabled (apply_numbers Change.Timeout) (placed_said result) }
{
    let i = search::place(rows, id)?;
    if !columns::pending_at(rows, i) {
        return Err(models::refuse(Cause::NotPending));
    }
    in_place::time_out_row(rows, i);
    Ok(i)
}

// Where the row stands that a reclaim frees. It is not freed yet: its report is read first.
pub fn reclaimable(rows: &[u64], id: RequestId) -> Result<usize, Refusal>
    ensures step { result ≡ (apply_placed id Change.Reclaim (store_of rows.now)).result }
    ensures table { Tabled (apply_numbers Change.Reclaim) (placed_said result) }
{
    let i = search::place(rows, id)?;
    if columns::held_at(rows, i) {
        return Err(models::refuse(Cause::StillHeld));
    }
    Ok(i)
}
