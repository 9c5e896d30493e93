// The entries of a reply, applied one after the other to the rows at their places.
ghost use Rattle.std.specs.Prelude.{◌≡◌, ◌+◌, ◌<◌, ◌≤◌, ◌++◌, map, length, take};
ghost use Rattle.chain.specs.After.{after};
ghost use Rattle.chain.specs.Lists.{listed};
ghost use Rattle.rows.specs.Table.{read_rows};
ghost use Rattle.scope.specs.Returned.{read_returned};
ghost use Rattle.scope.specs.Scope.{Rises, meant};
ghost use Rattle.rules.specs.declared.Change.TheVariants as Change;
ghost use Rattle.ledger.specs.Apply.{changed_at};
ghost use Rattle.session.specs.Lent.{memory_of};
ghost use Rattle.recovery.specs.Entries.{row_completed_by, complete_one, abort_one, itself, complete_all, abort_all};
ghost use Rattle.recovery.specs.Places.{Below, Fit, Places, Agree};
ghost use Rattle.rows.specs.Store.{store_of};

use checks::completion;
use checks::completion::CompletionFault;
use models::{BackendCompletion, Cause, Refusal};
use rules::Change;
use scope::returned::Brought;
use scope::{returned, tokens};
use session::{Size, sizes};

// The one place where a completion changes rows and area. Refuses by 41 if the row is Failed.
fn complete_row(
    rows: &mut [u64],
    area: &mut [u8],
    size: Size,
    i: usize,
    actual: u64,
    code: u32,
    bytes: &[u8],
) -> Result<(), Refusal>
    requires { Fit size rows.old area.old × (i < length (read_rows rows.old)) }
    ensures { after result (memory_of rows.new area.new)
        ≡ row_completed_by (changed_at i (Change.Complete actual code) (store_of rows.old)) size i bytes.now area.old }
{
    ledger::change_at(rows, i, Change::Complete(actual, code))?;
    sizes::put_data(area, size, i, bytes);
    Ok(())
}

// Refuses by 47 if the completion has no length, by 48 if it is not valid, by 41 if the row is Failed.
fn complete_one(
    rows: &mut [u64],
    area: &mut [u8],
    size: Size,
    i: usize,
    completion: BackendCompletion,
    bytes: &[u8],
) -> Result<(), Refusal>
    requires { Fit size rows.old area.old × (i < length (read_rows rows.old)) }
    ensures { after result (memory_of rows.new area.new)
        ≡ complete_one size i completion bytes.now (memory_of rows.old area.old) }
{
    let row = rows::read_row(rows, i);
    let metadata = row.metadata;
    let code = completion.completion_code;
    let test = completion::test_completion(
        completion,
        bytes.len() as u64,
        metadata.requested_length,
    );
    match test {
        Err(CompletionFault::MissingLength) => Err(models::refuse(Cause::MissingLength)),
        Err(CompletionFault::Invalid) => Err(models::refuse_completion(code)),
        Ok(valid) => complete_row(
            rows,
            area,
            size,
            i,
            valid.actual_length,
            valid.completion_code,
            bytes,
        ),
    }
}

// The place of the row that a token means, looked for first at `near`.
fn place_of(affected: &[usize], own: &[u64], rising: bool, near: usize, token: u64) -> usize
    requires { Rises rising own.now }
    ensures { result ≡ meant affected.now own.now token }
{
    let j = tokens::slot_near(own, rising, near, token);
    affected.get(j).copied().unwrap_or(0)
}

// The places of the rows that the tokens mean: the completed ones, then the aborted ones; what is left is 0.
pub(crate) fn places_of(
    affected: &[usize],
    own: &[u64],
    tokens: &[u64],
    aborted: &[u64],
) -> [usize; 128]
    requires { length tokens.now + length aborted.now ≤ 128 }
    ensures { result ≡ listed 128 0 (map (meant affected.now own.now)
        (tokens.now ++ aborted.now)) }
{
    let rising = tokens::rises(own);
    let mut places = [0usize; 128];
    for k in 0..tokens.len() + aborted.len() {
        let token = tokens::returned_at(tokens, aborted, k);
        places[k] = place_of(affected, own, rising, k, token);
    }
    places
}

// The completion of row i; its data is the first of the bytes that are left.
fn complete_next(
    rows: &mut [u64],
    area: &mut [u8],
    size: Size,
    i: usize,
    brought: Brought,
    left: &[u8],
) -> Result<(), Refusal>
    requires { Fit size rows.old area.old × (i < length (read_rows rows.old))
        × (brought.given ≤ length left.now) }
    ensures { after result (memory_of rows.new area.new)
        ≡ complete_one size i brought.completion (take brought.given left.now) (memory_of rows.old area.old) }
{
    let completion = brought.completion;
    let end = brought.given as usize;
    complete_one(rows, area, size, i, completion, &left[..end])
}

// The completions of the rows at the places, in order, each with the next bytes of the data area.
pub(crate) fn complete_all(
    rows: &mut [u64],
    area: &mut [u8],
    size: Size,
    places: &[usize],
    completions: &[u64],
    bytes: &[u8],
) -> Result<(), Refusal>
    requires { Places size rows.old area.old places.now × Agree places.now completions.now bytes.now }
    ensures { after result (memory_of rows.new area.new)
        ≡ complete_all size itself (read_returned places.now completions.now) bytes.now
        (memory_of rows.old area.old) }
{
    let mut at = 0;
    for k in 0..places.len() {
        let brought = returned::brought_at(completions, k);
        let end = at + brought.given as usize;
        complete_next(rows, area, size, places[k], brought, &bytes[at..])?;
        at = end;
    }
    Ok(())
}

fn abort_one(rows: &mut [u64], i: usize) -> Result<(), Refusal>
    requires { i < length (read_rows rows.old) }
    ensures { after result (store_of rows.new) ≡ abort_one i (store_of rows.old) }
{
    ledger::change_at(rows, i, Change::ConfirmAbort)?;
    Ok(())
}

// The aborts of the rows at the places, in order.
pub(crate) fn abort_all(rows: &mut [u64], places: &[usize]) -> Result<(), Refusal>
    requires { Below rows.old places.now }
    ensures { after result (store_of rows.new) ≡ abort_all itself places.now (store_of rows.old) }
{
    for i in places {
        abort_one(rows, *i)?;
    }
    Ok(())
}
