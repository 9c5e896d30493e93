// Reports, completed bytes and tallies. All are allowed while something is in flight; a submission in flight has no report yet.
ghost use Rattle.std.specs.Prelude.{◌≡◌, ◌↔◌, length, cond, ◌<◌, IfSome, Some, None, Err, IsOk, IfOk, IfErr};
ghost use Rattle.chain.specs.Lists.{count};
ghost use Rattle.rows.specs.Table.{read_rows, row_in};
ghost use Rattle.reports.specs.Status.{is_submitting, shown_at, status_of, is_shown, comes_after, beats, report_at, is_better, best_from, next_of, shown_count, completed_length, completed_part, bytes_of, held_count_of, tally_of, held_bytes_of};
ghost use Rattle.models.specs.Said.{Tabled};
ghost use Rattle.reports.specs.Said.{report_said, next_said, tally_said, part_said, status_numbers, tally_numbers};
ghost use Rattle.rows.specs.Store.{store_of};

use crate::Part;
use ledger::{search, tally};
use models::{Cause, Refusal, RequestId, RequestReport, RequestState};
use rows::columns;
use session::{InFlight, Session, sizes, start};

// The id's submission is in flight.
pub(crate) fn is_submitting(flight: InFlight, id: RequestId) -> bool
    ensures { result ≡ is_submitting flight id }
{
    match flight {
        InFlight::Submission(own) => own == id,
        _ => false,
    }
}

// The row of an id that has a report.
fn find_shown(rows: &[u64], flight: InFlight, id: RequestId) -> Option<usize>
    ensures { result ≡ shown_at flight id (read_rows rows.now) }
{
    if is_submitting(flight, id) {
        return None;
    }
    search::find(rows, id)
}

// Refuses by 3 if the rows have not the session's size, as all here do; by 40 if no row has the id or its submission is in flight.
pub fn request_status(
    session: Session,
    rows: &[u64],
    id: RequestId,
) -> Result<RequestReport, Refusal>
    ensures step { result ≡ status_of id session (store_of rows.now) }
    ensures table { Tabled status_numbers (report_said result) }
{
    start::rows_sized(session, rows.len())?;
    let found = find_shown(rows, session.in_flight, id);
    let row = rows::read_row(rows, found.ok_or(models::refuse(Cause::UnknownRequest))?);
    Ok(rules::report_of(row))
}

// Row i is a request that has a report. Of a free row no id is read.
pub(crate) fn is_shown(rows: &[u64], i: usize, flight: InFlight) -> bool
    requires { i < length (read_rows rows.now) }
    ensures { result ≡ is_shown flight (row_in (read_rows rows.now) i) }
{
    if !columns::used_at(rows, i) {
        return false;
    }
    let id = columns::id_at(rows, i);
    let submitting = is_submitting(flight, id);
    !submitting
}

fn comes_after(after: Option<RequestId>, id: RequestId) -> bool
    ensures { result ≡ comes_after after id }
{
    match after {
        None => true,
        Some(own) => own < id,
    }
}

fn beats_best(rows: &[u64], best: Option<usize>, id: RequestId) -> bool
    ensures { result ≡ beats (report_at best (read_rows rows.now)) id }
{
    match best {
        Some(i) => {
            let own = columns::id_in(rows, i);
            id < own
        }
        None => true,
    }
}

// The earlier by id of the best row so far and row i.
fn earlier_of(rows: &[u64], best: Option<usize>, i: usize) -> Option<usize>
    requires { i < length (read_rows rows.now) }
    ensures { result ≡ cond (beats (report_at best (read_rows rows.now)) (row_in (read_rows rows.now) i).id) (Some i) best }
{
    if beats_best(rows, best, columns::id_at(rows, i)) {
        return Some(i);
    }
    best
}

// Row i has a report, and its id comes after the one that is given, if one is.
fn is_shown_after(rows: &[u64], i: usize, flight: InFlight, after: Option<RequestId>) -> bool
    requires { i < length (read_rows rows.now) }
    ensures { result ≡ is_better flight after None (row_in (read_rows rows.now) i) }
{
    is_shown(rows, i, flight) && comes_after(after, columns::id_at(rows, i))
}

// The report with the least id, or the least after an id. The row of a submission in flight is left out.
pub fn request_reports(
    session: Session,
    rows: &[u64],
    after: Option<RequestId>,
) -> Result<Option<RequestReport>, Refusal>
    ensures step { result ≡ next_of after session (store_of rows.now) }
    ensures table { Tabled tally_numbers (next_said result) }
{
    start::rows_sized(session, rows.len())?;
    Ok(best_of(rows, session.in_flight, after))
}

// The place of the best report. The filter skips free rows in a loop of its own: a `for` that hands the `Option` on takes half as long again where most
// rows are free.
fn best_place(rows: &[u64], flight: InFlight, after: Option<RequestId>) -> Option<usize>
    ensures inside { IfSome result (λ i. i < length (read_rows rows.now)) }
    ensures best { report_at result (read_rows rows.now) ≡ best_from flight after None (read_rows rows.now) }
{
    (0..rows::count(rows))
        .filter(|i| is_shown_after(rows, *i, flight, after))
        .fold(None, |best, i| earlier_of(rows, best, i))
}

// The best is kept by its place, and read whole at the end.
fn best_of(rows: &[u64], flight: InFlight, after: Option<RequestId>) -> Option<RequestReport>
    ensures { result ≡ best_from flight after None (read_rows rows.now) }
{
    let row = rows::read_row(rows, best_place(rows, flight, after)?);
    Some(rules::report_of(row))
}

fn count_shown(rows: &[u64], flight: InFlight) -> u64
    ensures { result ≡ count (is_shown flight) (read_rows rows.now) }
{
    let mut total: u64 = 0;
    for i in 0..rows::count(rows) {
        total += u64::from(is_shown(rows, i, flight));
    }
    total
}

// How many requests have a report.
pub fn count_reports(session: Session, rows: &[u64]) -> Result<u64, Refusal>
    ensures step { result ≡ shown_count session (store_of rows.now) }
    ensures table { Tabled tally_numbers (tally_said result) }
{
    start::rows_sized(session, rows.len())?;
    Ok(count_shown(rows, session.in_flight))
}

fn completed_length(state: RequestState) -> u64
    ensures { result ≡ completed_length state }
{
    match state {
        RequestState::Pending { .. } => 0,
        RequestState::Completed { actual_length, .. } => actual_length,
        RequestState::Failed { .. } => 0,
        RequestState::Aborted => 0,
    }
}

// Where the bytes of a request stand that is Completed now; an empty part of any other. Refuses by 40 as `request_status`.
pub fn completed_part(
    session: Session,
    rows: &[u64],
    bytes: usize,
    id: RequestId,
) -> Result<Part, Refusal>
    ensures step { result ≡ completed_part id bytes session (store_of rows.now) }
    ensures table { Tabled status_numbers (part_said result) }
{
    start::memory_sized(session, rows.len(), bytes)?;
    let found = find_shown(rows, session.in_flight, id);
    let i = found.ok_or(models::refuse(Cause::UnknownRequest))?;
    let row = rows::read_row(rows, i);
    let place = sizes::place_of(session.size, i);
    Ok(Part {
        start: place.start as u64,
        length: completed_length(row.state).min(session.size.row_bytes),
    })
}

// The bytes as a part of the area. Refuses as `completed_part`.
pub fn completed_bytes<'a>(
    session: Session,
    rows: &[u64],
    area: &'a [u8],
    id: RequestId,
) -> Result<&'a [u8], Refusal>
    ensures bytes { IfOk result (λ bytes. bytes.now
        ≡ bytes_of (completed_part id (length area.now) session (store_of rows.now)) area.now) }
    ensures refusal { IfErr result (λ refusal. completed_part id (length area.now) session (store_of rows.now) ≡ Err refusal) }
    ensures passes { IsOk result ↔ IsOk (completed_part id (length area.now) session (store_of rows.now)) }
{
    let part = completed_part(session, rows, area.len(), id)?;
    let at = part.start as usize;
    let end = at + part.length as usize;
    Ok(&area[at..end])
}

// How many rows the device holds.
pub fn held_count(session: Session, rows: &[u64]) -> Result<u8, Refusal>
    ensures step { result ≡ held_count_of session (store_of rows.now) }
    ensures table { Tabled tally_numbers (tally_said (tally_of result)) }
{
    start::rows_sized(session, rows.len())?;
    Ok(tally::held_count(rows))
}

// The held count as any number of the store's.
pub fn tally_of(answer: Result<u8, Refusal>) -> Result<u64, Refusal>
    ensures { result ≡ tally_of answer }
{
    answer.map(u64::from)
}

// The sum of their requested lengths.
pub fn held_bytes(session: Session, rows: &[u64]) -> Result<u64, Refusal>
    ensures step { result ≡ held_bytes_of session (store_of rows.now) }
    ensures table { Tabled tally_numbers (tally_said result) }
{
    start::rows_sized(session, rows.len())?;
    Ok(tally::held_bytes(rows))
}
