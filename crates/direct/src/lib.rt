// The calls on one request that C makes most, in place: they read and write words, and carry no session, row or report by value. Each
// leaves what the plain call leaves.
#![tactic(auto)]

ghost use Rattle.std.specs.Prelude.{true, false, ◌≡◌, ◌<◌, length};
ghost use Rattle.chain.specs.After.{after};
ghost use Rattle.models.specs.Causes.{number_of};
ghost use Rattle.models.specs.Refusals.{refusal_of};
ghost use Rattle.rows.specs.Table.{read_rows, row_at, report_of};
ghost use Rattle.rules.specs.declared.Change.TheVariants as Change;
ghost use Rattle.ledger.specs.InPlace.{reported_at, freed_at, PlacedIn};
ghost use Rattle.session.specs.Session.{is_busy};
ghost use Rattle.session.specs.Sizes.{rows_fit};
ghost use Rattle.session.specs.Start.{ready_of};
ghost use Rattle.polls.specs.Poll.{poll_row, poll_of};
ghost use Rattle.reports.specs.Change.{change_of};
ghost use Rattle.reports.specs.Status.{is_submitting, shown_at, status_of};
ghost use Rattle.session_words.specs.State.{read_session, is_session, kept_of};
ghost use Rattle.calls.specs.Answers.{of_report};
ghost use Rattle.calls.specs.declared.Answer.TheVariants as Answer;
ghost use Rattle.direct.specs.Direct.{told, of_applied, applied_told, reported_told, polled_told};
ghost use Rattle.rows.specs.Store.{store_of};

use answer_words::encode;
use calls::Answer;
use ledger::{in_place, search};
use models::{Cause, Refusal, RequestId};
use rows::columns;
use session::sizes;
use session_words::fields;

pub mod replies; // replies.rt: the replies to a poll and to a submission

fn refuse(out: &mut [u64], refusal: Refusal)
    ensures { out.new ≡ told (Answer.Refused refusal) out.old }
{
    encode::write_answer(out, Answer::Refused(refusal));
}

fn refuse_by(out: &mut [u64], cause: Cause)
    ensures { out.new ≡ told (Answer.Refused (refusal_of (number_of cause))) out.old }
{
    refuse(out, models::refuse(cause))
}

// The report of row i.
fn report(rows: &[u64], i: usize, out: &mut [u64])
    requires { i < length (read_rows rows.now) }
    ensures { out.new ≡ told (Answer.Report (report_of (row_at rows.now i))) out.old }
{
    let values = rows::in_place::report_values(rows, i);
    encode::put_report(out, &values);
}

fn rows_fit(session: &[u64], words: usize) -> bool
    ensures { result ≡ rows_fit (read_session session.now).size words }
{
    let size = fields::size(session);
    sizes::rows_fit(size, words)
}

// Refuses by 1 while an operation waits for its reply, by 3 if the rows have not the session's size.
fn rows_ready(session: &[u64], words: usize) -> Result<(), Refusal>
    ensures { result ≡ ready_of (read_session session.now) (rows_fit (read_session session.now).size words) }
{
    if fields::is_busy(session) {
        return Err(models::refuse(Cause::OperationInFlight));
    }
    if !rows_fit(session, words) {
        return Err(models::refuse(Cause::WrongSize));
    }
    Ok(())
}

// The id's submission is in flight.
fn is_submitting(session: &[u64], id: RequestId) -> bool
    ensures { result ≡ is_submitting (read_session session.now).in_flight id }
{
    if !fields::is_submitting(session) {
        return false;
    }
    let own = fields::flight_id(session);
    own == id
}

// The row of an id that has a report.
fn find_shown(session: &[u64], rows: &[u64], id: RequestId) -> Option<usize>
    ensures { result ≡ shown_at (read_session session.now).in_flight id (read_rows rows.now) }
{
    if is_submitting(session, id) {
        return None;
    }
    search::find(rows, id)
}

pub fn request_status(session: &[u64], rows: &[u64], id: RequestId, out: &mut [u64])
    ensures { out.new
        ≡ told (of_report (status_of id (read_session session.now) (store_of rows.now))) out.old }
{
    if !rows_fit(session, rows.len()) {
        return refuse_by(out, Cause::WrongSize);
    }
    let found = find_shown(session, rows, id);
    let Some(i) = found else {
        return refuse_by(out, Cause::UnknownRequest);
    };
    report(rows, i, out)
}

// What a change answers, with the report of the row as it stands.
fn answer_placed(rows: &[u64], placed: Result<usize, Refusal>, out: &mut [u64])
    requires { PlacedIn placed (read_rows rows.now) }
    ensures { out.new ≡ told (of_applied (reported_at placed (read_rows rows.now))) out.old }
{
    match placed {
        Err(refusal) => refuse(out, refusal),
        Ok(i) => report(rows, i, out),
    }
}

pub fn logical_cancel_request(session: &[u64], rows: &mut [u64], id: RequestId, out: &mut [u64])
    ensures { after out.new (store_of rows.new)
        ≡ reported_told (change_of id Change.LogicalCancel (read_session session.now) (store_of rows.old)) out.old }
{
    let verdict = rows_ready(session, rows.len());
    match verdict {
        Err(refusal) => refuse(out, refusal),
        Ok(()) => {
            let placed = in_place::logical_cancel(rows, id);
            answer_placed(rows, placed, out)
        }
    }
}

pub fn timeout_request(session: &[u64], rows: &mut [u64], id: RequestId, out: &mut [u64])
    ensures { after out.new (store_of rows.new)
        ≡ reported_told (change_of id Change.Timeout (read_session session.now) (store_of rows.old)) out.old }
{
    let verdict = rows_ready(session, rows.len());
    match verdict {
        Err(refusal) => refuse(out, refusal),
        Ok(()) => {
            let placed = in_place::timeout(rows, id);
            answer_placed(rows, placed, out)
        }
    }
}

// The row is reported before it is freed.
fn free_placed(rows: &mut [u64], placed: Result<usize, Refusal>, out: &mut [u64])
    requires { PlacedIn placed (read_rows rows.old) }
    ensures { after out.new (store_of rows.new)
        ≡ applied_told (freed_at placed (store_of rows.old)) out.old }
{
    match placed {
        Err(refusal) => refuse(out, refusal),
        Ok(i) => {
            report(rows, i, out);
            rows::in_place::free_row(rows, i)
        }
    }
}

pub fn reclaim_request(session: &[u64], rows: &mut [u64], id: RequestId, out: &mut [u64])
    ensures { after out.new (store_of rows.new)
        ≡ reported_told (change_of id Change.Reclaim (read_session session.now) (store_of rows.old)) out.old }
{
    let verdict = rows_ready(session, rows.len());
    match verdict {
        Err(refusal) => refuse(out, refusal),
        Ok(()) => {
            let placed = in_place::reclaimable(rows, id);
            free_placed(rows, placed, out)
        }
    }
}

// Row i has the id, and nothing is in flight.
fn poll_row(session: &mut [u64], rows: &[u64], i: usize, id: RequestId, out: &mut [u64])
    requires { (is_session session.old ≡ true) × (is_busy (read_session session.old).in_flight ≡ false)
        × (i < length (read_rows rows.now)) × ((row_at rows.now i).used ≡ true) }
    ensures { after out.new (kept_of session.new)
        ≡ polled_told (poll_row (row_at rows.now i) id (read_session session.old)) session.old out.old }
{
    if !columns::pending_at(rows, i) {
        return report(rows, i, out);
    }
    if !fields::is_initialized(session) {
        return refuse_by(out, Cause::NotInitialized);
    }
    fields::begin_poll(session, id);
    let token = columns::token_at(rows, i);
    encode::write_answer(out, Answer::Asked(token))
}

// Needs canonical session words, so that unchanged ones need not be written.
pub fn poll_request(session: &mut [u64], rows: &[u64], id: RequestId, out: &mut [u64])
    requires { is_session session.old ≡ true }
    ensures { after out.new (kept_of session.new)
        ≡ polled_told (poll_of id (read_session session.old) (store_of rows.now)) session.old out.old }
{
    let verdict = rows_ready(session, rows.len());
    match verdict {
        Err(refusal) => refuse(out, refusal),
        Ok(()) => {
            let found = search::find(rows, id);
            let Some(i) = found else {
                return refuse_by(out, Cause::UnknownRequest);
            };
            poll_row(session, rows, i, id, out)
        }
    }
}
