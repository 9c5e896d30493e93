// The backend's reply to a poll.
ghost use Rattle.std.specs.Prelude.{◌≡◌, ◌+◌, ◌*◌, ◌<◌, ◌≤◌, length};
ghost use Rattle.chain.specs.After.{after};
ghost use Rattle.models.specs.Said.{Tabled};
ghost use Rattle.rows.specs.Table.{read_rows};
ghost use Rattle.ledger.specs.Apply.{changed_at};
ghost use Rattle.session.specs.Lent.{memory_of};
ghost use Rattle.reports.specs.Said.{report_said};
ghost use Rattle.polls.specs.PollReply.{is_recovery, code_is_stall, is_scoped_stall, stall_of, failed_as, invalid_as, judged_test, judged, stored_in, settled, poll_reply_at, poll_reply_found, poll_reply_of};
ghost use Rattle.polls.specs.Said.{poll_reply_numbers};
ghost use Rattle.rows.specs.Store.{store_of};

use checks::completion;
use checks::completion::{CompletionFault, ValidCompletion};
use ledger::search;
use models::{
    BackendCompletion, Cause, ErrorCategory, OperationError, RequestId, RequestMetadata,
    RequestReport,
};
use reports::answers;
use rows::Row;
use rules::Change;
use session::{Called, InFlight, RecoverableStall, Session, Size, sizes};
use standards::completion::is_stall;

// What a completion does: the change of the row, the session after it, and whether the data is stored.
#[derive(Clone, Copy)]
pub struct Judgement {
    pub change: Change,
    pub session: Session,
    pub stored: bool,
}

fn is_recovery(c: ErrorCategory) -> bool
    ensures { result ≡ is_recovery c }
{
    c == ErrorCategory::RecoveryRequired
}

fn code_is_stall(c: Option<u32>) -> bool
    ensures { result ≡ code_is_stall c }
{
    let Some(code) = c else {
        return false;
    };
    is_stall(code)
}

// Both codes are a stall's, and the category is RecoveryRequired.
fn is_scoped_stall(completion: BackendCompletion, error: OperationError) -> bool
    ensures { result ≡ is_scoped_stall completion error }
{
    let outer = completion.completion_code;
    let inner = error.completion_code;
    let category = error.category;
    let first = code_is_stall(outer);
    let second = code_is_stall(inner);
    let recovery = is_recovery(category);
    first & second & recovery
}

// The stall to keep: none where the revision is exhausted or the failure is no stall.
fn stall_of(
    revision: Option<u64>,
    metadata: RequestMetadata,
    scoped: bool,
) -> Option<RecoverableStall>
    ensures { result ≡ stall_of revision metadata scoped }
{
    let Some(n) = revision else {
        return None;
    };
    if !scoped {
        return None;
    }
    let device = metadata.device;
    Some(RecoverableStall {
        revision: n,
        device,
        endpoint: metadata.endpoint,
    })
}

// A completion with an error: Failed; if not quiescent, a mark, and the stall is kept or dropped.
fn fail(
    session: Session,
    row: Row,
    completion: BackendCompletion,
    error: OperationError,
) -> Judgement
    ensures { result ≡ failed_as session row completion error }
{
    let code = completion.completion_code;
    let metadata = row.metadata;
    let change = Change::Fail(error, code, completion.quiescent);
    if completion.quiescent {
        return Judgement {
            change,
            session,
            stored: false,
        };
    }
    let scoped = is_scoped_stall(completion, error);
    let marked = session::mark(session);
    let revision = marked.recovery_revision;
    let stall = stall_of(revision, metadata, scoped);
    Judgement {
        change,
        session: session::with_stall(marked, stall),
        stored: false,
    }
}

// A completion that is not valid: Failed, not quiescent, with message 48, and a mark.
fn invalid(session: Session, completion: BackendCompletion) -> Judgement
    ensures { result ≡ invalid_as session completion }
{
    let code = completion.completion_code;
    let refusal = models::refuse_completion(code);
    let error = refusal.error;
    Judgement {
        change: Change::Fail(error, code, false),
        session: session::mark(session),
        stored: false,
    }
}

fn judge_test(
    test: Result<ValidCompletion, CompletionFault>,
    session: Session,
    completion: BackendCompletion,
) -> Judgement
    ensures { result ≡ judged_test test session completion }
{
    match test {
        Ok(valid) => Judgement {
            change: Change::Complete(valid.actual_length, valid.completion_code),
            session,
            stored: true,
        },
        Err(_) => invalid(session, completion),
    }
}

fn judge(session: Session, row: Row, completion: BackendCompletion, given: u64) -> Judgement
    ensures { result ≡ judged session row completion given }
{
    let error = completion.error;
    match error {
        Some(e) => fail(session, row, completion, e),
        None => {
            let metadata = row.metadata;
            let test = completion::test_completion(completion, given, metadata.requested_length);
            judge_test(test, session, completion)
        }
    }
}

// Only a valid completion's data is stored.
fn store_data(area: &mut [u8], size: Size, i: usize, bytes: &[u8], stored: bool)
    requires { i * size.row_bytes + size.row_bytes ≤ length area.old }
    ensures { area.new ≡ stored_in size i bytes.now stored area.old }
{
    if !stored {
        return;
    }
    sizes::put_data(area, size, i, bytes);
}

// The one place where a poll's reply changes rows and area. `idle` is the session without the poll.
fn settle(
    j: Judgement,
    idle: Session,
    rows: &mut [u64],
    area: &mut [u8],
    i: usize,
    bytes: &[u8],
) -> Called<RequestReport>
    requires { (i < length (read_rows rows.old))
        × (i * idle.size.row_bytes + idle.size.row_bytes ≤ length area.old) }
    ensures { after result (memory_of rows.new area.new)
        ≡ settled (changed_at i j.change (store_of rows.old)) j i bytes.now idle area.old }
{
    let change = j.change;
    let session = j.session;
    let size = idle.size;
    let applied = ledger::change_at(rows, i, change);
    match applied {
        Err(refusal) => Called::refused(idle, refusal),
        Ok(report) => {
            store_data(area, size, i, bytes, j.stored);
            Called {
                answer: Ok(report),
                session,
            }
        }
    }
}

// Row i has the polled id.
fn reply_at(
    idle: Session,
    rows: &mut [u64],
    area: &mut [u8],
    i: usize,
    reply: Result<Option<BackendCompletion>, OperationError>,
    bytes: &[u8],
) -> Called<RequestReport>
    requires { (i < length (read_rows rows.old))
        × (i * idle.size.row_bytes + idle.size.row_bytes ≤ length area.old) }
    ensures { after result (memory_of rows.new area.new)
        ≡ poll_reply_at reply i bytes.now idle (memory_of rows.old area.old) }
{
    let row = rows::read_row(rows, i);
    match reply {
        Ok(None) => Called {
            answer: Ok(rules::report_of(row)),
            session: idle,
        },
        Err(error) => {
            let after = answers::take_effect(idle, error);
            Called::refused(after, models::refuse_backend(Cause::BackendError, error))
        }
        Ok(Some(completion)) => {
            let j = judge(idle, row, completion, bytes.len() as u64);
            settle(j, idle, rows, area, i, bytes)
        }
    }
}

// Refuses by 3 if a slice has not the session's size, by 2 if no row has the id.
fn reply_found(
    session: Session,
    rows: &mut [u64],
    area: &mut [u8],
    id: RequestId,
    reply: Result<Option<BackendCompletion>, OperationError>,
    bytes: &[u8],
) -> Called<RequestReport>
    ensures { after result (memory_of rows.new area.new)
        ≡ poll_reply_found id reply bytes.now session (memory_of rows.old area.old) }
{
    let size = session.size;
    if !sizes::memory_fits(size, rows.len(), area.len()) {
        return Called::refused_by(session, Cause::WrongSize);
    }
    let found = search::find(rows, id);
    let Some(i) = found else {
        return Called::refused_by(session, Cause::NothingWaits);
    };
    let idle = session::with_flight(session, InFlight::Nothing);
    reply_at(idle, rows, area, i, reply, bytes)
}

// Refuses by 2 if no poll is in flight or no row has its id, by 3 if a slice has not the session's size. Else the operation ends.
pub fn poll_reply(
    session: Session,
    rows: &mut [u64],
    area: &mut [u8],
    reply: Result<Option<BackendCompletion>, OperationError>,
    bytes: &[u8],
) -> Called<RequestReport>
    ensures step { after result (memory_of rows.new area.new)
        ≡ poll_reply_of reply bytes.now session (memory_of rows.old area.old) }
    ensures table { Tabled poll_reply_numbers (report_said result.answer) }
{
    let flight = session.in_flight;
    match flight {
        InFlight::Nothing => Called::refused_by(session, Cause::NothingWaits),
        InFlight::Submission(_) => Called::refused_by(session, Cause::NothingWaits),
        InFlight::Poll(id) => reply_found(session, rows, area, id, reply, bytes),
        InFlight::Recovery(_) => Called::refused_by(session, Cause::NothingWaits),
    }
}
