// The replies to a poll and to a submission, in place where the session changes only in that the operation ends; else by value.
ghost use Rattle.std.specs.Prelude.{true, ◌≡◌, ◌+◌, ◌*◌, ◌<◌, ◌≤◌, length, Ok};
ghost use Rattle.chain.specs.After.{after};
ghost use Rattle.models.specs.Refusals.{from_backend};
ghost use Rattle.rows.specs.InPlace.{completed_row};
ghost use Rattle.rows.specs.Store.{store_of, put_in};
ghost use Rattle.rows.specs.Table.{read_rows, row_at, is_pending_row};
ghost use Rattle.session.specs.Lent.{memory, memory_of};
ghost use Rattle.session.specs.Session.{with_flight};
ghost use Rattle.session.specs.Sizes.{data_at, memory_sizes};
ghost use Rattle.session.specs.declared.InFlight.TheVariants as InFlight;
ghost use Rattle.session.specs.Called.{call_refused};
ghost use Rattle.polls.specs.PollReply.{poll_reply_of};
ghost use Rattle.submissions.specs.SubmitReply.{submit_reply_of};
ghost use Rattle.session_words.specs.State.{read_session, is_session};
ghost use Rattle.call_words.specs.Arguments.{read_poll_reply, read_submit_reply};
ghost use Rattle.direct.specs.Replies.{replied_told, reported_out, reported_row, failed_row, polled_at, ending_test, ending_of, told_of};

use crate::{refuse, refuse_by, report, rows_fit};
use answer_words::encode;
use call_words::arguments;
use calls::answers;
use checks::completion;
use checks::completion::{CompletionFault, ValidCompletion};
use ledger::{in_place, search};
use models::values::error_at;
use models::{BackendCompletion, Cause, OperationError, Refusal, RequestReport, RequestState};
use polls::poll_reply;
use reports::answers::is_mild;
use rows::columns;
use scope::returned;
use session::{Called, sizes};
use session_words::{fields, state};
use submissions::submit_reply;
use words::slices;
use words::slices::word_at;

// What a completion does to a Pending row, where it leaves the session but for the poll; else by value. Three ways, each taken by its own arm:
// an Option round two would be no plainer.
#[derive(Clone, Copy)]
pub enum Ending {
    ByValue,
    Completed(u64, u32),
    Failed(OperationError, Option<u32>),
}

fn memory_fits(session: &[u64], words: usize, bytes: usize) -> bool
    ensures { result ≡ memory_sizes (read_session session.now).size words bytes }
{
    let size = fields::size(session);
    sizes::memory_fits(size, words, bytes)
}

// Writes the session and the answer of a reply that was taken by value.
fn write_reported(session: &mut [u64], reported: Called<RequestReport>, out: &mut [u64])
    ensures { told_of session.new out.new ≡ reported_out reported session.old out.old }
{
    let outcome = answers::of_called(reported);
    let next = outcome.session;
    let answer = outcome.answer;
    state::write_session(session, next);
    encode::write_answer(out, answer)
}

// The operation ends with the report of row i.
fn end_flight(session: &mut [u64], rows: &[u64], i: usize, out: &mut [u64])
    requires { (is_session session.old ≡ true) × (i < length (read_rows rows.now)) }
    ensures { told_of session.new out.new ≡ reported_out (reported_row (row_at rows.now i) (read_session session.old))
        session.old out.old }
{
    fields::end_flight(session);
    report(rows, i, out)
}

fn poll_by_value(
    session: &mut [u64],
    rows: &mut [u64],
    area: &mut [u8],
    reply: Result<Option<BackendCompletion>, OperationError>,
    bytes: &[u8],
    out: &mut [u64],
)
    ensures { after (told_of session.new out.new) (memory_of rows.new area.new)
        ≡ replied_told (poll_reply_of reply bytes.now (read_session session.old) (memory_of rows.old area.old))
        session.old out.old }
{
    let before = state::to_session(session);
    let reported = poll_reply::poll_reply(before, rows, area, reply, bytes);
    write_reported(session, reported, out)
}

// The row of the polled id. Refuses by 2 if no poll is in flight or no row has its id, by 3 if a slice has not the session's size.
fn polled_row(session: &[u64], rows: &[u64], area: &[u8]) -> Result<usize, Refusal>
    ensures { result ≡ polled_at (read_session session.now) (memory_of rows.now area.now) }
{
    if !fields::is_polling(session) {
        return Err(models::refuse(Cause::NothingWaits));
    }
    if !memory_fits(session, rows.len(), area.len()) {
        return Err(models::refuse(Cause::WrongSize));
    }
    let id = fields::flight_id(session);
    let found = search::find(rows, id);
    let Some(i) = found else {
        return Err(models::refuse(Cause::NothingWaits));
    };
    Ok(i)
}

fn ending_test(test: Result<ValidCompletion, CompletionFault>) -> Ending
    ensures { result ≡ ending_test test }
{
    match test {
        Ok(valid) => Ending::Completed(valid.actual_length, valid.completion_code),
        Err(_) => Ending::ByValue,
    }
}

fn ending_of(completion: BackendCompletion, given: u64, requested: u64) -> Ending
    ensures { result ≡ ending_of completion given requested }
{
    let error = completion.error;
    match error {
        Some(e) => {
            if !completion.quiescent {
                return Ending::ByValue;
            }
            let code = completion.completion_code;
            Ending::Failed(e, code)
        }
        None => {
            let test = completion::test_completion(completion, given, requested);
            ending_test(test)
        }
    }
}

// The data overwrites the first bytes of row i, cut at the row's end.
fn store_data(session: &[u64], area: &mut [u8], i: usize, bytes: &[u8])
    requires { i * (read_session session.now).size.row_bytes + (read_session session.now).size.row_bytes ≤ length area.old }
    ensures { area.new
        ≡ data_at (read_session session.now).size i bytes.now area.old }
{
    let size = fields::size(session);
    sizes::put_data(area, size, i, bytes);
}

// Row i, which is Pending, is completed with its data.
fn complete(
    session: &mut [u64],
    rows: &mut [u64],
    area: &mut [u8],
    i: usize,
    actual: u64,
    code: u32,
    bytes: &[u8],
    out: &mut [u64],
)
    requires { (is_session session.old ≡ true) × (i < length (read_rows rows.old))
        × (is_pending_row (row_at rows.old i) ≡ true)
        × (i * (read_session session.old).size.row_bytes + (read_session session.old).size.row_bytes ≤ length area.old) }
    ensures { after (told_of session.new out.new) (memory_of rows.new area.new)
        ≡ replied_told (after (reported_row (completed_row (row_at rows.old i) actual code) (read_session session.old))
        (memory (put_in (store_of rows.old) i (completed_row (row_at rows.old i) actual code))
        (data_at (read_session session.old).size i bytes.now area.old)))
        session.old out.old }
{
    store_data(session, area, i, bytes);
    rows::in_place::complete_row(rows, i, actual, code);
    end_flight(session, rows, i, out)
}

// Row i, which is Pending, is Failed and quiescent.
fn fail(
    session: &mut [u64],
    rows: &mut [u64],
    i: usize,
    error: OperationError,
    completion_code: Option<u32>,
    out: &mut [u64],
)
    requires { (is_session session.old ≡ true) × (i < length (read_rows rows.old))
        × (is_pending_row (row_at rows.old i) ≡ true) }
    ensures { after (told_of session.new out.new) (store_of rows.new)
        ≡ replied_told (after (reported_row (failed_row (row_at rows.old i) error completion_code) (read_session session.old))
        (put_in (store_of rows.old) i (failed_row (row_at rows.old i) error completion_code)))
        session.old out.old }
{
    let state = RequestState::Failed {
        error,
        completion_code,
        quiescent: true,
    };
    rows::in_place::end_row(rows, i, state);
    end_flight(session, rows, i, out)
}

// 45: the operation ends with a backend's error.
fn refuse_ended(session: &mut [u64], error: OperationError, out: &mut [u64])
    requires { is_session session.old ≡ true }
    ensures { told_of session.new out.new ≡ reported_out
        (call_refused (with_flight (read_session session.old) InFlight.Nothing) (from_backend 45 error))
        session.old out.old }
{
    fields::end_flight(session);
    refuse(out, models::refuse_backend(Cause::BackendError, error))
}

// The row of the poll, i, is Pending.
fn poll_completion(
    session: &mut [u64],
    rows: &mut [u64],
    area: &mut [u8],
    i: usize,
    completion: BackendCompletion,
    bytes: &[u8],
    out: &mut [u64],
)
    requires { (is_session session.old ≡ true) × (is_pending_row (row_at rows.old i) ≡ true)
        × (polled_at (read_session session.old) (memory (store_of rows.old) area.old) ≡ Ok i) }
    ensures { after (told_of session.new out.new) (memory_of rows.new area.new)
        ≡ replied_told (poll_reply_of (Ok (Some completion)) bytes.now (read_session session.old) (memory_of rows.old area.old))
        session.old out.old }
{
    let requested = columns::requested_length_at(rows, i);
    let ending = ending_of(completion, bytes.len() as u64, requested);
    match ending {
        Ending::ByValue => poll_by_value(session, rows, area, Ok(Some(completion)), bytes, out),
        Ending::Completed(actual, code) => complete(
            session, rows, area, i, actual, code, bytes, out,
        ),
        Ending::Failed(error, code) => fail(session, rows, i, error, code, out),
    }
}

// By the reply: 0 nothing came, 1 an error, 2 a completion. The poll's row is i.
fn poll_at(
    session: &mut [u64],
    rows: &mut [u64],
    area: &mut [u8],
    i: usize,
    call: &[u64],
    bytes: &[u8],
    out: &mut [u64],
)
    requires { (is_session session.old ≡ true) × (polled_at (read_session session.old) (memory (store_of rows.old) area.old) ≡ Ok i) }
    ensures { after (told_of session.new out.new) (memory_of rows.new area.new)
        ≡ replied_told (poll_reply_of (read_poll_reply call.now) bytes.now (read_session session.old) (memory_of rows.old area.old))
        session.old out.old }
{
    let kind = word_at(call, 1);
    if kind == 0 {
        return end_flight(session, rows, i, out);
    }
    if kind == 1 {
        let error = error_at(call, 3);
        let category = error.category;
        if !is_mild(category) {
            return poll_by_value(session, rows, area, Err(error), bytes, out);
        }
        return refuse_ended(session, error, out);
    }
    let completion = returned::completion(slices::rest(call, 2));
    if !columns::pending_at(rows, i) {
        return poll_by_value(session, rows, area, Ok(Some(completion)), bytes, out);
    }
    poll_completion(session, rows, area, i, completion, bytes, out)
}

// The reply to a poll that the words of its call encode. Refuses as `polled_row`; else the operation ends.
pub fn poll_reply(
    session: &mut [u64],
    rows: &mut [u64],
    area: &mut [u8],
    call: &[u64],
    bytes: &[u8],
    out: &mut [u64],
)
    requires { is_session session.old ≡ true }
    ensures { after (told_of session.new out.new) (memory_of rows.new area.new)
        ≡ replied_told (poll_reply_of (read_poll_reply call.now) bytes.now (read_session session.old) (memory_of rows.old area.old))
        session.old out.old }
{
    let placed = polled_row(session, rows, area);
    match placed {
        Err(refusal) => refuse(out, refusal),
        Ok(i) => poll_at(session, rows, area, i, call, bytes, out),
    }
}

// The backend took the submission. 2: none is in flight; 3; 2: no row has its id. Else the operation ends with the report of the row,
// which has the token.
fn submit_accepted(session: &mut [u64], rows: &mut [u64], token: u64, out: &mut [u64])
    requires { is_session session.old ≡ true }
    ensures { after (told_of session.new out.new) (store_of rows.new)
        ≡ replied_told (submit_reply_of (Ok token) (read_session session.old) (store_of rows.old))
        session.old out.old }
{
    if !fields::is_submitting(session) {
        return refuse_by(out, Cause::NothingWaits);
    }
    if !rows_fit(session, rows.len()) {
        return refuse_by(out, Cause::WrongSize);
    }
    let id = fields::flight_id(session);
    let placed = in_place::accept(rows, id, token);
    let Ok(i) = placed else {
        return refuse_by(out, Cause::NothingWaits);
    };
    end_flight(session, rows, i, out)
}

// The reply to a submission that the words of its call say.
pub fn submit_reply(session: &mut [u64], rows: &mut [u64], call: &[u64], out: &mut [u64])
    requires { is_session session.old ≡ true }
    ensures { after (told_of session.new out.new) (store_of rows.new)
        ≡ replied_told (submit_reply_of (read_submit_reply call.now) (read_session session.old) (store_of rows.old))
        session.old out.old }
{
    let kind = word_at(call, 1);
    if kind == 0 {
        let token = word_at(call, 2);
        return submit_accepted(session, rows, token, out);
    }
    let before = state::to_session(session);
    let reply = arguments::submit_reply(call);
    let reported = submit_reply::submit_reply(before, rows, reply);
    write_reported(session, reported, out)
}
