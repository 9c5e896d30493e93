// The rules of one row, by value: what a change leaves, or its refusal.
#![tactic(auto)]

ghost use Rattle.std.specs.Prelude.{◌≡◌};
ghost use Rattle.models.specs.Causes.{number_of};
ghost use Rattle.models.specs.Said.{Tabled};
ghost use Rattle.rules.specs.Rules.{report_of, pending_row, spend_sequence, refused_by, moved, freed, accepted, completed, failed, abort_confirmed, reclaimed, change_row};
ghost use Rattle.rules.specs.Said.{step_said, spent_said, spend_numbers, change_numbers};

use models::{
    Cause, OperationError, Refusal, RequestId, RequestMetadata, RequestReport, RequestState,
};
use rows::Row;

mod flags; // flags.rt: cancel, its withdrawal and timeout

// What a change of a row leaves: the next row, and what is reported of the request.
#[derive(Clone, Copy)]
pub struct Step {
    pub row: Row,
    pub report: RequestReport,
}

// A change of one row. Accept and Discard end a submission, with the backend's token or with its error.
#[derive(Clone, Copy)]
pub enum Change {
    Accept(u64),
    Discard,
    LogicalCancel,
    Timeout,
    Complete(u64, u32),
    Fail(OperationError, Option<u32>, bool),
    ConfirmAbort,
    Reclaim,
    WithdrawCancel,
}

pub fn report_of(row: Row) -> RequestReport
    ensures { result ≡ report_of row }
{
    RequestReport {
        id: row.id,
        metadata: row.metadata,
        state: row.state,
        logical_cancel: row.logical_cancel,
        timed_out: row.timed_out,
    }
}

// The row of a submission: Pending, and without a token yet.
pub fn pending_row(id: RequestId, metadata: RequestMetadata) -> Row
    ensures { result ≡ pending_row id metadata }
{
    Row {
        used: true,
        id,
        metadata,
        token: 0,
        logical_cancel: false,
        timed_out: false,
        state: RequestState::Pending {
            logical_cancel: false,
            timed_out: false,
        },
    }
}

// Spends the sequence number `next`: the greatest is never given.
pub fn spend_sequence(next: u64) -> Result<u64, Refusal>
    ensures step { result ≡ spend_sequence next }
    ensures table { Tabled spend_numbers (spent_said result) }
{
    next.checked_add(1)
        .ok_or(models::refuse(Cause::SequencesSpent))
}

pub(crate) fn refused(cause: Cause) -> Result<Step, Refusal>
    ensures { result ≡ refused_by (number_of cause) }
{
    Err(models::refuse(cause))
}

// The step to a row that is reported as it then is.
pub(crate) fn moved_to(next: Row) -> Result<Step, Refusal>
    ensures { result ≡ moved next }
{
    Ok(Step {
        row: next,
        report: report_of(next),
    })
}

// The step to a free row; the request is reported as it was.
fn free(row: Row) -> Result<Step, Refusal>
    ensures { result ≡ freed row }
{
    Ok(Step {
        row: rows::empty_row(),
        report: report_of(row),
    })
}

// The backend took the submission.
fn accept(row: Row, token: u64) -> Result<Step, Refusal>
    ensures { result ≡ accepted row token }
{
    moved_to(Row { token, ..row })
}

// A completion that was found valid.
fn complete(row: Row, actual_length: u64, completion_code: u32) -> Result<Step, Refusal>
    ensures { result ≡ completed row actual_length completion_code }
{
    let RequestState::Pending { logical_cancel, .. } = row.state else {
        return refused(Cause::NotPending);
    };
    moved_to(Row {
        state: RequestState::Completed {
            actual_length,
            completion_code,
            logical_cancel,
        },
        ..row
    })
}

fn fail(
    row: Row,
    error: OperationError,
    completion_code: Option<u32>,
    quiescent: bool,
) -> Result<Step, Refusal>
    ensures { result ≡ failed row error completion_code quiescent }
{
    let RequestState::Pending { .. } = row.state else {
        return refused(Cause::NotPending);
    };
    moved_to(Row {
        state: RequestState::Failed {
            error,
            completion_code,
            quiescent,
        },
        ..row
    })
}

// The backend stopped the request before it was done.
fn confirm_abort(row: Row) -> Result<Step, Refusal>
    ensures { result ≡ abort_confirmed row }
{
    if !models::device_may_access(row.state) {
        return refused(Cause::NotHeld);
    }
    moved_to(Row {
        state: RequestState::Aborted,
        ..row
    })
}

fn reclaim(row: Row) -> Result<Step, Refusal>
    ensures { result ≡ reclaimed row }
{
    if models::device_may_access(row.state) {
        return refused(Cause::StillHeld);
    }
    free(row)
}

pub fn change_row(row: Row, change: Change) -> Result<Step, Refusal>
    ensures step { result ≡ change_row row change }
    ensures table { Tabled (change_numbers change) (step_said result) }
{
    match change {
        Change::Accept(token) => accept(row, token),
        Change::Discard => free(row),
        Change::LogicalCancel => flags::logical_cancel(row),
        Change::Timeout => flags::timeout(row),
        Change::Complete(length, code) => complete(row, length, code),
        Change::Fail(error, code, quiescent) => fail(row, error, code, quiescent),
        Change::ConfirmAbort => confirm_abort(row),
        Change::Reclaim => reclaim(row),
        Change::WithdrawCancel => flags::withdraw_cancel(row),
    }
}
