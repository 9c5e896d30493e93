// The flags of a row that is Pending: each stands in its state and once more in the row.
ghost use Rattle.std.specs.Prelude.{◌≡◌};
ghost use Rattle.rules.specs.Rules.{logical_cancel, cancel_withdrawn, time_out};

use crate::{Step, moved_to, refused};
use models::{Cause, Refusal, RequestState};
use rows::Row;

pub(crate) fn logical_cancel(row: Row) -> Result<Step, Refusal>
    ensures { result ≡ logical_cancel row }
{
    let RequestState::Pending { timed_out, .. } = row.state else {
        return refused(Cause::NotPending);
    };
    moved_to(Row {
        logical_cancel: true,
        state: RequestState::Pending {
            logical_cancel: true,
            timed_out,
        },
        ..row
    })
}

// Takes back a cancel. A timeout stays.
pub(crate) fn withdraw_cancel(row: Row) -> Result<Step, Refusal>
    ensures { result ≡ cancel_withdrawn row }
{
    let RequestState::Pending {
        logical_cancel,
        timed_out,
    } = row.state
    else {
        return refused(Cause::NotPending);
    };
    if !logical_cancel {
        return refused(Cause::NotCancelled);
    }
    moved_to(Row {
        logical_cancel: false,
        state: RequestState::Pending {
            logical_cancel: false,
            timed_out,
        },
        ..row
    })
}

pub(crate) fn timeout(row: Row) -> Result<Step, Refusal>
    ensures { result ≡ time_out row }
{
    let RequestState::Pending { logical_cancel, .. } = row.state else {
        return refused(Cause::NotPending);
    };
    let state = RequestState::Pending {
        logical_cancel,
        timed_out: true,
    };
    moved_to(Row {
        timed_out: true,
        state,
        ..row
    })
}
