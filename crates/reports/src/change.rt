// Cancel, its withdrawal, timeout and reclaim. Each refuses by 1 while an operation waits for its reply, by 3 if the rows have not the
// session's size, by 40 if no row has the id, then by its rule.
ghost use Rattle.std.specs.Prelude.{◌≡◌};
ghost use Rattle.chain.specs.After.{after};
ghost use Rattle.models.specs.Said.{Tabled};
ghost use Rattle.rules.specs.declared.Change.TheVariants as Change;
ghost use Rattle.reports.specs.Change.{reported_by, change_of};
ghost use Rattle.reports.specs.Said.{report_said, cancel_numbers, withdraw_numbers, reclaim_numbers};
ghost use Rattle.rows.specs.Store.{store_of};

use crate::answers;
use models::{Refusal, RequestId, RequestReport};
use rules::Change;
use session::{Called, Session, start};

fn reported(applied: Result<RequestReport, Refusal>, session: Session) -> Called<RequestReport>
    ensures { result ≡ reported_by applied session }
{
    match applied {
        Err(refusal) => Called::refused(session, refusal),
        Ok(report) => Called {
            answer: Ok(report),
            session,
        },
    }
}

fn change_request(
    session: Session,
    rows: &mut [u64],
    id: RequestId,
    change: Change,
) -> Called<RequestReport>
    ensures { after result (store_of rows.new) ≡ change_of id change session (store_of rows.old) }
{
    let verdict = start::rows_ready(session, rows.len());
    match verdict {
        Err(refusal) => Called::refused(session, refusal),
        Ok(()) => {
            let applied = ledger::apply(rows, id, change);
            reported(applied, session)
        }
    }
}

pub fn logical_cancel_request(
    session: Session,
    rows: &mut [u64],
    id: RequestId,
) -> Called<RequestReport>
    ensures step { after result (store_of rows.new) ≡ change_of id Change.LogicalCancel session (store_of rows.old) }
    ensures table { Tabled cancel_numbers (report_said result.answer) }
{
    change_request(session, rows, id, Change::LogicalCancel)
}

// Takes back a cancel of a request that is Pending. It looks at no controller state.
pub fn withdraw_cancel_request(
    session: Session,
    rows: &mut [u64],
    id: RequestId,
) -> Called<RequestReport>
    ensures step { after result (store_of rows.new) ≡ change_of id Change.WithdrawCancel session (store_of rows.old) }
    ensures table { Tabled withdraw_numbers (report_said result.answer) }
{
    change_request(session, rows, id, Change::WithdrawCancel)
}

pub fn timeout_request(session: Session, rows: &mut [u64], id: RequestId) -> Called<RequestReport>
    ensures step { after result (store_of rows.new) ≡ change_of id Change.Timeout session (store_of rows.old) }
    ensures table { Tabled cancel_numbers (report_said result.answer) }
{
    change_request(session, rows, id, Change::Timeout)
}

// The report is of the request as it was; its row is free.
pub fn reclaim_request(session: Session, rows: &mut [u64], id: RequestId) -> Called<RequestReport>
    ensures step { after result (store_of rows.new) ≡ change_of id Change.Reclaim session (store_of rows.old) }
    ensures table { Tabled reclaim_numbers (report_said result.answer) }
{
    change_request(session, rows, id, Change::Reclaim)
}
