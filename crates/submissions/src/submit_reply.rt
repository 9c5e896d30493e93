// The backend's reply to a submission.
ghost use Rattle.std.specs.Prelude.{◌≡◌};
ghost use Rattle.chain.specs.After.{after};
ghost use Rattle.models.specs.Said.{Tabled};
ghost use Rattle.reports.specs.Said.{report_said};
ghost use Rattle.submissions.specs.Said.{submit_reply_numbers};
ghost use Rattle.submissions.specs.SubmitReply.{accepted_by, discarded_by, submit_reply_by, submit_reply_of};
ghost use Rattle.rows.specs.Store.{store_of};

use models::{Cause, OperationError, Refusal, RequestId, RequestReport};
use reports::answers::take_effect;
use rules::Change;
use session::{Called, InFlight, Session, sizes};

// The backend took the request: the operation ends with the row's report. Refuses by 2 if no row has the id.
fn accepted(applied: Result<RequestReport, Refusal>, session: Session) -> Called<RequestReport>
    ensures { result ≡ accepted_by applied session }
{
    let Ok(report) = applied else {
        return Called::refused_by(session, Cause::NothingWaits);
    };
    Called {
        answer: Ok(report),
        session: session::with_flight(session, InFlight::Nothing),
    }
}

// The backend refused it: the operation ends, refused by 45. Refuses by 2 if no row has the id.
fn discarded(
    applied: Result<RequestReport, Refusal>,
    error: OperationError,
    session: Session,
) -> Called<RequestReport>
    ensures { result ≡ discarded_by applied error session }
{
    let Ok(_) = applied else {
        return Called::refused_by(session, Cause::NothingWaits);
    };
    let marked = take_effect(session, error);
    let ended = session::with_flight(marked, InFlight::Nothing);
    Called::refused(ended, models::refuse_backend(Cause::BackendError, error))
}

fn reply_to(
    session: Session,
    rows: &mut [u64],
    id: RequestId,
    reply: Result<u64, OperationError>,
) -> Called<RequestReport>
    ensures { after result (store_of rows.new) ≡ submit_reply_by reply id session (store_of rows.old) }
{
    match reply {
        Ok(token) => {
            let applied = ledger::apply(rows, id, Change::Accept(token));
            accepted(applied, session)
        }
        Err(error) => {
            let applied = ledger::apply(rows, id, Change::Discard);
            discarded(applied, error, session)
        }
    }
}

// Ends the submission in flight by the backend's reply. Refuses by 2 if none is in flight, by 3 if the rows have not the session's size, by 2
// if no row has the id, by 45 if the backend refused.
pub fn submit_reply(
    session: Session,
    rows: &mut [u64],
    reply: Result<u64, OperationError>,
) -> Called<RequestReport>
    ensures step { after result (store_of rows.new) ≡ submit_reply_of reply session (store_of rows.old) }
    ensures table { Tabled submit_reply_numbers (report_said result.answer) }
{
    let flight = session.in_flight;
    let size = session.size;
    match flight {
        InFlight::Nothing => Called::refused_by(session, Cause::NothingWaits),
        InFlight::Submission(id) => {
            if !sizes::rows_fit(size, rows.len()) {
                return Called::refused_by(session, Cause::WrongSize);
            }
            reply_to(session, rows, id, reply)
        }
        InFlight::Poll(_) => Called::refused_by(session, Cause::NothingWaits),
        InFlight::Recovery(_) => Called::refused_by(session, Cause::NothingWaits),
    }
}
