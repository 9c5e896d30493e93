// Polling a request.
ghost use Rattle.std.specs.Prelude.{◌≡◌};
ghost use Rattle.models.specs.Said.{Tabled};
ghost use Rattle.polls.specs.Poll.{poll_row, poll_of};
ghost use Rattle.polls.specs.Said.{poll_said, poll_numbers};
ghost use Rattle.rows.specs.Store.{store_of};

use crate::PollAnswer;
use ledger::search;
use models::{Cause, Refusal, RequestId};
use rows::Row;
use session::{Called, InFlight, Session, start};

// A row that is not Pending is reported in any controller state; 28: not Initialized; else its token is to be asked for.
fn poll_row(session: Session, row: Row, id: RequestId) -> Called<PollAnswer>
    ensures { result ≡ poll_row row id session }
{
    let state = row.state;
    let controller = session.state;
    if !models::is_pending(state) {
        return Called {
            answer: Ok(PollAnswer::Report(rules::report_of(row))),
            session,
        };
    }
    if !session::is_initialized(controller) {
        return Called::refused_by(session, Cause::NotInitialized);
    }
    Called {
        answer: Ok(PollAnswer::Asked(row.token)),
        session: session::with_flight(session, InFlight::Poll(id)),
    }
}

// Refuses by 1 while an operation waits for its reply, by 3 if the rows have not the session's size, by 40 if no row has the id.
pub fn poll_request(session: Session, rows: &[u64], id: RequestId) -> Called<PollAnswer>
    ensures step { result ≡ poll_of id session (store_of rows.now) }
    ensures table { Tabled poll_numbers (poll_said result.answer) }
{
    let verdict = start::rows_ready(session, rows.len());
    match verdict {
        Err(refusal) => Called::refused(session, refusal),
        Ok(()) => {
            let found = search::find(rows, id);
            let Some(i) = found else {
                return Called::refused_by(session, Cause::UnknownRequest);
            };
            let row = rows::read_row(rows, i);
            poll_row(session, row, id)
        }
    }
}
