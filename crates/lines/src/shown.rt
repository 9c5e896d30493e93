// What a line shows after an event: the state's letter and the held count.
ghost use Rattle.std.specs.Prelude.{◌≡◌};
ghost use Rattle.lines.specs.Lines.{state_letter, letter_by, letter_of, held_in, event_line};
ghost use Rattle.rows.specs.Store.{store_of};

use crate::Line;
use marking::Marked;
use models::{Refusal, RequestId, RequestReport, RequestState};
use reports::status;
use session::Session;

fn state_letter(s: RequestState) -> u8
    ensures { result ≡ state_letter s }
{
    match s {
        RequestState::Pending { .. } => b'P',
        RequestState::Completed { .. } => b'C',
        RequestState::Failed { .. } => b'F',
        RequestState::Aborted => b'A',
    }
}

fn report_letter(a: Result<RequestReport, Refusal>) -> u8
    ensures { result ≡ letter_by a }
{
    a.map_or(b'-', |x| state_letter(x.state))
}

fn letter_of(session: Session, rows: &[u64], id: Option<RequestId>) -> u8
    ensures { result ≡ letter_of id session (store_of rows.now) }
{
    id.map_or(b'-', |own| {
        report_letter(status::request_status(session, rows, own))
    })
}

fn held_in(session: Session, rows: &[u64]) -> u8
    ensures { result ≡ held_in session (store_of rows.now) }
{
    status::held_count(session, rows).unwrap_or(0)
}

pub(crate) fn event_line(index: u64, marked: Marked, rows: &[u64]) -> Line
    ensures { result ≡ event_line index marked (store_of rows.now) }
{
    Line {
        index,
        refusal: marked.refusal,
        letter: letter_of(marked.session, rows, marked.id),
        held: held_in(marked.session, rows),
    }
}
