// What a session is asked, beside its calls: nothing changes, so no history holds it.
#![tactic(auto)]

ghost use Rattle.std.specs.Prelude.{◌≡◌};
ghost use Rattle.questions.specs.Question.{of_placed};

use models::{Refusal, RequestReport};
use reports::PlacedReport;
use session::Session;
use targets::wants::Wanted;

// What a question is answered by, one case a tag that C reads, as `Answer`.
#[derive(Clone, Copy)]
pub enum QuestionAnswer {
    Refused(Refusal),
    Status(Session),
    NoReport,
    ReportAt(u64, RequestReport),
    Reading(Option<Wanted>),
}

pub fn of_placed(report: Result<Option<PlacedReport>, Refusal>) -> QuestionAnswer
    ensures { result ≡ of_placed report }
{
    match report {
        Err(refusal) => QuestionAnswer::Refused(refusal),
        Ok(None) => QuestionAnswer::NoReport,
        Ok(Some(placed)) => QuestionAnswer::ReportAt(placed.place, placed.report),
    }
}
