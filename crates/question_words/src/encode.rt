// An answer to a question in words: its tag, its fields, then zeros.
ghost use Rattle.std.specs.Prelude.{◌≡◌};
ghost use Rattle.answer_words.specs.Encode.{written};
ghost use Rattle.question_words.specs.Encode.{session_status_words, placed_words, wanted_words, question_words};

use answer_words::encode;
use answer_words::encode::put;
use calls::Answer;
use models::RequestReport;
use questions::QuestionAnswer;
use session::Session;
use session_words::state;
use targets::wants::Wanted;
use words::slices;

// The session's own words, but for the request in flight.
fn status_words(session: Session) -> [u64; 19]
    ensures { result ≡ session_status_words session }
{
    let own = state::session_words(session);
    let tag = [11];
    let mut w = [0; 19];
    slices::copy(&mut w, 0, &tag, 1);
    slices::copy(&mut w, 1, &own, 16);
    slices::copy(&mut w, 17, slices::rest(&own, 24), 2);
    w
}

fn placed_words(place: u64, report: RequestReport) -> [u64; 27]
    ensures { result ≡ placed_words place report }
{
    let own = encode::report_words(report);
    let head = [12, place];
    let mut w = [0; 27];
    slices::copy(&mut w, 0, &head, 2);
    slices::copy(&mut w, 2, slices::rest(&own, 1), 25);
    w
}

fn wanted_words(wanted: Option<Wanted>) -> [u64; 3]
    ensures { result ≡ wanted_words wanted }
{
    match wanted {
        None => [13, 0, 0],
        Some(Wanted::First(number)) => [13, 1, number as u64],
        Some(Wanted::Second(number)) => [13, 2, number as u64],
    }
}

// Writes the answer; a slice of fewer than 32 words stays as it is.
pub fn write_answer(out: &mut [u64], answer: QuestionAnswer)
    ensures { out.new ≡ written (question_words answer) out.old }
{
    match answer {
        QuestionAnswer::Refused(r) => encode::write_answer(out, Answer::Refused(r)),
        QuestionAnswer::Status(s) => put(out, &status_words(s)),
        QuestionAnswer::NoReport => encode::write_answer(out, Answer::NoReport),
        QuestionAnswer::ReportAt(place, report) => put(out, &placed_words(place, report)),
        QuestionAnswer::Reading(wanted) => put(out, &wanted_words(wanted)),
    }
}
