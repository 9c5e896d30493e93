// Reports and questions, over words that stay as they are.
ghost use Rattle.std.specs.Prelude.{true, ◌≡◌, drop};
ghost use Rattle.chain.specs.After.{after};
ghost use Rattle.session.specs.Lent.{lent_of};
ghost use Rattle.submissions.specs.Wants.{submit_wants};
ghost use Rattle.session_words.specs.State.{kept_of, read_session, is_session};
ghost use Rattle.call_words.specs.Arguments.{read_request};
ghost use Rattle.answer_words.specs.Encode.{written};
ghost use Rattle.questions.specs.Question.{question_of};
ghost use Rattle.question_words.specs.Form.{is_read};
ghost use Rattle.question_words.specs.Decode.{read_question};
ghost use Rattle.dispatch.specs.Read.{read_words, reading_of};
ghost use Rattle.calls.specs.Step.{world};

use crate::requests;
use answer_words::encode;
use question_words::form;
use questions::QuestionAnswer;
use reports::scan;
use session::Session;
use session_words::state;
use submissions::wants;
use targets::wants::Wanted;
use words::slices::word_at;

fn submit_wanted(
    session: Session,
    bus: &[u64],
    rows: &[u64],
    area: &[u8],
    call: &[u64],
    bytes: &[u8],
) -> Option<Wanted>
    ensures { result ≡ submit_wants (drop 27 call.now)
        (read_request call.now bytes.now) session (lent_of bus.now rows.now area.now) }
{
    let q = requests::new_request(call, bytes);
    wants::submit_wants(session, bus, rows, area, q)
}

// 25 to 28: the questions.
fn question_answer(
    number: u64,
    session: Session,
    bus: &[u64],
    rows: &[u64],
    area: &[u8],
    call: &[u64],
    bytes: &[u8],
) -> QuestionAnswer
    ensures { result ≡ question_of (read_question number call.now bytes.now)
        (world session (lent_of bus.now rows.now area.now)) }
{
    match number {
        25 => QuestionAnswer::Status(session),
        26 => questions::of_placed(scan::report_from(session, rows, word_at(call, 1))),
        27 => QuestionAnswer::Reading(submit_wanted(session, bus, rows, area, call, bytes)),
        _ => {
            let q = requests::new_plan(call, bytes);
            QuestionAnswer::Reading(wants::plan_wants(session, bus, rows, area, q))
        }
    }
}

fn answer(
    session: &[u64],
    bus: &[u64],
    rows: &[u64],
    area: &[u8],
    call: &[u64],
    bytes: &[u8],
    out: &mut [u64],
)
    requires { (is_read call.now ≡ true) × (is_session session.now ≡ true) }
    ensures { out.new ≡ written (read_words call.now bytes.now
        (world (read_session session.now) (lent_of bus.now rows.now area.now))) out.old }
{
    let number = word_at(call, 0);
    if number <= 21 {
        return requests::report_call(number, session, rows, area, call, out);
    }
    let own = state::to_session(session);
    let answer = question_answer(number, own, bus, rows, area, call, bytes);
    question_words::encode::write_answer(out, answer);
}

// The report or the question that the words say, on the words of a session; `out` alone changes. 0: it was answered; 1: neither; 2: not a
// session's own words; 3: too few words for the answer.
pub fn read(
    session: &[u64],
    bus: &[u64],
    rows: &[u64],
    area: &[u8],
    call: &[u64],
    bytes: &[u8],
    out: &mut [u64],
) -> u64
    ensures { after result out.new ≡ reading_of call.now bytes.now
        (kept_of session.now) (lent_of bus.now rows.now area.now) out.old }
{
    if !form::is_read(call) {
        return 1;
    }
    if !state::is_session(session) {
        return 2;
    }
    if out.len() < encode::WORDS {
        return 3;
    }
    answer(session, bus, rows, area, call, bytes, out);
    0
}
