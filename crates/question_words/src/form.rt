// Which lists of words are questions. Those for a reading have the words of the submission.
ghost use Rattle.std.specs.Prelude.{◌≡◌};
ghost use Rattle.question_words.specs.Form.{is_question, is_read};

use call_words::form;
use words::slices::word_at;

fn is_question(number: u64, w: &[u64]) -> bool
    ensures { result ≡ is_question number w.now }
{
    match number {
        25 => form::has(w, 1),
        26 => form::has(w, 2),
        27 => form::is_submit(w),
        28 => form::is_plan(w),
        _ => false,
    }
}

// The report calls and the questions.
pub fn is_read(w: &[u64]) -> bool
    ensures { result ≡ is_read w.now }
{
    let number = word_at(w, 0);
    match number {
        16..=21 => form::is_reporting(number, w),
        _ => is_question(number, w),
    }
}
