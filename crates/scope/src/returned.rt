// What a reply brings of each request that the backend completed, in words.
ghost use Rattle.std.specs.Prelude.{◌≡◌, ◌+◌, ◌*◌, ◌≤◌, length, eqb};
ghost use Rattle.chain.specs.Lists.{sum_by};
ghost use Rattle.words.specs.Records.{tab};
ghost use Rattle.scope.specs.Returned.{completion_words, read_completion, read_brought, brought_at, given_of, lists_agree};

use models::{BackendCompletion, values};
use words::slices::word_at;

// A completion, and how many bytes of the data area are its own.
#[derive(Clone, Copy)]
pub struct Brought {
    pub completion: BackendCompletion,
    pub given: u64,
}

const WORDS: usize = 11;

// A completion by its first ten words.
pub fn completion(w: &[u64]) -> BackendCompletion
    ensures { result ≡ read_completion w.now }
{
    BackendCompletion {
        actual_length: words::to_option_u64(word_at(w, 5), word_at(w, 6)),
        completion_code: words::to_option_u32(word_at(w, 7)),
        has_data: words::to_flag(word_at(w, 8)),
        error: values::option_error_at(w, 0),
        quiescent: words::to_flag(word_at(w, 9)),
    }
}

fn decode(w: &[u64]) -> Brought
    ensures { result ≡ read_brought w.now }
{
    Brought {
        completion: completion(w),
        given: word_at(w, 10),
    }
}

pub fn brought_at(words: &[u64], k: usize) -> Brought
    requires { k * completion_words + completion_words ≤ length words.now }
    ensures { result ≡ brought_at words.now k }
{
    let at = k * WORDS;
    let end = at + WORDS;
    decode(&words[at..end])
}

// The data lengths of the first n completions sum to the size. A sum that passes it ends the walk, so it can't wrap.
fn sums_to(words: &[u64], n: usize, size: u64) -> bool
    requires { n * completion_words ≡ length words.now }
    ensures { result ≡ eqb (sum_by given_of (tab (brought_at words.now) n)) size }
{
    let mut sum: u64 = 0;
    for k in 0..n {
        let next = words[k * WORDS + 10];
        if next > size - sum {
            return false;
        }
        sum += next;
    }
    sum == size
}

// 49: a completion for each token, and their data lengths sum to the data area.
pub fn lists_agree(tokens: &[u64], words: &[u64], size: usize) -> bool
    ensures { result ≡ lists_agree (length tokens.now) words.now size }
{
    let n = tokens.len();
    let m = words.len();
    if (m / WORDS != n) | (m % WORDS != 0) {
        return false;
    }
    sums_to(words, n, size as u64)
}
