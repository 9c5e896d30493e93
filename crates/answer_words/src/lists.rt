// The lists beside an answer, each its length and then its items.
ghost use Rattle.std.specs.Prelude.{◌≡◌, ◌+◌, ◌*◌, ◌≤◌, min, length, take};
ghost use Rattle.words.specs.Records.{splice};
ghost use Rattle.models.specs.Values.{request_id_words};
ghost use Rattle.rows.specs.Table.{read_rows};
ghost use Rattle.recovery.specs.Reports.{ids_of, many_in};
ghost use Rattle.answer_words.specs.Lists.{token_list, id_list, begun_lists, part_lists, recovered_lists, put_lists};

use models::RequestId;
use recovery::{Begun, Replied};
use rows::columns;
use words::slices;

// How many words the lists of an answer have at most.
pub const WORDS: usize = 386;

fn up_to_128(n: u64) -> usize
    ensures { result ≡ min n 128 }
{
    n.min(128) as usize
}

fn put_tokens(lists: &mut [u64], tokens: [u64; 128], count: u64)
    ensures { lists.new ≡ put_lists (token_list (take count tokens)) lists.old }
{
    let n = up_to_128(count);
    if lists.len() <= n {
        return;
    }
    slices::copy(lists, 0, &[n as u64], 1);
    slices::copy(lists, 1, &tokens, n);
}

// Three words.
fn put_id(lists: &mut [u64], at: usize, id: RequestId)
    requires { at + 3 ≤ length lists.old }
    ensures { lists.new ≡ splice at (request_id_words id) lists.old }
{
    slices::copy(lists, at, &[id.session, id.generation, id.sequence], 3);
}

// The ids of the rows at the places, from `at` on.
fn put_ids(lists: &mut [u64], at: usize, rows: &[u64], places: &[usize])
    requires { (at + 1 + length places.now * 3 ≤ length lists.old) × (length places.now ≤ 128) }
    ensures { lists.new
        ≡ splice at (id_list (ids_of (read_rows rows.now) places.now)) lists.old }
{
    let n = places.len();
    slices::copy(lists, at, &[n as u64], 1);
    for k in 0..n {
        let id = columns::id_in(rows, places[k]);
        put_id(lists, at + 1 + k * 3, id);
    }
}

// The ids at the first n places, and at the next m.
fn put_parts(lists: &mut [u64], rows: &[u64], places: [usize; 128], n: usize, m: usize)
    requires { n + m ≤ 128 }
    ensures { lists.new
        ≡ put_lists (part_lists (read_rows rows.now) places n m) lists.old }
{
    let end = n + m;
    let second = 1 + n * 3;
    if lists.len() < second + 1 + m * 3 {
        return;
    }
    put_ids(lists, 0, rows, &places[..n]);
    put_ids(lists, second, rows, &places[n..end]);
}

// The tokens of the requests that a recovery affects; a refusal has none.
pub fn write_begun(lists: &mut [u64], begun: Begun)
    ensures { lists.new ≡ put_lists (begun_lists begun) lists.old }
{
    if begun.answer.is_ok() {
        put_tokens(lists, begun.tokens, begun.count);
    }
}

// The ids of the requests that a recovery completed, and of those that it aborted; a refusal has none.
pub fn write_replied(lists: &mut [u64], rows: &[u64], replied: Replied)
    requires { many_in replied.answer ≤ 128 }
    ensures { lists.new
        ≡ put_lists (recovered_lists replied (read_rows rows.now)) lists.old }
{
    if let Ok(report) = replied.answer {
        put_parts(
            lists,
            rows,
            replied.places,
            report.completed as usize,
            report.aborted as usize,
        );
    }
}
