// An answer's words (docs/CALLS.md) as the lines of the program `replay`.
ghost use Rattle.std.specs.Prelude.{◌≤◌};

use crate::print;
use std::io;
use std::io::Write;
use words::slices::word_at;

// The store of `replay`: rows, and bytes a row.
const ROWS: u64 = 160;

const ROW_BYTES: u64 = 4096;

// The call was not answered.
pub fn status<W: Write>(out: &mut W, n: u64) -> io::Result<()> {
    print::words(out, b"status", &[n], 0, 1)
}

// A submission that began: its flags, and the buffer that the backend is given. The row is left out: the Rust has none.
fn begun<W: Write>(
    out: &mut W,
    name: &[u8],
    answer: &[u64],
    to: usize,
    area: &[u8],
) -> io::Result<()> {
    print::words(out, name, answer, 18, to)?;
    let row = word_at(answer, 4);
    if row < ROWS {
        part(out, row * ROW_BYTES, word_at(answer, 11), area)?;
    }
    Ok(())
}

// How many items the list at `at` has.
fn items(lists: &[u64], at: usize) -> usize
    ensures { result ≤ 128 }
{
    word_at(lists, at).min(128) as usize
}

// A recovery that began, and the tokens of the affected requests.
fn recover<W: Write>(out: &mut W, answer: &[u64], lists: &[u64]) -> io::Result<()> {
    print::words(out, b"recover", answer, 1, 9)?;
    let n = items(lists, 0);
    print::words(out, b"tokens", lists, 1, 1 + n)
}

// A recovery that was reported, and the ids of the completed and of the aborted requests, three words each.
fn recovered<W: Write>(out: &mut W, answer: &[u64], lists: &[u64]) -> io::Result<()> {
    print::words(out, b"recovered", answer, 1, 16)?;
    let second = 1 + items(lists, 0) * 3;
    print::words(out, b"completed", lists, 1, second)?;
    let end = second + 1 + items(lists, second) * 3;
    print::words(out, b"aborted", lists, second + 1, end)
}

// The answer's own words, and its lists.
pub fn answer<W: Write>(out: &mut W, answer: &[u64], lists: &[u64], area: &[u8]) -> io::Result<()> {
    match word_at(answer, 0) {
        0 => print::words(out, b"refused", answer, 1, 6),
        1 => print::text(out, b"ok\n"),
        2 => begun(out, b"begun", answer, 19, area),
        3 => begun(out, b"plan begun", answer, 30, area),
        4 => print::words(out, b"report", answer, 1, 26),
        5 => print::text(out, b"none\n"),
        6 => print::words(out, b"ask", answer, 1, 2),
        7 => print::words(out, b"number", answer, 1, 2),
        9 => recover(out, answer, lists),
        10 => recovered(out, answer, lists),
        _ => part(out, word_at(answer, 1), word_at(answer, 2), area),
    }
}

// The bytes of `area` from `start` on: nothing where they don't lie within it.
fn part<W: Write>(out: &mut W, start: u64, length: u64, area: &[u8]) -> io::Result<()> {
    let n = area.len() as u64;
    if start <= n && length <= n - start {
        let at = start as usize;
        let end = at + length as usize;
        print::bytes(out, b"bytes", &area[at..end])?;
    }
    Ok(())
}
