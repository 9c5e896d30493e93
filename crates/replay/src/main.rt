// Runs recorded calls in the word format (docs/CALLS.md) and prints their answers, which are held to those of the unchanged Rust.
// A line of input is a call: its words, and after `/` its lent bytes, as decimal numbers. `=` prints the controller's state and what the
// device holds. `#` begins a comment. A line that is none of these is answered by `bad line`, and nothing is run. Input of over 2 MiB is
// answered by `input too long` alone.
#![tactic(auto)]

use std::io;
use std::io::{Read, Write};
use texts::{answers, input, parse, print};
use words::slices::word_at;

// How much text is run; the room has a byte more.
const LIMIT: usize = 2097152;

fn main(rt: HostRuntime) -> io::Result<()> {
    let mut text = [0u8; 2097153];
    let mut session = [0u64; 26];
    let mut bus = [0u64; 10750];
    let mut rows = [0u64; 4160];
    let mut area = [0u8; 655360];
    run(
        &mut rt.stdin(),
        &mut rt.stdout(),
        &mut text,
        &mut session,
        &mut bus,
        &mut rows,
        &mut area,
    )
}

fn run<R: Read, W: Write>(
    reader: &mut R,
    out: &mut W,
    text: &mut [u8],
    session: &mut [u64],
    bus: &mut [u64],
    rows: &mut [u64],
    area: &mut [u8],
) -> io::Result<()> {
    let n = input::read_full(reader, text)?;
    if n > LIMIT {
        return print::text(out, b"input too long\n");
    }
    replay(out, &text[0..n], session, bus, rows, area)
}

fn replay<W: Write>(
    out: &mut W,
    text: &[u8],
    session: &mut [u64],
    bus: &mut [u64],
    rows: &mut [u64],
    area: &mut [u8],
) -> io::Result<()> {
    for line in text.split(|b| *b == b'\n') {
        run_line(out, line, session, bus, rows, area)?;
    }
    Ok(())
}

fn run_line<W: Write>(
    out: &mut W,
    line: &[u8],
    session: &mut [u64],
    bus: &mut [u64],
    rows: &mut [u64],
    area: &mut [u8],
) -> io::Result<()> {
    match line.first() {
        None | Some(b'#') => Ok(()),
        Some(b'=') => show_state(out, session, bus, rows, area),
        _ => run_call(out, line, session, bus, rows, area),
    }
}

fn bad_line<W: Write>(out: &mut W) -> io::Result<()> {
    print::text(out, b"bad line\n")
}

fn run_call<W: Write>(
    out: &mut W,
    line: &[u8],
    session: &mut [u64],
    bus: &mut [u64],
    rows: &mut [u64],
    area: &mut [u8],
) -> io::Result<()> {
    let mut call = [0u64; 2048];
    let mut bytes = [0u8; 4096];
    let Some(words) = parse::words(line, &mut call) else {
        return bad_line(out);
    };
    let Some(given) = parse::bytes(line, &mut bytes) else {
        return bad_line(out);
    };
    answer(
        out,
        &call[0..words],
        &bytes[0..given],
        session,
        bus,
        rows,
        area,
    )
}

fn answer<W: Write>(
    out: &mut W,
    call: &[u64],
    bytes: &[u8],
    session: &mut [u64],
    bus: &mut [u64],
    rows: &mut [u64],
    area: &mut [u8],
) -> io::Result<()> {
    let mut words = [0u64; 32];
    let mut lists = [0u64; 386];
    let status = dispatch::apply(
        session, bus, rows, area, call, bytes, &mut words, &mut lists,
    );
    if status != 0 {
        return answers::status(out, status);
    }
    answers::answer(out, &words, &lists, area)
}

// A count that takes no arguments: 20 and 21.
fn number_of(
    call: u64,
    session: &mut [u64],
    bus: &mut [u64],
    rows: &mut [u64],
    area: &mut [u8],
) -> u64 {
    let mut out = [0u64; 32];
    let mut lists = [0u64; 386];
    let words = [call];
    dispatch::apply(session, bus, rows, area, &words, b"", &mut out, &mut lists);
    out[1]
}

fn show_state<W: Write>(
    out: &mut W,
    session: &mut [u64],
    bus: &mut [u64],
    rows: &mut [u64],
    area: &mut [u8],
) -> io::Result<()> {
    let held = number_of(20, session, bus, rows, area);
    let bytes = number_of(21, session, bus, rows, area);
    print::words(out, b"state", &[word_at(session, 6), held, bytes], 0, 3)
}
