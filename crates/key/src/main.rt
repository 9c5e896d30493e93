// The key of a paper (document 02, M-100): the paper on standard input, its lines on standard output and nothing else. Nothing is printed before the
// paper's end was seen, or a byte more than the largest has. Where the input fails there is no key: standard error says so.
#![tactic(auto)]

use lines::TEXT_ROOM;
use paper_input::PAPER_ROOM;
use std::io;
use std::io::Write;

fn print_key<W: Write>(out: &mut W, paper: &[u8]) -> io::Result<()> {
    let mut text = [0u8; TEXT_ROOM];
    let n = lines::key(paper, &mut text);
    out.write_all(&text[..n])
}

fn main(rt: HostRuntime) -> io::Result<()> {
    let mut paper = [0u8; PAPER_ROOM];
    let Ok(n) = paper_input::read_paper(&mut rt.stdin(), &mut paper) else {
        return eprintln!(rt; "key: the paper can't be read");
    };
    if print_key(&mut rt.stdout(), &paper[..n]).is_err() {
        return eprintln!(rt; "key: the lines can't be written");
    }
    Ok(())
}
