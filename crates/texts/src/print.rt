// Names and numbers, written to any writer: the programs pass the standard output.
ghost use Rattle.std.specs.Prelude.{◌∷◌, OnOk};
ghost use Rattle.std.specs.Fmt.{decimal};
ghost use Rattle.std.specs.Io.KnownBytes.{Appends};
ghost use Rattle.texts.specs.Lines.{numbered_line, words_between};

use std::io;
use std::io::Write;
use words::slices::word_at;

pub fn text<W: Write>(out: &mut W, s: &[u8]) -> io::Result<()>
    ensures { OnOk result (Appends (W.contents out.old) (W.contents out.new) s.now) }
{
    out.write_all(s)
}

// After a space.
pub fn number<W: Write>(out: &mut W, n: u64) -> io::Result<()>
    ensures { OnOk result (Appends (W.contents out.old) (W.contents out.new) (32 ∷ decimal n)) }
{
    write!(out, " {n}")
}

// In lower case, with zeros in front up to `width` digits, of which 16 are the most.
pub fn hex<W: Write>(out: &mut W, n: u64, width: usize) -> io::Result<()> {
    let width = width.min(16);
    write!(out, "{n:0width$x}")
}

// A line: a name, and the words from `from` up to `to`.
pub fn words<W: Write>(
    out: &mut W,
    name: &[u8],
    w: &[u64],
    from: usize,
    to: usize,
) -> io::Result<()>
    ensures { OnOk result (Appends (W.contents out.old) (W.contents out.new) (numbered_line name.now (words_between w.now from to))) }
{
    text(out, name)?;
    for i in from..to {
        number(out, word_at(w, i))?;
    }
    text(out, b"\n")
}

// A line: a name, and bytes.
pub fn bytes<W: Write>(out: &mut W, name: &[u8], b: &[u8]) -> io::Result<()>
    ensures { OnOk result (Appends (W.contents out.old) (W.contents out.new) (numbered_line name.now b.now)) }
{
    text(out, name)?;
    for byte in b {
        number(out, u64::from(*byte))?;
    }
    text(out, b"\n")
}

// Two digits each, after a space.
pub fn hex_bytes<W: Write>(out: &mut W, b: &[u8]) -> io::Result<()> {
    for byte in b {
        text(out, b" ")?;
        hex(out, u64::from(*byte), 2)?;
    }
    Ok(())
}
