// A line of a paper's key as text.
ghost use Rattle.std.specs.Prelude.{◌≡◌, ◌+◌, ◌≤◌, length};
ghost use Rattle.chain.specs.After.{after};
ghost use Rattle.decimal.specs.Text.{appended};
ghost use Rattle.lines.specs.Lines.{line_room, line_text, refused_text};

use crate::Line;
use models::Cause;

// A line at `at`; answers where it ends.
pub(crate) fn put_line(out: &mut [u8], at: usize, line: Line) -> usize
    requires { at + line_room ≤ length out.old }
    ensures { after result out.new ≡ appended (line_text line) at out.old }
{
    let index = decimal::put_field(out, at, line.index, b' ');
    let refusal = decimal::put_field(out, index, line.refusal as u64, b' ');
    let letter = decimal::put_byte(out, refusal, line.letter);
    let space = decimal::put_byte(out, letter, b' ');
    decimal::put_field(out, space, line.held as u64, b'\n')
}

// The only line of a paper that is refused by its size.
pub(crate) fn put_refused(out: &mut [u8]) -> usize
    requires { line_room ≤ length out.old }
    ensures { after result out.new ≡ appended refused_text 0 out.old }
{
    decimal::put_field(out, 0, Cause::PaperSize.number() as u64, b'\n')
}
