// A paper (document 02, M-100) from a reader: the programs pass the standard input.
#![tactic(auto)]

ghost use Rattle.std.specs.Prelude.{ℕ, ◌<◌, ◌≤◌, length, take, IfOk, OnErr};
ghost use Rattle.std.specs.Io.{ReadsAtMost};
ghost use Rattle.std.specs.Io.KnownBytes.{Consumes, IsAtEnd};

use std::io;
use std::io::Read;
use texts::input;

// Room for a byte more than the largest paper has, by which a longer one is seen.
pub const PAPER_ROOM: usize = 65537;

// Reads until the input ends, a read fails or the room is full, and answers how many bytes came.
pub fn read_paper<R: Read>(reader: &mut R, paper: &mut [u8]) -> io::Result<usize>
    ensures count { ReadsAtMost result paper.new }
    ensures bytes { IfOk result (λ n. Consumes (R.remaining reader.old) (R.remaining reader.new) (take n paper.new)) }
    ensures whole { IfOk result (λ n. n < length paper.new → IsAtEnd (R.remaining reader.new)) }
    ensures failed { OnErr result ((n : ℕ) × (n ≤ length paper.new) × Consumes (R.remaining reader.old) (R.remaining reader.new) (take n paper.new)) }
{
    input::read_full(reader, paper)
}
