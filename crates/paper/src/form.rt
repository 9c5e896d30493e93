// What a paper is refused for: 56 by its size, 57 by an event.
ghost use Rattle.std.specs.Prelude.{◌≡◌};
ghost use Rattle.standards.specs.Fields.{bit};
ghost use Rattle.paper.specs.Form.{is_refused_size, is_damaged};

use crate::PaperEvent;

// 56: over 65,536 bytes, or no multiple of 8.
pub fn is_refused_size(size: usize) -> bool
    ensures { result ≡ is_refused_size size }
{
    (size > 65536) | (size % 8 != 0)
}

// 57: the kind is above 5, or a field that it does not use is not zero.
pub fn is_damaged(e: PaperEvent) -> bool
    ensures { result ≡ is_damaged e }
{
    if e.kind > 5 {
        return true;
    }
    if e.kind == 0 {
        return (e.sequence != 0) | (e.code != 0) | (e.flags != 0);
    }
    if e.kind == 1 {
        return false;
    }
    (e.code != 0) | (e.length != 0) | (e.flags != 0)
}

// The first flag: a poll's event brings a completion.
pub fn has_completion(e: PaperEvent) -> bool
    ensures { result ≡ bit 2 e.flags }
{
    e.flags & 4 != 0
}

// The second: the completion has an error.
pub fn has_error(e: PaperEvent) -> bool
    ensures { result ≡ bit 1 e.flags }
{
    e.flags & 2 != 0
}

// The third.
pub fn is_quiescent(e: PaperEvent) -> bool
    ensures { result ≡ bit 0 e.flags }
{
    e.flags & 1 != 0
}
