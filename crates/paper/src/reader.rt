// A reader: a paper and a position in it. The work is `events::event_at`, which takes a plain slice. Who has a paper and a position and no reader
// calls `read`.
ghost use Rattle.std.specs.Prelude.{◌≡◌};
ghost use Rattle.paper.specs.Events.{event_at};

use crate::{PaperEvent, events};

// `at` counts events, from 0.
#[derive(Clone, Copy)]
pub struct Reader<'a> {
    pub paper: &'a [u8],
    pub at: usize,
}

impl<'a> Reader<'a> {
    // At the first event.
    pub fn new(paper: &'a [u8]) -> Self
        ensures { (result.paper ≡ paper.entry) × (result.at ≡ 0) }
    {
        Reader { paper, at: 0 }
    }

    // The same paper at another position.
    pub fn seek(self, at: usize) -> Self
        ensures { (result.paper ≡ self.entry.paper) × (result.at ≡ at) }
    {
        Reader { at, ..self }
    }

    // The event at the position; none at the paper's end.
    pub fn next(self) -> Option<PaperEvent>
        ensures { result ≡ event_at self.entry.paper.now self.entry.at }
    {
        events::event_at(self.paper, self.at)
    }
}

// The event at a position of a paper, through a reader.
pub fn read(paper: &[u8], at: usize) -> Option<PaperEvent>
    ensures { result ≡ event_at paper.now at }
{
    Reader::new(paper).seek(at).next()
}
