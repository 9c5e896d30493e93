// A paper's key: the calls of each event, made one by one on a store of its own, and a line of text for each.
#![tactic(auto)]

ghost use Rattle.std.specs.Prelude.{◌≡◌, false, ◌+◌, ◌≤◌, length};
ghost use Rattle.io.specs.Counts.{IsPrefixLen};
ghost use Rattle.chain.specs.After.{after};
ghost use Rattle.session.specs.Lent.{lent_of};
ghost use Rattle.calls.specs.Step.{world};
ghost use Rattle.paper.specs.Events.{events_of};
ghost use Rattle.paper.specs.Form.{is_refused_size};
ghost use Rattle.paper_session.specs.Start.{blank_lent, start_on};
ghost use Rattle.decimal.specs.Text.{appended};
ghost use Rattle.lines.specs.Lines.{line_room, text_room, key_text, walk, event_walked, text_from};

use paper::{PaperEvent, form, reader};
use paper_session::{AREA_BYTES, STORE_WORDS};
use session::Session;

mod shown; // shown.rt: what a line shows after an event
mod text; // text.rt: a line as text

// What is printed of an event. The letter is ASCII.
#[derive(Clone, Copy)]
pub struct Line {
    pub index: u64,
    pub refusal: u16,
    pub letter: u8,
    pub held: u8,
}

// Where a walk over a paper stands: the session, and where the text ends.
#[derive(Clone, Copy)]
pub struct Walked {
    pub session: Session,
    pub at: usize,
}

// Room for the lines of a paper: 8,192 events, at most 65 bytes each.
pub const TEXT_ROOM: usize = 8192 * 65;

// An event's calls and its line.
fn mark_event(
    out: &mut [u8],
    at: usize,
    index: u64,
    session: Session,
    bus: &mut [u64],
    rows: &mut [u64],
    area: &mut [u8],
    e: PaperEvent,
) -> Walked
    requires { at + line_room ≤ length out.old }
    ensures { walk (world result.session (lent_of bus.new rows.new area.new)) (after result.at out.new)
        ≡ event_walked index e (world session (lent_of bus.old rows.old area.old)) at out.old }
{
    let marked = marking::mark(session, bus, rows, area, e);
    let line = shown::event_line(index, marked, rows);
    let session = marked.session;
    let at = text::put_line(out, at, line);
    Walked { session, at }
}

// The lines of all events, one after the other; a damaged event's is the last.
fn mark_events(
    paper: &[u8],
    out: &mut [u8],
    session: Session,
    bus: &mut [u64],
    rows: &mut [u64],
    area: &mut [u8],
) -> usize
    requires { (length out.old ≡ text_room) × (is_refused_size (length paper.now) ≡ false) }
    ensures { after result out.new
        ≡ text_from 0 (events_of paper.now) (world session (lent_of bus.old rows.old area.old)) 0 out.old }
{
    let mut own = session;
    let mut at = 0;
    for i in 0..paper.len() / 8 {
        let Some(e) = reader::read(paper, i) else {
            return at;
        };
        let walked = mark_event(out, at, i as u64, own, bus, rows, area, e);
        own = walked.session;
        at = walked.at;
        if form::is_damaged(e) {
            return at;
        }
    }
    at
}

fn mark_all(paper: &[u8], out: &mut [u8]) -> usize
    requires { (length out.old ≡ text_room) × (is_refused_size (length paper.now) ≡ false) }
    ensures { after result out.new
        ≡ text_from 0 (events_of paper.now) (start_on blank_lent) 0 out.old }
{
    let mut bus = [0u64; bus::WORDS];
    let mut rows = [0u64; STORE_WORDS];
    let mut area = [0u8; AREA_BYTES];
    let session = paper_session::start(&mut bus, &mut rows, &area);
    mark_events(paper, out, session, &mut bus, &mut rows, &mut area)
}

// The text of a paper's lines, at the start of `out`; answers how long it is. 56 is the only line of a paper of a refused size.
pub fn key(paper: &[u8], out: &mut [u8; TEXT_ROOM]) -> usize
    ensures text { after result out.new ≡ appended (key_text paper.now) 0 out.old }
    ensures counts { IsPrefixLen result out.new }
{
    if form::is_refused_size(paper.len()) {
        return text::put_refused(out);
    }
    mark_all(paper, out)
}
