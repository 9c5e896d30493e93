// An event's word: its fields by their widths, and where it stands in a paper.
ghost use Rattle.std.specs.Prelude.{◌≡◌};
ghost use Rattle.paper.specs.Events.{decoded, encoded, event_at};

use crate::PaperEvent;

pub fn decode(word: u64) -> PaperEvent
    ensures { result ≡ decoded word }
{
    PaperEvent {
        kind: (word >> 60) as u8,
        slot: (word >> 52 & 255) as u8,
        endpoint: (word >> 44 & 255) as u8,
        sequence: (word >> 28 & 65535) as u16,
        code: (word >> 20 & 255) as u8,
        length: (word >> 3 & 131071) as u32,
        flags: (word & 7) as u8,
    }
}

// None where a field is over its width: nothing is cut off.
pub fn encode(e: PaperEvent) -> Option<u64>
    ensures { result ≡ encoded e }
{
    if e.kind > 15 || e.length > 131071 || e.flags > 7 {
        return None;
    }
    let front = (u64::from(e.kind) * 256 + u64::from(e.slot)) * 256 + u64::from(e.endpoint);
    let middle = (front * 65536 + u64::from(e.sequence)) * 256 + u64::from(e.code);
    Some((middle * 131072 + u64::from(e.length)) * 8 + u64::from(e.flags))
}

// Event `at` of a paper, counted from 0; bytes after the last whole event are none. An event's first byte is its word's highest.
pub fn event_at(paper: &[u8], at: usize) -> Option<PaperEvent>
    ensures { result ≡ event_at paper.now at }
{
    let (events, _) = paper.as_chunks::<8>();
    let bytes = events.get(at)?;
    Some(decode(u64::from_be_bytes(*bytes)))
}
