// A paper of the examination board: events of 64 bits, most significant bit first (document 02, M-100).
#![tactic(auto)]

pub mod events; // events.rt: an event's word, and the events of a paper
pub mod form; // form.rt: 56 and 57, and an event's flags
pub mod reader; // reader.rt: a paper with a position in it

// One event by its fields, as wide as the format has them. Kinds by their number, since a number above 5 is a damaged event (57): 0 submit, 1 poll with its reply, 2 cancel, 3 timeout, 4 reclaim, 5 abort.
#[derive(Clone, Copy)]
pub struct PaperEvent {
    pub kind: u8,
    pub slot: u8,
    pub endpoint: u8,
    pub sequence: u16,
    pub code: u8,
    pub length: u32,
    pub flags: u8,
}
