// An answer's words, and those of the lists beside it.
#![tactic(auto)]

pub mod encode; // encode.rt: an answer as words
pub mod lists; // lists.rt: the lists beside an answer
