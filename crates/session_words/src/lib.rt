// The session as words.
#![tactic(auto)]

pub mod fields; // fields.rt: single fields, read and written in place
pub mod state; // state.rt: whole sessions
