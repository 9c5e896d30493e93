// A call's words: which lists of words are calls, and what they say.
#![tactic(auto)]

pub mod arguments; // arguments.rt: a call's arguments, read from words
pub mod form; // form.rt: which words are a call
