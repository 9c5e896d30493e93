// The words of questions and of their answers.
#![tactic(auto)]

pub mod encode; // encode.rt: an answer to a question as words
pub mod form; // form.rt: which words are a question
