// Text of the programs: their input, numbers read from a line, and names, numbers and an answer's words written to their output.
#![tactic(auto)]

pub mod answers; // answers.rt: the answers of `replay`
pub mod input; // input.rt: the whole of an input
pub mod parse; // parse.rt: a line of decimal numbers
pub mod print; // print.rt: names and numbers
