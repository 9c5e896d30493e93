// Which requests a recovery affects, what its reply returns of them, and the scope of the returned tokens (46).
#![tactic(auto)]

pub mod affected; // affected.rt: the affected rows by ascending id, and their tokens
pub mod returned; // returned.rt: the completions of a reply, decoded from words
pub mod tokens; // tokens.rt: the row that a token means, and whether the returned tokens are in scope
