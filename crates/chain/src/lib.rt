// Laws that every crate above cites: chains of checks, and lists with their sums, searches and changes of one element.
// They stand in specs/ and proofs/; there is no code.
#![tactic(auto)]
