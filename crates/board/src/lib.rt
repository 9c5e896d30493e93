// The board's column: what each line of a paper's key says of the book. The crate has no code; its sentence stands in specs/, its proof in proofs/.
#![tactic(auto)]
