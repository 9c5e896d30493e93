// Lists of calls, and what holds of every session that they lead to. The crate has no code; its definitions stand in specs/, its laws in proofs/.
#![tactic(auto)]
