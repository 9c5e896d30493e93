// The checks of a submission's own fields, and of a completion, in the order of document 01's table.
#![tactic(auto)]

pub mod completion; // completion.rt: 47 and 48, of a backend's completion
pub mod packets; // packets.rt: 4, of isochronous packets
pub mod plan; // plan.rt: 18 to 25, of a control plan
pub mod prepare; // prepare.rt: 6 to 17, of a request
