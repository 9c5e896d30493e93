// The checks of a submission's device and endpoint, in the order of document 01's table.
#![tactic(auto)]

use models::OperationError;

pub mod target; // target.rt: 26 to 38 and 58
pub mod wants; // wants.rt: which port reading these checks lack

// The port readings that come with a submission; control takes the first alone.
#[derive(Clone, Copy)]
pub struct Readings {
    pub first: Result<u32, OperationError>,
    pub second: Result<u32, OperationError>,
}
