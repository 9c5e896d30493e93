// Submissions: the Rust's services/requests.rs and `submit_control_plan` of services/explicit.rs. One call answers with what the
// backend is to do, one takes its reply.
#![tactic(auto)]

use checks::plan::ValidatedControlPlan;
use models::{ControlPlan, OperationError, Refusal, RequestId, RequestMetadata, RequestSpec};
use session::Session;
use targets::Readings;

pub mod admit; // admit.rt: 1 to 25, before the device is looked at
mod begin; // begin.rt: 26 to 39 and 58, and what a submission writes
pub mod plan; // plan.rt: the submission of a control plan
pub mod submit; // submit.rt: the submission of a request
pub mod submit_reply; // submit_reply.rt: the backend's reply to either
pub mod wants; // wants.rt: which port reading a submission lacks

// A request as its caller asks for it. The bytes are the data of an OUT; packets are given for an isochronous one alone.
#[derive(Clone, Copy)]
pub struct NewRequest<'a> {
    pub spec: RequestSpec,
    pub bytes: &'a [u8],
    pub packets: Option<&'a [u64]>,
    pub readings: Readings,
}

// A control plan as its caller asks for it. It is control, so it has one port reading.
#[derive(Clone, Copy)]
pub struct NewPlan<'a> {
    pub plan: ControlPlan,
    pub bytes: &'a [u8],
    pub reading: Result<u32, OperationError>,
}

// What the backend is to do for a request. Its buffer is the first bytes of the row's part of the area; packets are the caller's
// list, and the flag is C's word.
#[derive(Clone, Copy)]
pub struct Submission {
    pub id: RequestId,
    pub row: u64,
    pub metadata: RequestMetadata,
    pub has_packets: bool,
}

// What the backend is to do for a control plan. Its SETUP bytes are `standards::setup::setup_bytes` of the metadata's packet.
#[derive(Clone, Copy)]
pub struct PlanSubmission {
    pub id: RequestId,
    pub row: u64,
    pub plan: ValidatedControlPlan,
}
