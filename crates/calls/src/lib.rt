// Every call of the library with one type of answer, so that one C function and one theorem over lists of calls serve them all.
#![tactic(auto)]

use models::{Refusal, RequestReport};
use recovery::AbortReport;
use reports::Part;
use session::{Recovery, Session};
use submissions::{PlanSubmission, Submission};

pub mod answers; // answers.rt: the answer of each call as one type

// What a call answers. A refusal is one of the tags that C reads (docs/CALLS.md) and that the theorem over histories names: so this is one enum,
// and no `Result`.
#[derive(Clone, Copy)]
pub enum Answer {
    Refused(Refusal),
    Pass,
    Begun(Submission),
    PlanBegun(PlanSubmission),
    Report(RequestReport),
    NoReport,
    Asked(u64),
    Number(u64),
    Bytes(Part),
    Recovering(Recovery),
    Recovered(AbortReport),
}

// An answer with the session after it.
#[derive(Clone, Copy)]
pub struct Outcome {
    pub answer: Answer,
    pub session: Session,
}
