// Endpoint recovery: the Rust's services/recovery.rs. A recovery is two calls: one says what the backend is to do, one brings its reply.
#![tactic(auto)]

use models::{DeviceId, OperationError, Refusal, RequestId};
use session::{Recovery, Session};

mod entries; // entries.rt: a reply's entries, applied in order
pub mod recover; // recover.rt: the start: abort, or reset of an endpoint
pub mod recovery_reply; // recovery_reply.rt: the backend's reply, by row indices and by request ids

// A recovery's start; beside its answer the tokens of the affected requests by ascending id, and how many they are: an array and a
// count, since the library has no heap.
#[derive(Clone, Copy)]
pub struct Begun {
    pub answer: Result<Recovery, Refusal>,
    pub session: Session,
    pub tokens: [u64; 128],
    pub count: u64,
}

// What the backend says of a recovery beside its lists: whether the endpoint may be used again, and what went wrong on the way.
#[derive(Clone, Copy)]
pub struct BackendAbort {
    pub restart_ready: bool,
    pub error: Option<OperationError>,
}

// What comes with a reply: the tokens that the backend completed, the words of their completions, those that it aborted, and the data.
#[derive(Clone, Copy)]
pub struct BackendLists<'a> {
    pub tokens: &'a [u64],
    pub completions: &'a [u64],
    pub aborted: &'a [u64],
    pub bytes: &'a [u8],
}

// How many requests were completed and aborted; their ids stand beside the answer.
#[derive(Clone, Copy)]
pub struct AbortReport {
    pub target: RequestId,
    pub device: DeviceId,
    pub endpoint: u8,
    pub completed: u64,
    pub aborted: u64,
    pub restart_ready: bool,
    pub error: Option<OperationError>,
}

// The ids of completed and of aborted requests, in the order of the reply; places past their number are 0.
#[derive(Clone, Copy)]
pub struct Ids {
    pub completed: [RequestId; 128],
    pub aborted: [RequestId; 128],
}

#[derive(Clone, Copy)]
pub struct Recovered {
    pub answer: Result<AbortReport, Refusal>,
    pub session: Session,
    pub ids: Ids,
}

// A recovery's result by row index: completed rows first, then aborted ones; the rest, and all of a refusal's, are 0.
#[derive(Clone, Copy)]
pub struct Replied {
    pub answer: Result<AbortReport, Refusal>,
    pub session: Session,
    pub places: [usize; 128],
}
