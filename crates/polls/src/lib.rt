// A poll and its reply: the Rust's services/requests.rs. A poll is two calls: one says what the backend is asked, one brings its reply.
#![tactic(auto)]

use models::{Refusal, RequestReport};
use session::Session;

pub mod poll; // poll.rt: the poll of a request
pub mod poll_reply; // poll_reply.rt: the backend's reply to it

// What a poll answers: the report of a request that is not Pending, or the token to ask the backend for.
#[derive(Clone, Copy)]
pub enum PollAnswer {
    Report(RequestReport),
    Asked(u64),
}
