// Changes of one request and what the ledger reports: the Rust's services/requests.rs.
#![tactic(auto)]

use models::{Refusal, RequestId, RequestReport};
use session::Session;

pub mod answers; // answers.rt: refusals with the session they leave, and what a backend's error marks
pub mod change; // change.rt: cancel, its withdrawal, timeout and reclaim
pub mod scan; // scan.rt: reports in the order of the rows
pub mod status; // status.rt: reports by id, completed bytes and tallies

// The report of a row, and the row's number.
#[derive(Clone, Copy)]
pub struct PlacedReport {
    pub place: u64,
    pub report: RequestReport,
}

// Bytes of the lent area, by where they start and how many they are.
#[derive(Clone, Copy)]
pub struct Part {
    pub start: u64,
    pub length: u64,
}
