// What the two standards say of the bytes, words and codes that the ledger reads: USB 2.0 chapters 5 and 9, xHCI chapters 5 to 7.
#![tactic(auto)]

pub mod completion; // completion.rt: the completion codes of a transfer
pub mod ports; // ports.rt: the port status word
pub mod setup; // setup.rt: the SETUP packet and the endpoint address

// The parts of a port's status word that the Rust's `PortSnapshot` has.
#[derive(Clone, Copy, Debug, PartialEq, Eq)]
pub struct PortStatus {
    pub connected: bool,
    pub enabled: bool,
    pub resetting: bool,
    pub speed_code: u8,
    pub change_bits: u32,
}
