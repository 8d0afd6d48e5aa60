//! The proposer of Paxos: one attempt to have a batch chosen.
#![tactic(auto)]

mod proposer;
mod tally;

pub use proposer::Proposer;
