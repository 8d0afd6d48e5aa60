//! A replica: it promises and accepts ballots, place by place, and writes each promise and each acceptance down before
//! it answers. The rows of its turns stand in `Replica.antt` of `turn_defs`.
#![tactic(auto)]

mod answers;
pub mod laws;
mod node;
mod replay;
mod replica_core;
mod turn;
mod vote_records;
mod voter;

pub use node::{ReplicaNode, into_disk, replica_node};
pub use replica_core::ReplicaCore;
pub use turn::{Change, Turn};
pub use vote_records::VoteRecords;
pub use voter::{Voter, VotesKept};
