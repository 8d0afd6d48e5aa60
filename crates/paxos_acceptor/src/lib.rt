//! The acceptor of Paxos: what a replica has promised and accepted in each place, and how it answers proposers.
#![tactic(auto)]

mod acceptor;
mod notes;

pub use acceptor::Acceptor;
pub use notes::{Prepared, ReplicaNote, Taken};
