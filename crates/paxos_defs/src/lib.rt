//! Definitions of Paxos that several crates cite, and their laws. They hold for any kind of value and any number of
//! replicas.
#![tactic(auto)]

pub mod laws;

/// How many replicas there may be.
pub const MOST_REPLICAS: u8 = 5;

/// A slot of a shard's sequence of values. One instance of Paxos decides each place.
#[derive(Clone, Copy, Debug, PartialEq, Eq, Hash)]
pub struct Place {
    /// The number of the shard.
    pub shard: u8,
    /// The number of the value in the shard's sequence, from 0.
    pub slot: u64,
}
