//! The registry server of a site: it has batches of inserts chosen by a majority of the replicas, learns them in their
//! order, and answers each insert from them. The rows of its turns stand in `Server.antt` of `turn_defs`.
#![tactic(auto)]

mod epoch_records;
pub mod laws;
mod node;
mod notes;
mod packets;
mod registrar;
mod rows;
mod server_core;
mod shard;
mod shards;
mod station;
mod turn;

pub use epoch_records::EpochRecords;
pub use node::{ServerNode, into_disk, server_node};
pub use notes::HeldEpoch;
pub use registrar::{EpochKept, Registrar};
pub use server_core::ServerCore;
pub use turn::{Change, Turn};
