//! What is fixed for a run, the nodes and their numbers, what they send to one another and how it is spelled, and the turn
//! table: what each kind of node does with each input, in `specs/Dispatcher.antt`, `Joiner.antt`, `Server.antt` and
//! `Replica.antt`.
#![tactic(auto)]

mod config;
pub mod laws;
mod limits;
mod node;
mod packet;
mod pair;

pub use config::Config;
pub use limits::{LAST_SLOT, MOST_FLIGHTS, WINDOW};
pub use node::{Input, Node, To};
pub use packet::{Outcome, Packet};
pub use pair::PairRec;
pub use time_shards::MOST_JOINERS;
