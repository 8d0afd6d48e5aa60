//! What is between the nodes of a run: the history of their turns, and the packets that wait for a node, as a plan of
//! faults says what becomes of each.
#![tactic(auto)]

mod air;
mod entry;
mod history;
mod inbox;
pub mod laws;
mod links;
mod nodes;
mod payload;
mod queue;
pub mod rows;
mod send;
mod trail;

pub use air::Air;
pub use entry::{Entry, Input, Phase};
pub use payload::{Packets, Payload};
pub use trail::Trail;
