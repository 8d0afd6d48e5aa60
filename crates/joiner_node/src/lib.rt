//! A joiner over its disks and the query log: it keeps its epochs on one disk and the pairs that it wrote on another, and
//! reads the log only as far as its look-ups need. The rows of its turns stand in `Joiner.antt` of `turn_defs`.
#![tactic(auto)]

mod disks;
mod held;
mod joining;
mod node;
mod queries;
mod records;

pub use disks::Disks;
pub use held::HeldEpoch;
pub use joining::{Joining, PairsKept};
pub use node::{JoinerNode, into_disks, joiner_node};
pub use records::FramedNote;
