//! What a node is, of whatever kind: a turn, and what is left of one that was stopped. A node of any kind is a core, which
//! decides its turns, over the records that it keeps.
#![tactic(auto)]

mod deciding;
mod kind;
mod node;
mod reading;
mod records;
mod spelling;

pub use deciding::{Core, Turn};
pub use kind::{Done, NodeDisk, NodeFault, SiteNode, fault_of, told_note};
pub use node::Node;
pub use reading::read_input;
pub use records::Records;
pub use spelling::{number_of, spell};
