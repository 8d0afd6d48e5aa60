// The nodes of both sites over disks, as one kind.
mod any_node;

pub use any_node::{AnyNode, SystemNode};
