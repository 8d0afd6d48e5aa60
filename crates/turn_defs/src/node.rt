// Nodes, and what a node's turn takes.
use crate::packet::Packet;

/// A node, by its kind and its number among its kind: dispatchers and servers by site (0 or 1), replicas from 0 on,
/// joiners by their node number, which tokens name.
#[derive(Clone, Copy, Debug, PartialEq, Eq)]
pub enum Node {
    Dispatcher(u8),
    Server(u8),
    Replica(u8),
    Joiner(u16),
}

/// To whom a packet goes: one node, or any joiner of a site.
#[derive(Clone, Copy, Debug, PartialEq, Eq)]
pub enum To {
    Only(Node),
    AnyJoiner(u8),
}

/// What a turn takes.
#[derive(Debug, Drop)]
pub enum Input {
    /// The node comes up.
    Start,
    /// The node does what it has to do by itself.
    Own,
    /// The node sends again what was not answered.
    Tick,
    /// A packet came from this node.
    Deliver { from: Node, packet: Packet },
}
