// What a turn takes.
use log_records::ClickRec;
use turn_defs::{Node, Packet};

/// A whole line of the click log: the place of its first byte, the place behind its line feed, and its click.
#[derive(Debug, Drop)]
pub struct TakenLine {
    pub position: u64,
    pub end: u64,
    pub click: ClickRec,
}

/// What a turn of a dispatcher takes, with what its node has looked up for it.
#[derive(Debug, Drop)]
pub enum DispatchInput {
    /// The node comes up. Its disks hold this offset, and these positions are pending, in the order of parking.
    Start {
        offset: u64,
        pending: Vec<u64>,
    },
    /// The node does what it has to do by itself. Where the core looks in the log, `due` is the click at the first due
    /// position; where none is due `line` is the whole line at the place, if there is one. Else they aren't looked at.
    Own {
        line: Option<TakenLine>,
        due: Option<ClickRec>,
    },
    /// The node sends again what was not answered. These are the clicks at the positions in trial, in their order.
    Tick {
        trying: Vec<ClickRec>,
    },
    /// A packet came from this node.
    Packet {
        from: Node,
        packet: Packet,
    },
}
