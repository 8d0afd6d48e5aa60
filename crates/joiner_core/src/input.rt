// What a joiner's turn takes.
use log_records::{ClickRec, QueryRec};
use turn_defs::{Node, Packet};

/// What a look through the query log found for a click.
#[derive(Debug, Drop)]
pub enum Looked {
    /// The log's first record with the click's query id.
    Found(QueryRec),
    /// There is none, in the whole log, which has so many lines.
    Lines(u64),
}

/// What a joiner's turn takes, with what the node looked up for it.
#[derive(Debug, Drop)]
pub enum JoinerInput {
    /// The node comes up, and its epoch disk keeps this epoch (0 where it has no record).
    Start {
        epoch: u32,
    },
    /// The node does what it has to do by itself, which for a joiner is nothing.
    Own,
    /// The node sends again what was not answered.
    Tick,
    /// The dispatcher has it join the click whose line starts at the position. What was looked up counts only where
    /// `needs_look_up` holds of the click's id.
    Join {
        position: u64,
        click: ClickRec,
        looked: Looked,
    },
    /// Any packet but a Join.
    Packet {
        from: Node,
        packet: Packet,
    },
}
