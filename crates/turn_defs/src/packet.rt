// Packets.
use ballot_core::Ballot;
use log_records::ClickRec;
use paxos_defs::Place;
use registry_state::{Answer, Batch, Insert, Token};

/// What a joiner tells of a join.
#[derive(Clone, Copy, Debug, PartialEq, Eq)]
pub enum Outcome {
    /// The pair stands in the joiner's output log.
    Written,
    /// This other token holds the click's id.
    Already(Token),
    /// The click's time lies below this bound, in microseconds.
    TooOld(u64),
    /// None of the query log's lines, this many, has the click's query.
    NoQuery(u64),
    /// The joiner has as many joins in flight as it may have. The click has to be sent again.
    Busy,
}

/// What one node sends to another.
#[derive(Debug, Drop)]
pub enum Packet {
    /// A dispatcher has a joiner join the click whose line starts at this place of the click log.
    Join {
        position: u64,
        click: ClickRec,
    },
    /// The answer to a Join.
    Joined {
        position: u64,
        outcome: Outcome,
    },
    /// A joiner has its server register an id under a token.
    Insert(Insert),
    /// The answer to an Insert.
    Reply {
        insert: Insert,
        answer: Answer,
    },
    /// A server asks a replica for a promise of the ballot.
    Prepare {
        place: Place,
        ballot: Ballot,
    },
    /// The replica promised the ballot; with what it accepted in that place, if anything.
    Promise {
        place: Place,
        ballot: Ballot,
        prior: Option<(Ballot, Batch)>,
    },
    /// The replica takes no part in the ballot, since it promised a higher one.
    Nack {
        place: Place,
        ballot: Ballot,
        promised: Ballot,
    },
    /// A server asks a replica to accept the value at the ballot.
    Accept {
        place: Place,
        ballot: Ballot,
        batch: Batch,
    },
    /// The replica accepted the value that was sent at the ballot.
    Accepted {
        place: Place,
        ballot: Ballot,
    },
    /// A server tells the other one the value that is chosen in the place.
    Chosen {
        place: Place,
        batch: Batch,
    },
}
