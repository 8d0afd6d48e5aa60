// What a turn gives.
ghost use Rattle.std.specs.Prelude.{◌≡◌};
ghost use Rattle.dispatch_core.specs.Terms.{option_map};
ghost use Rattle.dispatch_core.specs.Changes.{note_of, told};

use crate::line::FreshLine;
use indexmap::IndexSet;
use std::collections::VecDeque;
use turn_defs::{Node, Packet};

/// A record for one of the dispatcher's disks.
#[derive(Clone, Copy, Debug, PartialEq, Eq)]
pub enum DispatchNote {
    /// The offset is this place now.
    Advance(u64),
    /// This position is pending now, last.
    Park(u64),
    /// This position isn't pending any more.
    Settle(u64),
}

// What a turn makes of the state that it was decided for.
#[derive(Debug, Drop)]
pub(crate) enum Change {
    Nothing,
    // The node is up, at this place.
    Start {
        place: u64,
        pending: IndexSet<u64>,
        due: VecDeque<u64>,
    },
    // The offset moves to this place, and the leading done lines leave the window.
    Advance(u64),
    // The first due position is in trial.
    Retry,
    // The line enters the window.
    Take(FreshLine),
    // No whole line follows the place.
    End,
    // The line at this position is done.
    Finish(u64),
    // It is done and pending.
    Park(u64),
    // The position in trial isn't pending any more.
    Settle(u64),
    // It leaves the trial and stays pending.
    Leave(u64),
}

/// What a turn gives: the packets to send once its record is written, and the step to keep then.
#[derive(Debug, Drop)]
pub struct Turn {
    pub packets: Vec<(Node, Packet)>,
    pub step: Step,
}

/// What the core is to keep of a turn. It is good for the state that the turn was decided for.
#[derive(Debug, Drop)]
pub struct Step {
    pub(crate) next: u8,
    pub(crate) change: Change,
}

impl Step {
    /// The record to write before the packets are sent, if any.
    pub fn note(&self) -> Option<DispatchNote>
        ensures { option_map told result ≡ note_of self.now.change }
    {
        match &self.change {
            Change::Advance(end) => Some(DispatchNote::Advance(*end)),
            Change::Park(position) => Some(DispatchNote::Park(*position)),
            Change::Settle(position) => Some(DispatchNote::Settle(*position)),
            _ => None,
        }
    }
}
