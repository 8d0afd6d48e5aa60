// What a turn takes and gives.
ghost use Rattle.std.specs.Prelude.{◌≡◌};
ghost use Rattle.registry_server.specs.Terms.{Setting, idle as no_row, ServerKept, ServerLive};
ghost use Rattle.registry_server.specs.Cores.{Gives, IsStep, landed};
ghost use Rattle.registry_server.specs.declared.turn.Change.TheVariants as change;

use crate::notes::HeldEpoch;
use crate::shard::Step;
use std::alloc::Global;
use turn_defs::{Node, Packet};

// What the disk holds once the note is written, if there is one.
pub(crate) fn held_after(held: HeldEpoch, note: Option<HeldEpoch>) -> HeldEpoch
    ensures { (k : ServerKept) → held.epoch ≡ k.epoch → result.epoch ≡ (landed note k).epoch }
{
    match note {
        Some(next) => next,
        None => held,
    }
}

/// What a turn does to the core.
#[derive(Debug, Drop)]
pub enum Change {
    Nothing,
    /// No shard holds back any more.
    Tick,
    /// The greatest round is this, and the shard of this number makes a step.
    One { shard: u8, round: u64, step: Step },
}

/// A decided turn: first the note is written, if there is one, then the packets are sent in their order, and the turn
/// is kept. Keeping reads the note and the change, so the packets may be taken out before.
pub type Turn = site_node::Turn<HeldEpoch, Change>;

// No row applies. It takes no memory.
pub(crate) fn idle(alloc: Global) -> Turn
    ensures gives { (g : Setting) (site : _) (l : ServerLive) → Gives g site l result (no_row l) }
    ensures change { result.change ≡ change.Nothing }
{
    Turn {
        note: None,
        packets: Vec::new(alloc),
        change: Change::Nothing,
    }
}

// These packets, and a step of one shard.
pub(crate) fn one(shard: u8, round: u64, packets: Vec<(Node, Packet)>, step: Step) -> Turn
    ensures { IsStep result shard round packets.items step }
{
    Turn {
        note: None,
        packets,
        change: Change::One { shard, round, step },
    }
}
