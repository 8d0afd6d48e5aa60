// What a turn gives.
ghost use Rattle.std.specs.Prelude.{◌≡◌, [], None};

use paxos_acceptor::{Acceptor, ReplicaNote};
use std::alloc::Global;

/// What the core goes on from.
#[derive(Drop)]
pub enum Change {
    /// What it knows.
    Stays,
    /// What its journal says.
    Starts(Acceptor),
}

/// What a turn writes and sends. The note has to stand in the journal before the turn is kept, and before a packet goes
/// out.
pub type Turn = site_node::Turn<ReplicaNote, Change>;

// Nothing to write or send. It takes no memory.
pub(crate) fn idle(alloc: Global, change: Change) -> Turn
    ensures note { result.note ≡ None }
    ensures packets { result.packets.items ≡ [] }
    ensures change { result.change ≡ change }
{
    Turn {
        note: None,
        packets: Vec::new(alloc),
        change,
    }
}
