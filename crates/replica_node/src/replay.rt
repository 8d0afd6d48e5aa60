// What the notes of a journal make, where the journal keeps its notes.
ghost use Rattle.std.specs.Prelude.{IfOk};
ghost use Rattle.replica_node.specs.Terms.{kept_of};
ghost use Rattle.replica_node.specs.Core.{Knows};

use paxos_acceptor::{Acceptor, ReplicaNote};
use std::alloc::{AllocError, Global};

// What the notes make, in their order: linear in the notes and their batches, with memory for each place and a copy of
// the batch accepted last there.
pub(crate) fn replay(alloc: Global, notes: &[ReplicaNote]) -> Result<Acceptor, AllocError>
    ensures { IfOk result (λ acceptor. Knows acceptor (kept_of notes.now)) }
{
    let mut acceptor = Acceptor::new(alloc);
    for note in notes {
        let copy = note.copy()?;
        acceptor.make_room()?;
        acceptor.keep(copy);
    }
    Ok(acceptor)
}
