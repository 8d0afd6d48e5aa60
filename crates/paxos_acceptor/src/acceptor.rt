// The acceptor: a map from places to what their notes say.
ghost use Rattle.std.specs.Prelude.{◌≡◌, ◌↔◌, ℕ, ◌<◌, map, IfOk, OnOk};
ghost use Rattle.ballot_core.specs.declared.Ballot.{Ballot as Number};
ghost use Rattle.paxos_defs.specs.declared.Place.{Place};
ghost use Rattle.paxos_defs.specs.Notes.{blank, cell_of, votes_at};
ghost use Rattle.paxos_defs.specs.Turns.{on_prepare, on_accept};
ghost use Rattle.registry_state.specs.Same.{same_batch};
ghost use Rattle.paxos_acceptor.specs.Cells.{cell_at, cell_in, cell_with, room, note_view, prepare_turn, accept_turn, HasPromisedAbove};

use crate::{Prepared, ReplicaNote, Taken};
use ballot_core::Ballot;
use paxos_defs::Place;
use registry_state::Batch;
use std::alloc::{AllocError, Global};
use std::collections::HashMap;

// What is known of a place that has a note.
#[derive(Drop)]
struct Known {
    promised: Ballot,
    accepted: Option<(Ballot, Batch)>,
}

/// What a replica has promised and accepted in each place, as its journal's notes say. A look-up takes constant time
/// on average, however many places there are.
#[derive(Drop)]
pub struct Acceptor {
    places: HashMap<Place, Known>,
}

impl Acceptor {
    /// Of an empty journal. It takes no memory.
    pub fn new(alloc: Global) -> Acceptor
        ensures { (p : Place) → cell_at result p ≡ blank }
    {
        Acceptor {
            places: HashMap::new(alloc),
        }
    }

    /// What the notes of a journal make, in their order: linear in the notes, with memory for each place.
    pub fn replay(alloc: Global, notes: Vec<ReplicaNote>) -> Result<Acceptor, AllocError>
        ensures { IfOk result (λ acceptor. (p : Place) →
            cell_at acceptor p ≡ cell_of (votes_at p (map note_view notes.items))) }
    {
        let mut acceptor = Acceptor::new(alloc);
        for note in notes {
            acceptor.make_room()?;
            acceptor.keep(note);
        }
        Ok(acceptor)
    }

    /// The turn on a Prepare: the note to write first, if any, and the answer. It changes nothing, and copies the prior
    /// batch, if any, by one allocation.
    pub fn on_prepare(
        &self,
        shard: u8,
        slot: u64,
        ballot: Ballot,
    ) -> Result<(Option<ReplicaNote>, Prepared), AllocError>
        ensures turn { IfOk result (λ turn.
            turn ≡ prepare_turn shard slot (on_prepare (cell_in self.now shard slot) ballot)) }
        ensures nack { IfOk result (λ turn. (promised : Number) →
            (turn.1 ≡ Prepared.Nack promised) ↔ HasPromisedAbove (cell_in self.now shard slot) promised ballot) }
    {
        let Some(known) = self.places.get(&Place { shard, slot }) else {
            let note = ReplicaNote::Promised {
                shard,
                slot,
                ballot,
            };
            return Ok((Some(note), Prepared::Promise(None)));
        };
        if known.promised > ballot {
            return Ok((None, Prepared::Nack(known.promised)));
        }
        let prior = match &known.accepted {
            Some((at, batch)) => Some((*at, batch.copy()?)),
            None => None,
        };
        let note = if known.promised == ballot {
            None
        } else {
            Some(ReplicaNote::Promised {
                shard,
                slot,
                ballot,
            })
        };
        Ok((note, Prepared::Promise(prior)))
    }

    /// The turn on an Accept: the note to write first, if any, and the answer. It changes nothing, and copies the batch
    /// for a note, by one allocation.
    pub fn on_accept(
        &self,
        shard: u8,
        slot: u64,
        ballot: Ballot,
        batch: &Batch,
    ) -> Result<(Option<ReplicaNote>, Taken), AllocError>
        ensures turn { IfOk result (λ turn.
            turn ≡ accept_turn shard slot (on_accept same_batch (cell_in self.now shard slot) ballot batch.now)) }
        ensures nack { IfOk result (λ turn. (promised : Number) →
            (turn.1 ≡ Taken.Nack promised) ↔ HasPromisedAbove (cell_in self.now shard slot) promised ballot) }
    {
        if let Some(known) = self.places.get(&Place { shard, slot }) {
            if known.promised > ballot {
                return Ok((None, Taken::Nack(known.promised)));
            }
            if let Some((at, accepted)) = &known.accepted {
                if *at == ballot && accepted.is_same(batch) {
                    return Ok((None, Taken::Accepted));
                }
            }
        }
        let note = ReplicaNote::Accepted {
            shard,
            slot,
            ballot,
            batch: batch.copy()?,
        };
        Ok((Some(note), Taken::Accepted))
    }

    /// Makes room for a note. It takes memory now and then, for as many places again as there are.
    pub fn make_room(&mut self) -> Result<(), AllocError>
        ensures same { (p : Place) → cell_at self.new p ≡ cell_at self.old p }
        ensures room { OnOk result (0 < room self.new) }
    {
        self.places.reserve(1)
    }

    /// Keeps a note that was written, in constant time on average. It takes no memory.
    pub fn keep(&mut self, note: ReplicaNote)
        requires { 0 < room self.old }
        ensures { (p : Place) → cell_at self.new p ≡ cell_with note p (cell_at self.old p) }
    {
        match note {
            ReplicaNote::Promised {
                shard,
                slot,
                ballot,
            } => {
                let place = Place { shard, slot };
                let accepted = match self.places.remove(&place) {
                    Some(known) => known.accepted,
                    None => None,
                };
                let known = Known {
                    promised: ballot,
                    accepted,
                };
                let _ = self.places.insert(place, known);
            }
            ReplicaNote::Accepted {
                shard,
                slot,
                ballot,
                batch,
            } => {
                let known = Known {
                    promised: ballot,
                    accepted: Some((ballot, batch)),
                };
                let _ = self.places.insert(Place { shard, slot }, known);
            }
        }
    }
}
