// What lies too late for a row that starts so early.
ghost use Rattle.std.specs.Prelude.{◌≡◌, List, map, max, None};
ghost use Rattle.std.specs.List.{fold};
ghost use Rattle.verify_pass.specs.Terms.{note_view};
ghost use Rattle.registry_state.specs.declared.Batch.{Batch as KeptBatch};
ghost use Rattle.verify_pass.specs.TooSoon.{batches_in, batches_of, least_from, least_with as with_least, taken, too_soon_for};

use event_id::EventId;
use paxos_acceptor::ReplicaNote;
use registry_state::{Batch, Insert};

/// What forbids that ids of a timestamp and later ones change their shards.
#[derive(Clone, Copy, Debug, PartialEq, Eq)]
pub enum TooSoon {
    /// Ids up to this bound may have expired.
    Bound(u64),
    /// The first id that isn't earlier, in the order of ids, which may be registered.
    Id(EventId),
}

/// Of what replicas accepted: the greatest bound, and the least of the ids that aren't earlier than a start.
#[derive(Clone, Copy)]
pub struct Latest {
    bound: u64,
    id: Option<EventId>,
}

impl Latest {
    /// Of nothing.
    pub fn new() -> Latest
        ensures { result ≡ record { bound = 0; id = None } }
    {
        Latest { bound: 0, id: None }
    }

    /// Looks at a replica's notes too. Whether anything that it accepted was decided doesn't matter. Linear in the notes; it allocates
    /// nothing.
    pub fn take_all(&mut self, notes: &[ReplicaNote], start: u64)
        ensures { self.new ≡ fold (taken start) self.old (batches_in (map note_view notes.now)) }
    {
        for note in notes {
            self.take_note(note, start);
        }
    }

    /// What forbids that ids from this start on change their shards: the greatest bound that any replica accepted, if it is above the
    /// start, and else the least id that any replica accepted and that isn't earlier.
    pub fn forbids(self, start: u64) -> Option<TooSoon>
        ensures { (vs : List KeptBatch) → self ≡ fold (taken start) (record { bound = 0; id = None }) vs → result ≡ too_soon_for vs start }
    {
        if self.bound > start {
            return Some(TooSoon::Bound(self.bound));
        }
        let id = self.id?;
        Some(TooSoon::Id(id))
    }

    fn take_note(&mut self, note: &ReplicaNote, start: u64)
        ensures { self.new ≡ fold (taken start) self.old (batches_of (note_view note.now)) }
    {
        if let ReplicaNote::Accepted { batch, .. } = note {
            self.take(batch, start);
        }
    }

    fn take(&mut self, batch: &Batch, start: u64)
        ensures { self.new ≡ taken start self.old batch.now }
    {
        self.bound = self.bound.max(batch.bound);
        self.id = least_of(batch.inserts.as_slice(), self.id, start);
    }
}

// The least of this id, if there is one, and those of the inserts that aren't earlier than the start.
fn least_of(inserts: &[Insert], first: Option<EventId>, start: u64) -> Option<EventId>
    ensures { result ≡ least_from start first inserts.now }
{
    let mut least = first;
    for insert in inserts {
        least = least_with(least, insert, start);
    }
    least
}

fn least_with(least: Option<EventId>, insert: &Insert, start: u64) -> Option<EventId>
    ensures { result ≡ with_least start least insert.now }
{
    let id = insert.id;
    if id.micros < start {
        return least;
    }
    match least {
        Some(least) => Some(least.min(id)),
        None => Some(id),
    }
}
