ghost use Rattle.std.specs.Prelude.{◌≡◌, ◌≤◌, ◌++◌, length, filter, not, option_to_list};
ghost use Rattle.std.specs.Map.{values_of};
ghost use Rattle.std.specs.List.{IsDistinct-prop};
ghost use Rattle.std.proofs.Props.{props};
ghost use Rattle.event_id.specs.EventId.{is_same as same_id};
ghost use Rattle.registry_state.specs.declared.TheConstants.{MOST_INSERTS, MOST_WAITING};
ghost use Rattle.registry_state.specs.Same.{same_token};
ghost use Rattle.batch_queue.specs.Waiting.{IsOnce, room_beside};

use crate::Answered;
use crate::ahead::{answered_in, ids_of, push_answered};
use crate::settled::Settled;
use event_id::EventId;
use registry_state::{Batch, Insert, Inserts, MOST_INSERTS, MOST_WAITING, Replays};
use std::alloc::{AllocError, Global};
use std::collections::{BTreeMap, HashSet};

/// Why an insert isn't taken in.
#[derive(Clone, Copy, Debug, PartialEq, Eq)]
pub enum Put {
    /// As many wait as may, and this one isn't among them.
    Full(Insert),
}

/// The inserts that wait, in the order in which they came. No two have one token, and at most 4,096 wait.
///
/// The newest stands apart until room is made for the next one, so that taking an insert in needs no memory.
#[derive(Debug, Drop)]
pub struct BatchQueue {
    settled: Settled,
    newest: Option<Insert>,
    alloc: Global,
    ghost once: { IsOnce (values_of settled.in_order.entries ++ option_to_list newest) } by { IsDistinct-prop same_token _ },
    ghost few: { length (values_of settled.in_order.entries ++ option_to_list newest) ≤ MOST_WAITING } by { Prim.hlevel props },
}

impl BatchQueue {
    ghost use Rattle.std.specs.Prelude.{◌∷◌, [], ◌+◌, ◌<◌, min, take, IfOk, IfErr, OnOk, OnErr, IsErr, ◌==◌};
    ghost use Rattle.registry_state.specs.Registry.{batch_of};
    ghost use Rattle.registry_state.specs.LookBack.{bound_of};
    ghost use Rattle.batch_queue.specs.declared.queue.Put.TheVariants.{Full};
    ghost use Rattle.batch_queue.specs.Waiting.{with_last, HasNoPlace, replays, answered, unanswered, IsUnanswered};
    ghost use Rattle.batch_queue.specs.Queue.{waiting, room};
    ghost use Rattle.batch_queue.specs.Ahead.{HasIds};

    /// Nothing waits. It takes no memory.
    pub fn new(alloc: Global) -> BatchQueue
        ensures { waiting result ≡ [] }
    {
        BatchQueue {
            settled: Settled::new(alloc),
            newest: None,
            alloc,
        }
    }

    /// How many inserts wait.
    pub fn len(&self) -> usize
        ensures len { result ≡ length (waiting self.now) }
        ensures most { result ≤ MOST_WAITING }
        ensures once { IsOnce (waiting self.now) }
    {
        match self.newest {
            Some(_) => self.settled.len() + 1,
            None => self.settled.len(),
        }
    }

    /// Whether nothing waits.
    pub fn is_empty(&self) -> bool
        ensures { result ≡ (length (waiting self.now) == 0) }
    {
        self.len() == 0
    }

    /// Makes room for one insert more. It takes logarithmic expected time, and allocates for the newest insert's place in
    /// the order. It is refused for want of memory alone, or when 2^64 - 1 inserts have come.
    #[tactic(auto, using(crate::proofs::Waiting::once_last))]
    pub fn make_room(&mut self) -> Result<(), AllocError>
        ensures room { OnOk result (0 < room self.new) }
        ensures kept { room self.old ≤ room self.new }
        ensures same { waiting self.new ≡ waiting self.old }
    {
        let Some(newest) = self.newest else {
            return Ok(());
        };
        self.settled.push(newest)?;
        self.newest = None;
        Ok(())
    }

    /// Takes an insert in, last, unless its token waits already. It takes no memory, and constant expected time.
    pub fn put(&mut self, insert: Insert) -> Result<(), Put>
        requires { 0 < room self.old }
        ensures ok { OnOk result (waiting self.new ≡ with_last (waiting self.old) insert) }
        ensures full { IfErr result (λ refused. (refused ≡ Full insert) × HasNoPlace (waiting self.old) insert) }
        ensures no_place { HasNoPlace (waiting self.old) insert → IsErr result }
        ensures err { OnErr result (waiting self.new ≡ waiting self.old) }
        ensures room { room self.old ≤ room self.new + 1 }
    {
        if self.settled.has(insert.token) {
            return Ok(());
        }
        if self.settled.len() == MOST_WAITING {
            return Err(Put::Full(insert));
        }
        self.newest = Some(insert);
        Ok(())
    }

    /// A batch of the first `n`, or of as many as wait, and at most 64. Linear in the batch, with one allocation.
    pub fn front_batch(&self, bound: u64, n: u32) -> Result<Batch, AllocError>
        ensures { IfOk result (λ batch. batch ≡ batch_of bound (take (min n MOST_INSERTS) (waiting self.now))) }
    {
        Ok(Batch {
            bound,
            inserts: self.front((n as usize).min(MOST_INSERTS))?,
        })
    }

    // The first of them.
    fn front(&self, count: usize) -> Result<Inserts, AllocError>
        ensures { IfOk result (λ inserts. inserts ≡ take count (waiting self.now)) }
    {
        let mut inserts = self.settled.front(count)?;
        let Some(newest) = self.newest else {
            return Ok(inserts);
        };
        if count <= self.settled.len() {
            return Ok(inserts);
        }
        inserts.push(newest)?;
        Ok(inserts)
    }

    /// The inserts that the registry would answer had the batch been applied, with the answers, where it answers none of
    /// those that wait as it is. `bound` is the registry's, in microseconds.
    ///
    /// Logarithmic expected time for each insert of the batch and each that is answered, and for each of the latter a
    /// look ahead as well, which is linear in the batch. Where the batch raises the bound, which happens once for each
    /// bound that the batches come with, it looks at each insert that waits, in constant expected time.
    pub fn answered<R: Replays>(
        &self,
        registry: &R,
        bound: u64,
        batch: &Batch,
    ) -> Result<Answered, AllocError>
        ensures { (applied : _) → R.knows registry.now applied → bound ≡ bound_of applied → IsUnanswered applied (waiting self.now)
            → IfOk result (λ all. all ≡ answered (replays (applied ++ batch.now ∷ [])) (waiting self.now)) }
    {
        let ids = ids_of(self.alloc, batch)?;
        if batch.bound > bound {
            return self.answered_among(registry, batch, &ids, &self.settled.in_order);
        }
        let picked = self.settled.of_ids(&ids)?;
        self.answered_among(registry, batch, &ids, &picked)
    }

    // The same among these and the newest, where these are the batch's ids.
    fn answered_among<R: Replays>(
        &self,
        registry: &R,
        batch: &Batch,
        ids: &HashSet<EventId>,
        among: &BTreeMap<u64, Insert>,
    ) -> Result<Answered, AllocError>
        requires { HasIds ids.now batch.now }
        ensures { (applied : _) → R.knows registry.now applied
            → IfOk result (λ all. all ≡ answered (replays (applied ++ batch.now ∷ [])) (values_of among.now.entries ++ option_to_list self.now.newest)) }
    {
        let mut all = answered_in(self.alloc, registry, batch, ids, among)?;
        let Some(newest) = self.newest else {
            return Ok(Answered::from(all));
        };
        push_answered(&mut all, registry, batch, ids, newest)?;
        Ok(Answered::from(all))
    }

    /// Takes those out that have an answer, told which these are. The others keep their order. It takes no memory, and
    /// logarithmic expected time for each that is told.
    #[tactic(auto, using(crate::proofs::Words::drop_all, crate::proofs::Answering::dropped, crate::proofs::Answering::dropped_answered))]
    pub fn drop_answered(&mut self, all: &Answered)
        ensures left { (vs : _) → all.now ≡ answered (replays vs) (waiting self.old) → waiting self.new ≡ unanswered (replays vs) (waiting self.old) }
        ensures room { room self.old ≤ room self.new }
    {
        for (insert, _) in all.as_slice() {
            self.drop_id(insert.id);
        }
    }

    // Takes those of the id out.
    fn drop_id(&mut self, id: EventId)
        ensures left { waiting self.new ≡ filter (λ x. not (same_id id x.id)) (waiting self.old) }
        ensures room { room self.old ≤ room self.new }
    {
        self.settled.drop_id(id);
        self.newest = other_than(id, self.newest);
    }
}

// The insert, unless it is of the id.
fn other_than(id: EventId, insert: Option<Insert>) -> Option<Insert>
    ensures left { option_to_list result ≡ filter (λ x. not (same_id id x.id)) (option_to_list insert) }
    ensures room { room_beside insert ≤ room_beside result }
{
    match insert {
        Some(insert) if insert.id != id => Some(insert),
        _ => None,
    }
}
