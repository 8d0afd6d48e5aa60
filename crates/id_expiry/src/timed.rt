ghost use Rattle.std.specs.Prelude.{◌≡◌, ◌≤◌, ◌<◌, ◌-◌, length, not, nat_lt, filter, Some, None, IsSome, IfSome, IfNone, IfOk, OnOk, OnErr, if◌then◌else◌, vec_capacity};
ghost use Rattle.std.specs.BTreeMap.{get};
ghost use Rattle.event_id.specs.declared.id.EventId.{EventId as Id};
ghost use Rattle.event_id.specs.EventId.{is_same as same_id};
ghost use Rattle.registry_state.specs.LookBack.{first_in, or_else};
ghost use Rattle.registry_state.specs.Recalls.{above};
ghost use Rattle.id_expiry.specs.Times.{by_time as time_cmp, of_id};

use crate::by_time::{ByTime, by_time};
use event_id::EventId;
use registry_state::{Answer, Answers, Batch, Insert, Replays, Token, against, answer_each};
use std::alloc::{AllocError, Global};
use std::collections::BTreeMap;

/// Which token holds each id, and the bound in microseconds below which ids are too old.
///
/// It answers as a plain registry does. It keeps the ids in the order of their times, so that raising the bound finds the
/// ids below it without a look at the others. The newest stand apart, in a list with reserved room, until room is made for
/// more: an ordered map can't reserve any.
#[derive(Debug, Drop)]
pub struct TimedRegistry {
    bound: u64,
    held: BTreeMap<ByTime, Token>,
    newest: Vec<Insert>,
    alloc: Global,
}

impl TimedRegistry {
    ghost use Rattle.std.specs.Prelude.{◌++◌, ◌∷◌, [], ◌+◌};
    ghost use Rattle.registry_state.specs.Registry.{answers_to, batch_of};
    ghost use Rattle.registry_state.specs.LookBack.{bound_of, holder, replay};
    ghost use Rattle.id_expiry.specs.Timed.{Knows, IsUnchanged, room, token_of};

    /// Without ids, the bound 0. It takes no memory.
    pub fn new(alloc: Global) -> TimedRegistry
        ensures { Knows result [] }
    {
        TimedRegistry {
            bound: 0,
            held: BTreeMap::new(alloc),
            newest: Vec::new(alloc),
            alloc,
        }
    }

    /// Applies a batch, all of it or, where memory runs out, nothing: the bound rises to the batch's, ids below
    /// it are dropped, and the inserts are answered in order.
    ///
    /// Logarithmic time an insert and an id dropped, and for each insert a look at the batch. It allocates the answers, and
    /// room for ids where there is none.
    pub fn apply(&mut self, batch: &Batch) -> Result<Answers, AllocError>
        ensures answers { IfOk result (λ answers. (applied : _) → Knows self.old applied → answers ≡ answers_to applied batch.now) }
        ensures known { OnOk result ((applied : _) → Knows self.old applied → Knows self.new (applied ++ batch.now ∷ [])) }
        ensures err { OnErr result (IsUnchanged self.old self.new) }
    {
        let inserts = batch.inserts.as_slice();
        let blank = vec![in self.alloc; Answer::Granted; inserts.len()]?;
        self.make_room(batch)?;
        self.learn(batch);
        Ok(answer_each(self, inserts, blank))
    }

    /// Makes room for the ids of a batch, so that it can be learned. It changes nothing else.
    ///
    /// Logarithmic time for each id that was learned since room was made last. It allocates their places in the order, and
    /// where there isn't room for as many ids more as the batch has inserts.
    pub fn make_room(&mut self, batch: &Batch) -> Result<(), AllocError>
        ensures room { OnOk result (length batch.now.inserts ≤ room self.new) }
        ensures kept { room self.old ≤ room self.new }
        ensures known { (applied : _) → Knows self.old applied → Knows self.new applied }
        ensures same { IsUnchanged self.old self.new }
    {
        put_all(&mut self.held, &self.newest)?;
        self.newest.clear();
        self.newest.reserve(batch.inserts.as_slice().len())
    }

    /// Applies a batch for whose inserts room was made. It takes no memory.
    ///
    /// Logarithmic time an insert and an id dropped, and for each insert a look at those learned since room was made.
    pub fn learn(&mut self, batch: &Batch)
        requires { length batch.now.inserts ≤ room self.old }
        ensures known { (applied : _) → Knows self.old applied → Knows self.new (applied ++ batch.now ∷ []) }
        ensures room { room self.old ≤ room self.new + length batch.now.inserts }
    {
        self.purge(batch.bound);
        for insert in batch.inserts.as_slice() {
            self.claim(*insert);
        }
    }

    /// Raises the bound, and drops the ids below it, as a batch of that bound without inserts does. It takes no memory.
    ///
    /// Logarithmic time an id dropped, and where the bound rises a look at those learned since room was made.
    pub fn purge(&mut self, bound: u64)
        ensures known { (applied : _) → Knows self.old applied → Knows self.new (applied ++ batch_of bound [] ∷ []) }
        // The ids that stay are those that are held and not below the bound.
        ensures kept { (applied : _) → Knows self.old applied → (id : _) → token_of self.new id ≡ above bound id (token_of self.old id) }
        ensures room { room self.old ≤ room self.new }
    {
        if bound > self.bound {
            self.bound = bound;
            drop_below(&mut self.held, bound);
            keep_from(&mut self.newest, bound);
        }
    }

    /// What the insert of the id by the token is answered now: none where the id is neither held nor below the
    /// bound. Logarithmic time, and a look at those learned since room was made.
    pub fn replay(&self, id: EventId, token: Token) -> Option<Answer>
        ensures { (applied : _) → Knows self.now applied → result ≡ replay applied id token }
    {
        if id.micros < self.bound {
            return Some(Answer::TooOld(self.bound));
        }
        let holder = self.holder(id)?;
        Some(against(token, holder))
    }

    /// What it would be answered had the batch been applied. It takes no memory, and time linear in the batch beside that
    /// of a replay.
    pub fn replay_after(&self, batch: &Batch, id: EventId, token: Token) -> Option<Answer>
        ensures { (applied : _) → Knows self.now applied → result ≡ replay (applied ++ batch.now ∷ []) id token }
    {
        let bound = self.bound.max(batch.bound);
        if id.micros < bound {
            return Some(Answer::TooOld(bound));
        }
        let holder = self.holder_after(batch, id)?;
        Some(against(token, holder))
    }

    /// The token that holds the id, none where none does or the id is below the bound. Logarithmic time, and a look at those
    /// learned since room was made.
    pub fn holder(&self, id: EventId) -> Option<Token>
        ensures token { result ≡ token_of self.now id }
        ensures holder { (applied : _) → Knows self.now applied → result ≡ holder applied id }
    {
        match self.held.get(&by_time(id)) {
            Some(token) => Some(*token),
            None => earliest(&self.newest, id),
        }
    }

    /// The greatest bound of the batches applied, 0 where there was none.
    pub fn bound(&self) -> u64
        ensures { (applied : _) → Knows self.now applied → result ≡ bound_of applied }
    {
        self.bound
    }

    // The token that has the id, or else that of the batch's earliest insert of it.
    fn holder_after(&self, batch: &Batch, id: EventId) -> Option<Token>
        ensures { result ≡ or_else (token_of self.now id) (first_in batch.now.inserts id) }
    {
        match self.holder(id) {
            Some(holder) => Some(holder),
            None => batch.inserts.claimant(id),
        }
    }

    // Gives the id to the token, unless another has it or it is below the bound.
    fn claim(&mut self, insert: Insert)
        requires { 0 < room self.old }
        ensures known { (applied : _) (bound : _) (inserts : _) → Knows self.old (applied ++ batch_of bound inserts ∷ []) → Knows self.new (applied ++ batch_of bound (inserts ++ insert ∷ []) ∷ []) }
        ensures room { room self.old ≤ room self.new + 1 }
    {
        if insert.id.micros >= self.bound && self.holder(insert.id).is_none() {
            let _ = self.newest.push(insert);
        }
    }
}

impl Replays for TimedRegistry {
    ghost use Rattle.id_expiry.specs.Timed.{Knows};

    ghost knows = { Knows };

    fn replay(&self, id: EventId, token: Token) -> Option<Answer> {
        self.replay(id, token)
    }

    fn replay_after(&self, batch: &Batch, id: EventId, token: Token) -> Option<Answer> {
        self.replay_after(batch, id, token)
    }
}

// The token of the earliest insert of the id.
fn earliest(inserts: &[Insert], id: EventId) -> Option<Token>
    ensures { result ≡ first_in inserts.now id }
{
    for insert in inserts {
        if insert.id == id {
            return Some(insert.token);
        }
    }
    None
}

// Puts these in, but for the ids that are there. Where memory runs out some of them are in.
fn put_all(held: &mut BTreeMap<ByTime, Token>, inserts: &[Insert]) -> Result<(), AllocError>
    ensures all { OnOk result ((id : Id) → get time_cmp held.new (of_id id) ≡ or_else (get time_cmp held.old (of_id id)) (first_in inserts.now id)) }
    ensures some { (id : Id) → or_else (get time_cmp held.new (of_id id)) (first_in inserts.now id) ≡ or_else (get time_cmp held.old (of_id id)) (first_in inserts.now id) }
{
    for insert in inserts {
        put(held, insert.id, insert.token)?;
    }
    Ok(())
}

// Gives the id to the token, unless another has it.
fn put(held: &mut BTreeMap<ByTime, Token>, id: EventId, token: Token) -> Result<(), AllocError>
    ensures ok { OnOk result ((i : Id) → get time_cmp held.new (of_id i) ≡ or_else (get time_cmp held.old (of_id i)) (if same_id id i then Some token else None)) }
    ensures err { OnErr result ((i : Id) → get time_cmp held.new (of_id i) ≡ get time_cmp held.old (of_id i)) }
{
    let timed = by_time(id);
    if !held.contains_key(&timed) {
        held.insert(timed, token)?;
    }
    Ok(())
}

// Drops the ids below the bound, the earliest first.
fn drop_below(held: &mut BTreeMap<ByTime, Token>, bound: u64)
    ensures { (id : Id) → get time_cmp held.new (of_id id) ≡ above bound id (get time_cmp held.old (of_id id)) }
{
    while let Some(timed) = first_below(held, bound) {
        let _ = held.remove(&timed);
    }
}

// Drops the inserts below the bound.
fn keep_from(inserts: &mut Vec<Insert>, bound: u64)
    ensures items { inserts.new.items ≡ filter (λ x. not (nat_lt x.id.micros bound)) inserts.old.items }
    ensures room { vec_capacity inserts.old - length inserts.old.items ≤ vec_capacity inserts.new - length inserts.new.items }
{
    inserts.retain(|insert| insert.id.micros >= bound);
}

// The earliest id, if it is below the bound.
fn first_below(held: &BTreeMap<ByTime, Token>, bound: u64) -> Option<ByTime>
    ensures below { IfSome result (λ t. t.micros < bound) }
    ensures held { IfSome result (λ t. IsSome (get time_cmp held.now t)) }
    ensures none { IfNone result ((id : Id) → IsSome (get time_cmp held.now (of_id id)) → bound ≤ id.micros) }
{
    let (first, _) = held.first_key_value()?;
    if first.micros < bound {
        Some(*first)
    } else {
        None
    }
}
