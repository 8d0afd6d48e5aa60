// The inserts that have their places in the order, found by their tokens and by their ids.
ghost use Rattle.std.specs.Prelude.{◌≡◌, ◌++◌, ◌∷◌, [], ◌&&◌, ◌<◌, List, not, take, length, filter, false, OnOk, OnErr, IfOk};
ghost use Rattle.std.specs.Map.{values_of};
ghost use Rattle.std.specs.HashSet.{contains};
ghost use Rattle.std.specs.List.{IsDistinct-prop};
ghost use Rattle.std.proofs.Props.{props};
ghost use Rattle.event_id.specs.declared.id.EventId.{EventId as Id};
ghost use Rattle.event_id.specs.EventId.{is_same as same_id};
ghost use Rattle.registry_state.specs.declared.Token.{Token as Mark};
ghost use Rattle.registry_state.specs.Same.{same_token};
ghost use Rattle.batch_queue.specs.Waiting.{has_token, IsOnce};
ghost use Rattle.batch_queue.specs.Numbered.{IsNumbered, IsNumbered-prop, with_id, group_at, without, with_all};

use crate::group::Group;
use event_id::EventId;
use registry_state::{Insert, Inserts, Token};
use std::alloc::{AllocError, Global};
use std::collections::{BTreeMap, HashMap, HashSet};

/// Inserts in the order in which they came. No two have one token.
#[derive(Debug, Drop)]
pub(crate) struct Settled {
    next: u64,
    pub(crate) in_order: BTreeMap<u64, Insert>,
    by_id: HashMap<EventId, Group>,
    tokens: HashSet<Token>,
    alloc: Global,
    ghost numbered: { IsNumbered 0 next in_order.entries } by { IsNumbered-prop 0 next in_order.entries },
    ghost grouped: { (i : Id) → group_at by_id i ≡ with_id i in_order.entries } by { Prim.hlevel props },
    ghost marked: { (t : Mark) → contains same_token tokens t ≡ has_token (values_of in_order.entries) t } by { Prim.hlevel props },
    ghost once: { IsOnce (values_of in_order.entries) } by { IsDistinct-prop same_token _ },
}

impl Settled {
    ghost use Rattle.batch_queue.specs.Queue.{settled};

    // None. It takes no memory.
    pub(crate) fn new(alloc: Global) -> Settled
        ensures { settled result ≡ [] }
    {
        Settled {
            next: 0,
            in_order: BTreeMap::new(alloc),
            by_id: HashMap::new(alloc),
            tokens: HashSet::new(alloc),
            alloc,
        }
    }

    // How many.
    pub(crate) fn len(&self) -> usize
        ensures { result ≡ length (settled self.now) }
    {
        self.in_order.len()
    }

    // Whether the token is among them. Constant expected time.
    pub(crate) fn has(&self, token: Token) -> bool
        ensures { result ≡ has_token (settled self.now) token }
    {
        self.tokens.contains(&token)
    }

    // The first of them, with room for one more. Linear in them, with one allocation.
    pub(crate) fn front(&self, count: usize) -> Result<Inserts, AllocError>
        ensures { IfOk result (λ inserts. inserts ≡ take count (settled self.now)) }
    {
        let mut inserts = Inserts::with_capacity(self.alloc, count.min(self.in_order.len() + 1))?;
        for (_, insert) in self.in_order.iter().take(count) {
            inserts.push(*insert)?;
        }
        Ok(inserts)
    }

    // One more, last. Logarithmic expected time. It is refused for want of memory, and once all numbers are used.
    #[tactic(auto, using(crate::proofs::Numbered::insert_last, crate::proofs::Numbered::remove_last))]
    pub(crate) fn push(&mut self, insert: Insert) -> Result<(), AllocError>
        requires { has_token (settled self.old) insert.token ≡ false }
        ensures ok { OnOk result (settled self.new ≡ settled self.old ++ insert ∷ []) }
        ensures err { OnErr result (settled self.new ≡ settled self.old) }
    {
        let number = self.next;
        if number == u64::MAX {
            return Err(AllocError);
        }
        self.tokens.reserve(1)?;
        self.in_order.insert(number, insert)?;
        if join(&mut self.by_id, self.alloc, number, insert).is_err() {
            let _ = self.in_order.remove(&number);
            return Err(AllocError);
        }
        let _ = self.tokens.insert(insert.token);
        self.next = number + 1;
        Ok(())
    }

    // Takes those of the id out. It takes no memory, and logarithmic expected time for each of them.
    pub(crate) fn drop_id(&mut self, id: EventId)
        ensures { settled self.new ≡ filter (λ x. not (same_id id x.id)) (settled self.old) }
    {
        let Some(group) = self.by_id.remove(&id) else {
            return;
        };
        forget(&mut self.in_order, &mut self.tokens, group.as_slice());
    }

    // Those whose ids are in the set, by their numbers. Logarithmic expected time for each of them, and linear in the set.
    pub(crate) fn of_ids(&self, ids: &HashSet<EventId>) -> Result<BTreeMap<u64, Insert>, AllocError>
        ensures { IfOk result (λ picked. values_of picked.entries ≡ filter (λ x. contains same_id ids.now x.id) (settled self.now)) }
    {
        let mut picked = BTreeMap::new(self.alloc);
        for id in ids.iter() {
            self.pick_id(&mut picked, *id)?;
        }
        Ok(picked)
    }

    // Puts those of the id among those that are picked.
    fn pick_id(&self, picked: &mut BTreeMap<u64, Insert>, id: EventId) -> Result<(), AllocError>
        ensures { OnOk result (picked.new.entries ≡ with_all (with_id id self.now.in_order.entries) picked.old.entries) }
    {
        let Some(group) = self.by_id.get(&id) else {
            return Ok(());
        };
        pick(picked, group.as_slice())
    }
}

// Puts an insert last among those of its id.
fn join(
    by_id: &mut HashMap<EventId, Group>,
    alloc: Global,
    number: u64,
    insert: Insert,
) -> Result<(), AllocError>
    ensures ok { OnOk result ((i : Id) → group_at by_id.new i ≡ group_at by_id.old i ++ with_id i ((number, insert) ∷ [])) }
    ensures err { OnErr result ((i : Id) → group_at by_id.new i ≡ group_at by_id.old i) }
{
    if let Some(group) = by_id.get_mut(&insert.id) {
        return group.push(number, insert);
    }
    let group = Group::of(alloc, number, insert)?;
    by_id.insert(insert.id, group)?;
    Ok(())
}

// Takes these out of the order, and their tokens out of the set.
fn forget(in_order: &mut BTreeMap<u64, Insert>, tokens: &mut HashSet<Token>, gone: &[(u64, Insert)])
    ensures order { in_order.new.entries ≡ without gone.now in_order.old.entries }
    ensures tokens { (t : Mark) → contains same_token tokens.new t ≡ (contains same_token tokens.old t && not (has_token (values_of gone.now) t)) }
{
    for (number, insert) in gone {
        let _ = in_order.remove(number);
        let _ = tokens.remove(&insert.token);
    }
}

// Puts these among those that are picked.
fn pick(picked: &mut BTreeMap<u64, Insert>, more: &[(u64, Insert)]) -> Result<(), AllocError>
    ensures { OnOk result (picked.new.entries ≡ with_all more.now picked.old.entries) }
{
    for (number, insert) in more {
        picked.insert(*number, *insert)?;
    }
    Ok(())
}
