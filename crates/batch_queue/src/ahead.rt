// What a batch would answer.
ghost use Rattle.std.specs.Prelude.{◌≡◌, ◌++◌, ◌∷◌, [], IfOk, OnOk};
ghost use Rattle.std.specs.Map.{values_of};
ghost use Rattle.registry_state.specs.LookBack.{replay};
ghost use Rattle.batch_queue.specs.Ahead.{HasIds};
ghost use Rattle.batch_queue.specs.Waiting.{answered, replays};

use event_id::EventId;
use registry_state::{Answer, Batch, Insert, Replays, Token};
use std::alloc::{AllocError, Global};
use std::collections::{BTreeMap, HashSet};

// The ids of the batch's inserts, in time linear in them.
#[tactic(auto, using(crate::proofs::Words::drop_more, crate::proofs::Claims::one_more))]
pub(crate) fn ids_of(alloc: Global, batch: &Batch) -> Result<HashSet<EventId>, AllocError>
    ensures { IfOk result (λ ids. HasIds ids batch.now) }
{
    let mut ids = HashSet::new(alloc);
    for insert in batch.inserts.as_slice() {
        ids.insert(insert.id)?;
    }
    Ok(ids)
}

// What the registry would answer, had the batch been applied. Constant expected time where that is nothing; else a look
// ahead.
#[tactic(auto, using(crate::proofs::Claims::none_ahead))]
pub(crate) fn answer_ahead<R: Replays>(
    registry: &R,
    batch: &Batch,
    ids: &HashSet<EventId>,
    id: EventId,
    token: Token,
) -> Option<Answer>
    requires { HasIds ids.now batch.now }
    ensures { (applied : _) → R.knows registry.now applied → result ≡ replay (applied ++ batch.now ∷ []) id token }
{
    let is_young = id.micros >= batch.bound;
    if is_young && !ids.contains(&id) && registry.replay(id, token).is_none() {
        return None;
    }
    registry.replay_after(batch, id, token)
}

// Puts the insert and what it would be answered behind the others, where it would be.
pub(crate) fn push_answered<R: Replays>(
    all: &mut Vec<(Insert, Answer)>,
    registry: &R,
    batch: &Batch,
    ids: &HashSet<EventId>,
    insert: Insert,
) -> Result<(), AllocError>
    requires { HasIds ids.now batch.now }
    ensures { (applied : _) → R.knows registry.now applied
        → OnOk result (all.new.items ≡ all.old.items ++ answered (replays (applied ++ batch.now ∷ [])) (insert ∷ [])) }
{
    let Some(answer) = answer_ahead(registry, batch, ids, insert.id, insert.token) else {
        return Ok(());
    };
    all.push((insert, answer))?;
    Ok(())
}

// Those of these inserts that would be answered, with the answers.
pub(crate) fn answered_in<R: Replays>(
    alloc: Global,
    registry: &R,
    batch: &Batch,
    ids: &HashSet<EventId>,
    inserts: &BTreeMap<u64, Insert>,
) -> Result<Vec<(Insert, Answer)>, AllocError>
    requires { HasIds ids.now batch.now }
    ensures { (applied : _) → R.knows registry.now applied
        → IfOk result (λ all. all.items ≡ answered (replays (applied ++ batch.now ∷ [])) (values_of inserts.now.entries)) }
{
    let mut all = Vec::new(alloc);
    for (_, insert) in inserts.iter() {
        push_answered(&mut all, registry, batch, ids, *insert)?;
    }
    Ok(all)
}
