// The registry of each shard, by the batches that are decided in it.
ghost use Rattle.std.specs.Prelude.{◌≡◌, ◌<◌, ◌+◌, ◌||◌, ℕ, true, List, Some, Contains, length, slice_get, is_some, IfOk, OnOk};
ghost use Rattle.std.specs.BTreeSet.{contains};
ghost use Rattle.std.specs.List.Sorted.{IsStrictlySortedBy};
ghost use Rattle.event_id.specs.declared.id.EventId.{EventId as Id};
ghost use Rattle.verify_pass.specs.Terms.{first_in, first_insert, id_cmp, shard_count, shard_of};
ghost use Rattle.registry_state.specs.declared.Batch.{Batch as Value};
ghost use Rattle.id_expiry.specs.declared.timed.TimedRegistry.{TimedRegistry as State};
ghost use Rattle.std.specs.Bool.{OnTrue, OnFalse};
ghost use Rattle.verify_pass.specs.Chosen.{slots, EndsBy, IsFront};
ghost use Rattle.verify_pass.specs.States.{Ids, Grows, IsAt, IsWhole, HasAt, HasWhole};

use crate::chosen::Chosen;
use event_id::EventId;
use id_expiry::TimedRegistry;
use paxos_defs::Place;
use registry_state::Insert;
use std::alloc::{AllocError, Global};
use std::collections::BTreeSet;
use time_shards::Table;

/// A registry for each shard, which has applied the batches that are decided in it.
///
/// Logarithmic time for each batch, insert and id that expires, and for each insert a look at its batch.
pub fn registries(
    alloc: Global,
    chosen: &Chosen,
    shards: u8,
) -> Result<Vec<TimedRegistry>, AllocError>
    ensures count { IfOk result (λ v. length v.items ≡ shards) }
    ensures known { IfOk result (λ v. EndsBy chosen.now → (s : ℕ) (state : State) → slice_get v.items s ≡ Some state → IsWhole (slots chosen.now s) state) }
{
    let mut registries = Vec::new(alloc);
    for shard in 0..shards {
        let registry = registry(alloc, chosen, shard)?;
        registries.push(registry)?;
    }
    Ok(registries)
}

/// The registry of the id's shard.
pub fn registry_for<'r>(
    registries: &'r [TimedRegistry],
    table: &Table,
    id: EventId,
) -> &'r TimedRegistry
    requires { length registries.now ≡ shard_count table.now }
    ensures { slice_get registries.now (shard_of table.now id) ≡ Some result.now }
{
    &registries[usize::from(table.shard_of(id))]
}

/// The shard of each id is one of the table's.
pub fn each_has_a_shard(table: &Table)
    ensures { (i : Id) → shard_of table.now i < shard_count table.now }
{
    let _ = table.rows();
}

fn registry(alloc: Global, chosen: &Chosen, shard: u8) -> Result<TimedRegistry, AllocError>
    ensures { IfOk result (λ state. EndsBy chosen.now → IsWhole (slots chosen.now shard) state) }
{
    let mut registry = TimedRegistry::new(alloc);
    let last = chosen.last();
    for slot in 0..last {
        if !learn_slot(&mut registry, chosen, shard, slot)? {
            return Ok(registry);
        }
    }
    learn_slot(&mut registry, chosen, shard, last)?;
    Ok(registry)
}

// Applies the batch of the slot, and says whether there is one.
fn learn_slot(
    registry: &mut TimedRegistry,
    chosen: &Chosen,
    shard: u8,
    slot: u64,
) -> Result<bool, AllocError>
    ensures next { IfOk result (λ more. OnTrue more (IsAt (slots chosen.now shard) slot registry.old → IsAt (slots chosen.now shard) (slot + 1) registry.new)) }
    ensures whole { IfOk result (λ more. OnFalse more (IsAt (slots chosen.now shard) slot registry.old → IsWhole (slots chosen.now shard) registry.new)) }
{
    let Some(batch) = chosen.get(Place { shard, slot }) else {
        return Ok(false);
    };
    registry.make_room(batch)?;
    registry.learn(batch);
    Ok(true)
}

/// The ids of the inserts that are decided in the shards below `shards`, each once, in their order. O(n log n) for n
/// inserts.
pub fn inserted(alloc: Global, chosen: &Chosen, shards: u8) -> Result<Vec<EventId>, AllocError>
    ensures rising { IfOk result (λ ids. IsStrictlySortedBy id_cmp ids.items) }
    ensures each { IfOk result (λ ids. EndsBy chosen.now → (s : ℕ) (applied : List Value) (i : Id) → s < shards → IsFront (slots chosen.now s) applied → is_some (first_insert applied i) ≡ true → Contains ids.items i) }
{
    let set = inserted_set(alloc, chosen, shards)?;
    let ids = listed(alloc, set)?;
    Ok(ids)
}

fn listed(alloc: Global, set: BTreeSet<EventId>) -> Result<Vec<EventId>, AllocError>
    ensures { IfOk result (λ ids. ids.items ≡ set.keys) }
{
    set.into_iter().collect(alloc)
}

fn inserted_set(alloc: Global, chosen: &Chosen, shards: u8) -> Result<BTreeSet<EventId>, AllocError>
    ensures rising { IfOk result (λ ids. IsStrictlySortedBy id_cmp ids.keys) }
    ensures each { IfOk result (λ ids. EndsBy chosen.now → (s : ℕ) (applied : List Value) (i : Id) → s < shards → IsFront (slots chosen.now s) applied → is_some (first_insert applied i) ≡ true → contains id_cmp ids i ≡ true) }
{
    let mut ids = BTreeSet::new(alloc);
    for shard in 0..shards {
        add_shard(&mut ids, chosen, shard)?;
    }
    Ok(ids)
}

fn add_shard(ids: &mut BTreeSet<EventId>, chosen: &Chosen, shard: u8) -> Result<(), AllocError>
    ensures rising { IsStrictlySortedBy id_cmp ids.old.keys → IsStrictlySortedBy id_cmp ids.new.keys }
    ensures kept { OnOk result (Grows ids.old ids.new) }
    ensures each { OnOk result (EndsBy chosen.now → HasWhole (slots chosen.now shard) ids.old ids.new) }
{
    let last = chosen.last();
    for slot in 0..last {
        if !add_slot(ids, chosen, shard, slot)? {
            return Ok(());
        }
    }
    add_slot(ids, chosen, shard, last)?;
    Ok(())
}

// Adds the ids of the slot's batch, and says whether there is one.
fn add_slot(
    ids: &mut BTreeSet<EventId>,
    chosen: &Chosen,
    shard: u8,
    slot: u64,
) -> Result<bool, AllocError>
    ensures rising { IsStrictlySortedBy id_cmp ids.old.keys → IsStrictlySortedBy id_cmp ids.new.keys }
    ensures kept { OnOk result (Grows ids.old ids.new) }
    ensures next { IfOk result (λ more. OnTrue more ((first : Ids) → HasAt (slots chosen.now shard) slot first ids.old → HasAt (slots chosen.now shard) (slot + 1) first ids.new)) }
    ensures whole { IfOk result (λ more. OnFalse more ((first : Ids) → HasAt (slots chosen.now shard) slot first ids.old → HasWhole (slots chosen.now shard) first ids.new)) }
{
    let Some(batch) = chosen.get(Place { shard, slot }) else {
        return Ok(false);
    };
    add_all(ids, batch.inserts.as_slice())?;
    Ok(true)
}

fn add_all(ids: &mut BTreeSet<EventId>, inserts: &[Insert]) -> Result<(), AllocError>
    ensures rising { IsStrictlySortedBy id_cmp ids.old.keys → IsStrictlySortedBy id_cmp ids.new.keys }
    ensures each { OnOk result ((i : Id) → contains id_cmp ids.new i ≡ (contains id_cmp ids.old i || is_some (first_in inserts.now i))) }
{
    for insert in inserts {
        ids.insert(insert.id)?;
    }
    Ok(())
}
