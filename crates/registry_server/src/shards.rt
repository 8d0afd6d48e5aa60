// All shards of a server.
ghost use Rattle.std.specs.Prelude.{◌≡◌, ℕ, length, false, IfOk};
ghost use Rattle.registry_server.specs.Terms.{ShardState, empty_shard};
ghost use Rattle.registry_server.specs.ShardStates.{EachStands};

use crate::shard::Shard;
use std::alloc::{AllocError, Global};

// So many shards, each without anything, in one allocation.
pub(crate) fn empty_shards(alloc: Global, count: u8) -> Result<Vec<Shard>, AllocError>
    ensures many { IfOk result (λ v. length v.items ≡ count) }
    ensures empty { IfOk result (λ v. EachStands v.items (λ s. empty_shard)) }
{
    let mut shards = Vec::with_capacity(alloc, usize::from(count))?;
    for _ in 0..count {
        shards.push(Shard::new(alloc))?;
    }
    Ok(shards)
}

// Each shard is without anything again. It takes no memory.
pub(crate) fn clear_all(shards: &mut Vec<Shard>, alloc: Global)
    ensures many { length shards.new.items ≡ length shards.old.items }
    ensures empty { EachStands shards.new.items (λ s. empty_shard) }
{
    for number in 0..shards.len() {
        shards[number] = Shard::new(alloc);
    }
}

// No shard holds back any more.
pub(crate) fn release_all(shards: &mut Vec<Shard>)
    ensures many { length shards.new.items ≡ length shards.old.items }
    ensures each { (f : ℕ → ShardState) → EachStands shards.old.items f → EachStands shards.new.items (λ s. record (f s) { held = false }) }
{
    for shard in shards.iter_mut() {
        shard.release();
    }
}
