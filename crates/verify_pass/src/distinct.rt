// Ids, each once.
ghost use Rattle.std.specs.Prelude.{◌≡◌, IfOk};
ghost use Rattle.std.specs.List.Sorted.{IsStrictlySortedBy};
ghost use Rattle.verify_pass.specs.Terms.{id_cmp};
ghost use Rattle.verify_pass.specs.Classes.{in_order};

use event_id::EventId;
use std::alloc::{AllocError, Global};
use std::collections::BTreeSet;

/// The ids, each once, in their order. O(n log n) for n ids.
pub fn distinct_ids(alloc: Global, ids: Vec<EventId>) -> Result<Vec<EventId>, AllocError>
    ensures ids { IfOk result (λ each. each.items ≡ in_order ids.items) }
    ensures rising { IfOk result (λ each. IsStrictlySortedBy id_cmp each.items) }
{
    let found = id_set(alloc, &ids)?;
    found.into_iter().collect(alloc)
}

// From the last to the first, as the definition puts them.
fn id_set(alloc: Global, ids: &[EventId]) -> Result<BTreeSet<EventId>, AllocError>
    ensures ids { IfOk result (λ found. found.keys ≡ in_order ids.now) }
    ensures rising { IfOk result (λ found. IsStrictlySortedBy id_cmp found.keys) }
{
    let mut found = BTreeSet::new(alloc);
    for taken in 0..ids.len() {
        found.insert(ids[ids.len() - 1 - taken])?;
    }
    Ok(found)
}
