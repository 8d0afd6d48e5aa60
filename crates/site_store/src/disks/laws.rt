//! What opening leaves and what growth leaves.
ghost use Rattle.std.specs.Prelude.{◌⊎◌};
ghost use Rattle.site_store.specs.Terms.{DiskName, GoesOn, StaysAs};
ghost use Rattle.site_store.specs.Orders.{left_at, IsOrder};

use outside::Store;

/// What stays as it was goes on. What stays, or goes on, time after time does so over the whole time.
#[tactic(auto, using(crate::proofs::Stays::stays_same, crate::proofs::Stays::stays_through, crate::proofs::Stays::stays_grows))]
pub fn stays_is_growth<S: Store>()
    ensures stays { IsOrder (λ old new. StaysAs (left_at S.image S.Disk.image old) (left_at S.image S.Disk.image new)) }
    ensures grows { IsOrder (λ old new. GoesOn (left_at S.image S.Disk.image old) (left_at S.image S.Disk.image new)) }
    ensures both { (old new : (S × DiskName) ⊎ S.Disk) → StaysAs (left_at S.image S.Disk.image old) (left_at S.image S.Disk.image new) → GoesOn (left_at S.image S.Disk.image old) (left_at S.image S.Disk.image new) }
{}
