// Taking disks from a store and giving them back.
ghost use Rattle.std.specs.Prelude.{◌≡◌, ◌≢◌, ◌≤◌, ◌+◌, ◌∷◌, [], ℕ, List, length, map, IsTrue, IfOk, IfErr, OnOk, OnErr};
ghost use Rattle.site_store.specs.Terms.{DiskName, Each, IsKeptIn, StaysAs, Within};
ghost use Rattle.site_store.specs.Lent.{IsLent, MayBeLeft};
ghost use Rattle.site_store.specs.Plans.{AreAsPlanned, IsByPlan};
ghost use Rattle.site_store.specs.Records.{IsOfKind, KeepsAs, AllKept, IsKept, kept_by, lent_all, lent_by};
ghost use Rattle.site_store.specs.Refusals.{IsFirst, other_names};
ghost use Rattle.site_store.specs.Opening.{told_by, IsUnopened};

use crate::disks::names::names_of;
use crate::disks::{OpenDisk, ask};
use gate_journal::JournalFault;
use outside::{DiskName, Store, StoreFault};
use run_fault::{RunFault, StorePlace};
use std::alloc::Global;

// The fault of a disk that isn't opened.
pub(crate) fn told(name: DiskName, fault: JournalFault) -> RunFault
    ensures { result ≡ told_by name fault }
{
    match fault {
        JournalFault::Damaged { at } => RunFault::Damaged { disk: name, at },
        JournalFault::Disk => RunFault::Store(StorePlace::Disk(name)),
        JournalFault::Memory => RunFault::Memory,
    }
}

/// Takes the disk of this name from the store, asks it and opens it. Where it fails or is refused it is given back.
#[tactic(auto, using(crate::proofs::Faults::told_unopened, crate::proofs::Stays::opened_same, crate::proofs::Lending::given_back, crate::proofs::Planned::first_used, crate::proofs::Planned::none_added, crate::proofs::Planned::one_taken, crate::proofs::Planned::refused_early))]
pub(crate) fn open_one<S: Store>(
    alloc: Global,
    store: &mut S,
    name: DiskName,
) -> Result<OpenDisk<S::Disk>, RunFault>
    ensures name { IfOk result (λ o. o.name ≡ name) }
    ensures kind { IfOk result (λ o. IsOfKind name o.kept) }
    ensures kept { IsTrue S.Disk.tells → IfOk result (λ o. IsKeptIn (S.image store.old name) (KeepsAs o.kept)) }
    ensures stays { IsTrue S.Disk.tells → IfOk result (λ o. StaysAs (S.image store.old name) (S.Disk.image o.disk)) }
    ensures others { IsTrue S.Disk.tells → OnOk result ((other : DiskName) → other ≢ name → Within (S.image store.old other) (S.image store.new other)) }
    ensures back { IsTrue S.Disk.tells → OnErr result ((other : DiskName) → StaysAs (S.image store.old other) (S.image store.new other)) }
    ensures place { OnOk result (S.places_left store.old + 1 ≤ S.places_left store.new) }
    ensures no_place { OnErr result (S.places_left store.old ≤ S.places_left store.new) }
    ensures count { S.faults store.old ≤ S.faults store.new }
    ensures err { IfErr result (IsUnopened S.Disk.tells (S.image store.old) (S.faults store.old) (S.faults store.new) (λ disk. disk ≡ name)) }
    ensures plan { IsTrue S.Disk.planned → IfOk result (λ o. AreAsPlanned S.Disk.Disk S.Store store.old store.new (lent_by o ∷ [])) }
    ensures early { IsTrue S.Disk.planned → IfErr result (IsByPlan S.stops S.made S.faults store.old store.new) }
{
    let mut disk = match store.take(alloc, name) {
        Ok(disk) => disk,
        Err(StoreFault::Disk) => return Err(RunFault::Store(StorePlace::Disk(name))),
        Err(StoreFault::Memory) => return Err(RunFault::Memory),
    };
    let Ok(()) = ask(&mut disk) else {
        store.give(name, disk);
        return Err(RunFault::Store(StorePlace::Disk(name)));
    };
    match OpenDisk::open(alloc, name, disk) {
        Ok(open) => Ok(open),
        Err((fault, disk)) => {
            store.give(name, disk);
            Err(told(name, fault))
        }
    }
}

/// Gives disks back to the store, under their names. It takes no memory.
#[tactic(auto, using(crate::proofs::Lending::none_left, crate::proofs::Lending::none_each))]
pub(crate) fn give_each<S: Store>(store: &mut S, disks: Vec<OpenDisk<S::Disk>>)
    requires { length disks.items ≤ S.places_left store.old }
    ensures left { IsTrue S.Disk.tells → (name : DiskName) (c : List ℕ) → S.image store.new name c → MayBeLeft S.Disk.image (S.image store.old) (lent_all disks.items) name c }
    ensures keep { IsTrue S.Disk.tells → Each (λ o. AllKept S.Disk.image o) disks.items }
    ensures places { S.places_left store.old ≤ S.places_left store.new + length disks.items }
    ensures count { S.faults store.old ≤ S.faults store.new }
    ensures calm { Each (λ l. S.Disk.faults l.disk ≡ 0) (lent_all disks.items) → S.faults store.new ≡ S.faults store.old }
{
    let mut disks = disks;
    while let Some(one) = disks.pop() {
        let name = one.name();
        store.give(name, one.into_disk());
    }
    disks.destroy_empty();
}

/// Takes all disks but the topology's from the store, in order, and opens each. The first that isn't opened ends it, and all that
/// were taken are given back.
pub(crate) fn open_others<S: Store>(
    alloc: Global,
    store: &mut S,
    joiners: u8,
    replicas: u8,
) -> Result<Vec<OpenDisk<S::Disk>>, RunFault>
    ensures named { IfOk result (λ d. map (λ o. o.name) d.items ≡ other_names joiners replicas) }
    ensures kinds { IfOk result (λ d. Each (λ o. IsOfKind o.name o.kept) d.items) }
    ensures kept { IsTrue S.Disk.tells → IfOk result (λ d. Each (λ o. IsKept (S.image store.old) (kept_by o)) d.items) }
    ensures lent { IsTrue S.Disk.tells → IfOk result (λ d. IsLent S.Disk.image (S.image store.old) (S.image store.new) (lent_all d.items)) }
    ensures back { IsTrue S.Disk.tells → OnErr result ((name : DiskName) → StaysAs (S.image store.old name) (S.image store.new name)) }
    ensures places { IfOk result (λ d. S.places_left store.old + length d.items ≤ S.places_left store.new) }
    ensures place { OnErr result (S.places_left store.old ≤ S.places_left store.new) }
    ensures first { IfErr result (IsUnopened S.Disk.tells (S.image store.old) (S.faults store.old) (S.faults store.new) (IsFirst S.Disk.tells (S.image store.old) (other_names joiners replicas))) }
    ensures count { S.faults store.old ≤ S.faults store.new }
    ensures plan { IsTrue S.Disk.planned → IfOk result (λ d. AreAsPlanned S.Disk.Disk S.Store store.old store.new (lent_all d.items)) }
    ensures early { IsTrue S.Disk.planned → IfErr result (IsByPlan S.stops S.made S.faults store.old store.new) }
{
    let Ok(names) = names_of(alloc, joiners, replicas) else {
        return Err(RunFault::Memory);
    };
    let Ok(mut disks) = Vec::with_capacity(alloc, names.len()) else {
        return Err(RunFault::Memory);
    };
    for i in 0..names.len() {
        match open_one(alloc, store, names[i]) {
            Ok(one) => disks.push_reserved(one),
            Err(fault) => {
                give_each(store, disks);
                return Err(fault);
            }
        }
    }
    Ok(disks)
}
