// All disks of a state directory.
ghost use Rattle.std.specs.Prelude.{◌≡◌, ◌≤◌, ◌+◌, ◌∷◌, ℕ, List, length, IsTrue, IfOk, IfErr, OnErr};
ghost use Rattle.site_store.specs.Terms.{DiskName, Each, Ready, StaysAs, added};
ghost use Rattle.site_store.specs.Kinds.{joiners_kept};
ghost use Rattle.site_store.specs.Lent.{IsLent, MayBeLeft};
ghost use Rattle.site_store.specs.Plans.{AreAsPlanned, IsByPlan};
ghost use Rattle.site_store.specs.Records.{AllKept, AreKept, values_of, lent_all, topology_lent};
ghost use Rattle.site_store.specs.Refusals.{IsFirstDisk};
ghost use Rattle.site_store.specs.Opening.{IsUnopened};

use crate::disks::OpenDisk;
use crate::disks::opening::{give_each, open_one, open_others};
use outside::{Disk, DiskName, Store};
use run_fault::RunFault;
use std::alloc::Global;
use topology_journal::TopologyJournal;

/// The open disks of a state directory: the topology's journal, and all others in the order of their names.
#[derive(Drop)]
pub struct OpenStore<D: Disk> {
    pub topology: TopologyJournal<D>,
    pub disks: Vec<OpenDisk<D>>,
}

// How many joiners a site has: the kept number, or the asked one where none is kept.
fn joiners_of<D: Disk>(topology: &TopologyJournal<D>, asked: u8) -> u8
    ensures { result ≡ joiners_kept topology.now.value.kept asked }
{
    match topology.value().kept() {
        Some(kept) => kept.joiners,
        None => asked,
    }
}

/// Takes the disks of a state directory from the store and opens each: the topology's, the offsets, the retry logs, the
/// servers' epochs, the replicas' journals, the joiners' epochs and their outputs, site A before site B. There are so many
/// replicas, and a site has as many joiners as the topology's disk keeps, or else as are asked for. The first disk that isn't
/// opened ends it, and all that were taken are given back. Linear in the files, in time and memory.
#[tactic(auto, using(crate::proofs::Taking::back_again, crate::proofs::Faults::unopened_more))]
pub fn open_disks<S: Store>(
    alloc: Global,
    store: &mut S,
    asked: u8,
    replicas: u8,
) -> Result<OpenStore<S::Disk>, RunFault>
    ensures ready { IfOk result (λ d. d.topology.journal.state ≡ Ready) }
    ensures kept { IfOk result (λ d. AreKept S.Disk.tells (S.image store.old) replicas asked (values_of d.topology.value.kept d.disks.items)) }
    // What a stop may leave now, of the disks and in the store.
    ensures lent { IsTrue S.Disk.tells → IfOk result (λ d. IsLent S.Disk.image (S.image store.old) (S.image store.new) (topology_lent d.topology.journal.disk ∷ lent_all d.disks.items)) }
    ensures back { IsTrue S.Disk.tells → OnErr result ((name : DiskName) → StaysAs (S.image store.old name) (S.image store.new name)) }
    ensures places { IfOk result (λ d. S.places_left store.old + (1 + length d.disks.items) ≤ S.places_left store.new) }
    ensures first { IfErr result (IsUnopened S.Disk.tells (S.image store.old) (S.faults store.old) (S.faults store.new) (IsFirstDisk S.Disk.tells (S.image store.old) replicas asked)) }
    ensures count { S.faults store.old ≤ S.faults store.new }
    // Each disk has the stops that were planned for it, and met none. One that failed had a stop among its next calls.
    ensures plan { IsTrue S.Disk.planned → IfOk result (λ d. AreAsPlanned S.Disk.Disk S.Store store.old store.new (topology_lent d.topology.journal.disk ∷ lent_all d.disks.items)) }
    ensures early { IsTrue S.Disk.planned → IfErr result (IsByPlan S.stops S.made S.faults store.old store.new) }
{
    let topology = match open_one(alloc, store, DiskName::Topology) {
        Ok(open) => open.into_topology(),
        Err(fault) => return Err(fault),
    };
    match open_others(alloc, store, joiners_of(&topology, asked), replicas) {
        Ok(disks) => Ok(OpenStore { topology, disks }),
        Err(fault) => {
            store.give(DiskName::Topology, topology.into_disk());
            Err(fault)
        }
    }
}

/// Gives the disks back to the store, under their names. It takes no memory.
pub fn give_back<S: Store>(store: &mut S, opened: OpenStore<S::Disk>)
    requires { 1 + length opened.disks.items ≤ S.places_left store.old }
    // What a stop may leave of a disk is what it might have left of it before it was given back, or of what stood in the store.
    ensures left { IsTrue S.Disk.tells → (name : DiskName) (c : List ℕ) → S.image store.new name c → MayBeLeft S.Disk.image (S.image store.old) (topology_lent opened.topology.journal.disk ∷ lent_all opened.disks.items) name c }
    ensures keep { IsTrue S.Disk.tells → Each (λ o. AllKept S.Disk.image o) opened.disks.items }
    ensures places { S.places_left store.old ≤ S.places_left store.new + (1 + length opened.disks.items) }
    ensures count { S.faults store.old ≤ S.faults store.new }
    // The faults that the topology's disk has met are among the store's then.
    ensures counted { added (S.faults store.old) (S.Disk.faults opened.topology.journal.disk) ≤ S.faults store.new }
    ensures calm { Each (λ l. S.Disk.faults l.disk ≡ 0) (topology_lent opened.topology.journal.disk ∷ lent_all opened.disks.items) → S.faults store.new ≡ S.faults store.old }
{
    let OpenStore { topology, disks } = opened;
    give_each(store, disks);
    store.give(DiskName::Topology, topology.into_disk());
}
