// A store whose disks are opened and judged, for a run with what is asked, or for a verification, which asks nothing.
ghost use Rattle.std.specs.Prelude.{◌≡◌, ◌≤◌, ◌+◌, ◌∷◌, length, IsTrue, IfOk, IfErr, OnErr};
ghost use Rattle.site_store.specs.Terms.{DiskName, Ready, Rose, StaysAs};
ghost use Rattle.site_store.specs.Lent.{IsLent};
ghost use Rattle.site_store.specs.Plans.{AreAsPlanned, IsByPlan};
ghost use Rattle.site_store.specs.Records.{AreKept, values_of, lent_all, topology_lent};
ghost use Rattle.site_store.specs.Causes.{ArePassed, IsCause, joiners_asked};

use crate::opening::judging::judge;
use crate::{OpenStore, give_back, open_disks};
use outside::{LogFile, Store};
use run_fault::RunFault;
use std::alloc::Global;
use topology_journal::Topology;

// How many joiners a site is asked to have.
fn joiners_of(asked: &Option<Topology>) -> u8
    ensures { result ≡ joiners_asked asked.now }
{
    match asked {
        Some(asked) => asked.joiners,
        None => 0,
    }
}

/// Opens all disks of a store, of so many replicas, over a click log whose last whole line ends at `end`, where what they keep can be run as is asked, or
/// read where nothing is. Else the store is refused, and gets all its disks back.
pub(crate) fn open_for<S: Store, L: LogFile>(
    alloc: Global,
    store: &mut S,
    asked: &Option<Topology>,
    replicas: u8,
    clicks: &mut L,
    end: u64,
) -> Result<OpenStore<S::Disk>, RunFault>
    ensures ready { IfOk result (λ d. d.topology.journal.state ≡ Ready) }
    ensures kept { IfOk result (λ d. AreKept S.Disk.tells (S.image store.old) replicas (joiners_asked asked.now) (values_of d.topology.value.kept d.disks.items)) }
    ensures passed { IfOk result (λ d. ArePassed L.tells (L.bytes clicks.old) end asked.now (values_of d.topology.value.kept d.disks.items)) }
    ensures lent { IsTrue S.Disk.tells → IfOk result (λ d. IsLent S.Disk.image (S.image store.old) (S.image store.new) (topology_lent d.topology.journal.disk ∷ lent_all d.disks.items)) }
    ensures places { IfOk result (λ d. S.places_left store.old + (1 + length d.disks.items) ≤ S.places_left store.new) }

    // After a refusal.
    ensures back { IsTrue S.Disk.tells → OnErr result ((disk : DiskName) → StaysAs (S.image store.old disk) (S.image store.new disk)) }
    ensures cause { IfErr result (IsCause S.Disk.tells (S.image store.old) replicas (Rose (S.faults store.old) (S.faults store.new)) L.tells (L.bytes clicks.old) end (Rose (L.faults clicks.old) (L.faults clicks.new)) asked.now) }

    ensures same { IsTrue L.tells → L.bytes clicks.new ≡ L.bytes clicks.old }
    // Each disk has the stops that were planned for it, and met none. One that failed had a stop among its next calls.
    ensures plan { IsTrue S.Disk.planned → IfOk result (λ d. AreAsPlanned S.Disk.Disk S.Store store.old store.new (topology_lent d.topology.journal.disk ∷ lent_all d.disks.items)) }
    ensures early { IsTrue S.Disk.planned → IfErr result (IsByPlan S.stops S.made S.faults store.old store.new) }
    ensures count { S.faults store.old ≤ S.faults store.new }
    ensures log_count { L.faults clicks.old ≤ L.faults clicks.new }
{
    let open = match open_disks(alloc, store, joiners_of(asked), replicas) {
        Ok(open) => open,
        Err(fault) => return Err(fault),
    };
    match judge(&open, asked, clicks, end) {
        None => Ok(open),
        Some(fault) => {
            give_back(store, open);
            Err(fault)
        }
    }
}
