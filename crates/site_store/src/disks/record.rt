// The record of a topology.
ghost use Rattle.std.specs.Prelude.{◌≡◌, ◌≤◌, false, ◌⊎◌, ℕ, List, Some, IsTrue, OnOk, OnErr, IfErr, IsErrOf};
ghost use Rattle.site_store.specs.Terms.{AtMost, GoesOn, IsOpened, MayCome, MeetsPlan, Memory, Ready, StaysAs};
ghost use Rattle.site_store.specs.Written.{IsWritten, IsUnwritten};

use outside::{Disk, DiskName};
use run_fault::{RunFault, StorePlace};
use std::alloc::Global;
use topology_journal::{Topology, TopologyJournal, topology_frame};

/// Writes what was asked to the topology's disk, behind what it keeps. Constant time; it allocates the record.
#[tactic(auto, using(crate::proofs::Planned::calm_call))]
pub fn write_topology<D: Disk>(
    alloc: Global,
    topology: &mut TopologyJournal<D>,
    asked: Topology,
) -> Result<(), RunFault>
    requires next { MayCome topology.old.value.kept asked }
    requires ready { topology.old.journal.state ≡ Ready }
    ensures kept { OnOk result (topology.new.value.kept ≡ Some asked) }
    ensures same { OnErr result (topology.new.value.kept ≡ topology.old.value.kept) }
    ensures ready { OnOk result (topology.new.journal.state ≡ Ready) }
    ensures durable { IsTrue D.tells → OnOk result ((c : List ℕ) → D.image topology.new.journal.disk c → IsWritten (D.image topology.old.journal.disk) asked c) }
    ensures old_or_new { IsTrue D.tells → OnErr result ((c : List ℕ) → D.image topology.new.journal.disk c → IsOpened (D.image topology.old.journal.disk) c ⊎ IsWritten (D.image topology.old.journal.disk) asked c) }

    // Where memory was wanting nothing but the disk's room has changed.
    ensures stays { IsTrue D.tells → IsErrOf result Memory → StaysAs (D.image topology.old.journal.disk) (D.image topology.new.journal.disk) }
    ensures seen { IsTrue D.tells → IsErrOf result Memory → D.seen topology.new.journal.disk ≡ D.seen topology.old.journal.disk }
    ensures no_fault { IsErrOf result Memory → D.faults topology.new.journal.disk ≡ D.faults topology.old.journal.disk }
    ensures still_ready { IsErrOf result Memory → topology.new.journal.state ≡ Ready }

    ensures grows { IsTrue D.tells → GoesOn (D.image topology.old.journal.disk) (D.image topology.new.journal.disk) }
    ensures count { D.faults topology.old.journal.disk ≤ D.faults topology.new.journal.disk }
    ensures plan { IsTrue D.planned → OnOk result (MeetsPlan D.stops D.made D.faults 4 false topology.old.journal.disk topology.new.journal.disk) }
    ensures calm { IsTrue D.planned → AtMost (D.stops topology.old.journal.disk) (D.made topology.old.journal.disk) 0 → D.faults topology.new.journal.disk ≡ D.faults topology.old.journal.disk }
    ensures unwritten { IfErr result (IsUnwritten (D.faults topology.old.journal.disk) (D.faults topology.new.journal.disk)) }
{
    let Ok(payload) = topology_frame(alloc, &asked) else {
        return Err(RunFault::Memory);
    };
    let Ok(()) = topology.make_room(alloc) else {
        return Err(RunFault::Memory);
    };
    match topology.append(payload.as_slice(), asked) {
        Ok(()) => Ok(()),
        Err(_) => Err(RunFault::Store(StorePlace::Disk(DiskName::Topology))),
    }
}
