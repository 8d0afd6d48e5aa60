// The topology's record of opened disks.
ghost use Rattle.std.specs.Prelude.{◌≡◌, ◌≤◌, false, Some, IsTrue, OnOk, OnErr, IfErr, IsErrOf};
ghost use Rattle.site_store.specs.Terms.{AtMost, GoesOn, IsTopology, MeetsPlan, Memory, Ready, StaysAs};
ghost use Rattle.site_store.specs.Misfits.{IsFit};
ghost use Rattle.site_store.specs.Written.{AllKeep, StaysOrKeeps, IsUnwritten};

use crate::write_topology;
use outside::Disk;
use run_fault::RunFault;
use std::alloc::Global;
use topology_journal::{Topology, TopologyJournal};

/// Writes the asked topology where none is kept.
pub(crate) fn keep_topology<D: Disk>(
    alloc: Global,
    topology: &mut TopologyJournal<D>,
    asked: Topology,
) -> Result<(), RunFault>
    requires is_topology { IsTopology asked }
    requires ready { topology.old.journal.state ≡ Ready }
    requires fit { IsFit topology.old.value.kept asked }
    ensures kept { OnOk result (topology.new.value.kept ≡ Some asked) }
    ensures durable { IsTrue D.tells → OnOk result (AllKeep asked (D.image topology.new.journal.disk)) }
    ensures old_or_new { IsTrue D.tells → OnErr result (StaysOrKeeps (D.image topology.old.journal.disk) asked (D.image topology.new.journal.disk)) }
    ensures stays { IsTrue D.tells → IsErrOf result Memory → StaysAs (D.image topology.old.journal.disk) (D.image topology.new.journal.disk) }
    ensures grows { IsTrue D.tells → GoesOn (D.image topology.old.journal.disk) (D.image topology.new.journal.disk) }
    ensures count { D.faults topology.old.journal.disk ≤ D.faults topology.new.journal.disk }
    ensures plan { IsTrue D.planned → OnOk result (MeetsPlan D.stops D.made D.faults 4 false topology.old.journal.disk topology.new.journal.disk) }
    ensures no_fault { IsErrOf result Memory → D.faults topology.new.journal.disk ≡ D.faults topology.old.journal.disk }
    ensures calm { IsTrue D.planned → AtMost (D.stops topology.old.journal.disk) (D.made topology.old.journal.disk) 0 → D.faults topology.new.journal.disk ≡ D.faults topology.old.journal.disk }
    ensures unwritten { IfErr result (IsUnwritten (D.faults topology.old.journal.disk) (D.faults topology.new.journal.disk)) }
{
    if topology.value().kept().is_some() {
        return Ok(());
    }
    write_topology(alloc, topology, asked)
}
