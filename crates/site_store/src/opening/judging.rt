// Whether what opened disks keep can be run or read.
ghost use Rattle.std.specs.Prelude.{◌≡◌, ◌≤◌, IsTrue, IfSome, IfNone, MatchOption};
ghost use Rattle.site_store.specs.Terms.{Rose};
ghost use Rattle.site_store.specs.Misfits.{IsFitFor};
ghost use Rattle.site_store.specs.Records.{values_of};
ghost use Rattle.site_store.specs.Causes.{AreTold, ArePassed, IsOther, IsUnfit};

use crate::disks::OpenStore;
use crate::places::first_misplaced;
use crate::{first_limit, topology_misfit};
use outside::{Disk, LogFile};
use run_fault::{LogName, Mismatch, RunFault};
use topology_journal::{Topology, TopologyJournal};

// Why the kept topology isn't the asked one, if one is asked, and one is kept and isn't.
fn other<D: Disk>(topology: &TopologyJournal<D>, asked: &Option<Topology>) -> Option<RunFault>
    ensures { MatchOption result (IsFitFor topology.now.value.kept asked.now) (IsOther topology.now.value.kept asked.now) }
{
    match asked {
        Some(asked) => topology_misfit(topology, asked),
        None => None,
    }
}

/// The first reason, if there is one, why what opened disks keep can't be run as asked, or read where nothing is asked: their
/// topology, then the places that they keep of the click log, then what is at its limit. `end` is the end of the log's last whole
/// line.
#[tactic(auto, using(crate::proofs::Causes::none_is))]
pub(crate) fn judge<D: Disk, L: LogFile>(
    opened: &OpenStore<D>,
    asked: &Option<Topology>,
    clicks: &mut L,
    end: u64,
) -> Option<RunFault>
    ensures passed { IfNone result (ArePassed L.tells (L.bytes clicks.old) end asked.now (values_of opened.now.topology.value.kept opened.now.disks.items)) }
    ensures cause { IfSome result (IsUnfit asked.now (AreTold L.tells (L.bytes clicks.old) end) (Rose (L.faults clicks.old) (L.faults clicks.new)) (values_of opened.now.topology.value.kept opened.now.disks.items)) }
    ensures same { IsTrue L.tells → L.bytes clicks.new ≡ L.bytes clicks.old }
    ensures count { L.faults clicks.old ≤ L.faults clicks.new }
{
    if let Some(fault) = other(&opened.topology, asked) {
        return Some(fault);
    }
    match first_misplaced(&opened.disks, clicks, end) {
        Ok(None) => first_limit(&opened.disks),
        Ok(Some(misplaced)) => Some(RunFault::Topology(Mismatch::Place(misplaced))),
        Err(_) => Some(RunFault::Read(LogName::Clicks)),
    }
}
