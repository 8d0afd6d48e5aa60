// A store read for verification.
ghost use Rattle.std.specs.Prelude.{◌≡◌, ◌≤◌, Some, None, IsTrue, IfOk, IfErr};
ghost use Rattle.site_store.specs.Terms.{DiskName, GoesOn, IsLogOf, IsSoundStore, IsWelcome, KeptTopology, Rose, Setting, StaysAs, end_from};
ghost use Rattle.site_store.specs.Leaving.{IsAsked};
ghost use Rattle.site_store.specs.Causes.{IsCause, LeavesSomething};
ghost use Rattle.site_store.specs.Reading.{IsRead};
ghost use Rattle.site_store.specs.Telling.{Tells, KeepsNothing};

use crate::disks::{give_bare, journals_of};
use crate::give_back;
use crate::opening::open_for;
use crate::reading::KeptStore;
use outside::{Disk, LogFile, Store};
use photon_model::verification;
use run_fault::RunFault;
use site_laws::stores::{fits, once, opened, read, stays};
use std::alloc::Global;
use topology_journal::{Topology, TopologyJournal};

fn kept_topology<D: Disk>(topology: &TopologyJournal<D>) -> Option<Topology>
    ensures { result ≡ topology.now.value.kept }
{
    topology.value().kept().copied()
}

/// Reads what a store of so many replicas keeps, over a click log whose last whole line ends at `end`, and gives all its disks back. The store is
/// refused for the first of these: a disk that isn't opened, a kept place that doesn't fit the log, an epoch, a round or a slot
/// that is at its limit. Nothing is asked of it, so that no refusal is for joiners or a table; a store that keeps no topology has
/// no joiners.
///
/// Each file is read once. Time and memory are linear in the files; no record is copied. Of the log it reads up to 512 bytes for
/// each kept place.
pub fn read_store<S: Store, L: LogFile>(
    alloc: Global,
    store: &mut S,
    replicas: u8,
    clicks: &mut L,
    end: u64,
) -> Result<KeptStore, RunFault>
    ensures kept { IfOk result (IsRead S.Disk.tells (S.image store.old) replicas L.tells (L.bytes clicks.old) end) }
    // With the kept topology, and so many replicas: of records that the disks kept verification tells the report.
    ensures report { IsTrue S.Disk.tells → IfOk result (λ k. (t : KeptTopology) (g : Setting) → k.topology ≡ Some t → IsAsked t g → g.config.replicas ≡ replicas → Tells g (S.image store.old) k.journals) }
    // A sound store that keeps no topology keeps no records, if a stop leaves something of each of its disks.
    ensures blank { IsTrue S.Disk.tells → IfOk result (λ k. (g : Setting) → k.topology ≡ None → g.config.replicas ≡ replicas → LeavesSomething g (S.image store.old) → IsSoundStore g (S.image store.old) → KeepsNothing replicas k.journals) }

    // All disks are back, and what may be left of each stands for what might have been left of it before.
    ensures stays { IsTrue S.Disk.tells → (disk : DiskName) → StaysAs (S.image store.old disk) (S.image store.new disk) }
    ensures grown { IsTrue S.Disk.tells → (disk : DiskName) → GoesOn (S.image store.old disk) (S.image store.new disk) }
    ensures sound { IsTrue S.Disk.tells → (g : Setting) → IsSoundStore g (S.image store.old) → IsSoundStore g (S.image store.new) }

    ensures cause { IfErr result (IsCause S.Disk.tells (S.image store.old) replicas (Rose (S.faults store.old) (S.faults store.new)) L.tells (L.bytes clicks.old) end (Rose (L.faults clicks.old) (L.faults clicks.new)) None) }

    // A sound store is refused neither for a place nor for a damaged disk, if a stop leaves something of each of its disks.
    ensures welcome { IsTrue S.Disk.tells → IsTrue L.tells → (g : Setting) → IsLogOf (L.bytes clicks.old) g → end ≡ end_from 0 g.clicks → g.config.replicas ≡ replicas → LeavesSomething g (S.image store.old) → IsSoundStore g (S.image store.old)
        → IfErr result (IsWelcome (LeavesSomething g (S.image store.old))) }

    ensures same { IsTrue L.tells → L.bytes clicks.new ≡ L.bytes clicks.old }
    ensures count { S.faults store.old ≤ S.faults store.new }
    ensures log_count { L.faults clicks.old ≤ L.faults clicks.new }
{
    stays::<S>();
    once();
    opened::<S>();
    read();
    fits();
    verification();
    let open = match open_for(alloc, store, &None, replicas, clicks, end) {
        Ok(open) => open,
        Err(fault) => return Err(fault),
    };
    let topology = kept_topology(&open.topology);
    match journals_of(alloc, open) {
        Ok((journals, bare)) => {
            give_bare(store, bare);
            Ok(KeptStore { topology, journals })
        }
        Err(open) => {
            give_back(store, open);
            Err(RunFault::Memory)
        }
    }
}
