// A store opened for a run of both sites.
ghost use Rattle.std.specs.Prelude.{◌≡◌, ◌≢◌, ◌≤◌, ◌+◌, ◌∷◌, Bool, length, map, Some, Option, IsTrue, true, IfOk, IfErr, OnErr};
ghost use Rattle.site_store.specs.Terms.{AreLeft, DiskName, Disks, GoesOn, IsLogOf, IsSoundStore, IsTopology, IsWelcome, KeptTopology, OfDisk, Rose, Setting, StaysAs, StoreFailed, StoreTopology, WholeSound, end_from, topology_of};
ghost use Rattle.outside.specs.declared.store.DiskName.TheVariants as name;
ghost use Rattle.site_store.specs.Refusals.{other_names};
ghost use Rattle.site_store.specs.Plans.{AreAsPlanned, IsByPlan};
ghost use Rattle.site_store.specs.Records.{AreKept, AreRecordsOf, values_of, kept_all, lent_all, topology_lent};
ghost use Rattle.site_store.specs.Leaving.{IsOut, StayOrAsked, IsAsked};
ghost use Rattle.site_store.specs.Causes.{ArePassed, IsCause, LeavesSomething};

use crate::opening::open_for;
use crate::opening::topology::keep_topology;
use crate::{OpenStore, give_back};
use outside::{LogFile, Store};
use photon_model::whole_stores;
use run_fault::RunFault;
use site_laws::stores::{fits, opened, read, stays, topology_first};
use std::alloc::Global;
use topology_journal::Topology;

/// Opens all disks of a store for a run of both sites with this topology and so many replicas, over a click log whose last whole
/// line ends at `end`. The store is refused, and gets all its disks back, for the first of these: a disk that isn't opened, another number
/// of joiners or another table that is kept, a kept place that doesn't fit the log, an epoch, a round or a slot that is at its
/// limit, and the record of the asked topology, if none is kept and it isn't written.
///
/// Time and memory are linear in the files; of the log it reads up to 512 bytes for each kept place.
#[tactic(auto, using(crate::proofs::Causes::unwritten_cause, crate::proofs::Damage::unwritten_welcome, crate::proofs::Leaving::all_stay, crate::proofs::Leaving::all_grow, crate::proofs::Leaving::joiners_same, crate::proofs::Values::names_kept))]
pub fn open_store<S: Store, L: LogFile>(
    alloc: Global,
    store: &mut S,
    asked: Topology,
    replicas: u8,
    clicks: &mut L,
    end: u64,
) -> Result<OpenStore<S::Disk>, RunFault>
    requires { IsTopology asked }
    ensures topology { IfOk result (λ d. d.topology.value.kept ≡ Some asked) }
    ensures named { IfOk result (λ d. map (λ o. o.name) d.disks.items ≡ other_names asked.joiners replicas) }
    // What the disks kept fits what is asked, and but for the topology they keep it.
    ensures kept { IfOk result (λ d. (t : Option KeptTopology) × AreKept S.Disk.tells (S.image store.old) replicas asked.joiners (values_of t d.disks.items) × ArePassed L.tells (L.bytes clicks.old) end (Some asked) (values_of t d.disks.items)) }
    ensures lent { IsTrue S.Disk.tells → IfOk result (λ d. IsOut asked S.Disk.image (S.image store.old) (S.image store.new) (topology_lent d.topology.journal.disk) (lent_all d.disks.items)) }
    ensures places { IfOk result (λ d. S.places_left store.old + (1 + length d.disks.items) ≤ S.places_left store.new) }

    // Each record was kept by an image of its disk, and the topology or none by one of its own.
    ensures were_left { IsTrue S.Disk.tells → IfOk result (λ d. (g : Setting) (records : Disks) → IsAsked asked g → g.config.replicas ≡ replicas → AreRecordsOf g (kept_all d.disks.items) records
        → (t : Option StoreTopology) × AreLeft g (S.image store.old) (record { topology = t; disks = records; is_used = true })) }
    // Of a sound store, the records that they keep are a whole store, with the topology that was asked.
    ensures whole { IsTrue S.Disk.tells → IfOk result (λ d. (g : Setting) (records : Disks) → IsAsked asked g → g.config.replicas ≡ replicas → IsSoundStore g (S.image store.old) → AreRecordsOf g (kept_all d.disks.items) records
        → (used : Bool) × WholeSound g (record { topology = Some (topology_of g); disks = records; is_used = used })) }

    // After a refusal.
    ensures left { IsTrue S.Disk.tells → OnErr result (StayOrAsked asked (S.image store.old) (S.image store.new)) }
    ensures back { IsTrue S.Disk.tells → IfErr result (λ f. f ≢ StoreFailed (OfDisk name.Topology) → (disk : DiskName) → StaysAs (S.image store.old disk) (S.image store.new disk)) }
    ensures sound { IsTrue S.Disk.tells → OnErr result ((g : Setting) → IsAsked asked g → IsSoundStore g (S.image store.old) → IsSoundStore g (S.image store.new)) }
    ensures grown { IsTrue S.Disk.tells → OnErr result ((disk : DiskName) → GoesOn (S.image store.old disk) (S.image store.new disk)) }
    ensures cause { IfErr result (IsCause S.Disk.tells (S.image store.old) replicas (Rose (S.faults store.old) (S.faults store.new)) L.tells (L.bytes clicks.old) end (Rose (L.faults clicks.old) (L.faults clicks.new)) (Some asked)) }
    // Of a sound store nothing that it keeps is refused, and no disk is told as damaged.
    ensures welcome { IsTrue S.Disk.tells → IsTrue L.tells → IfErr result (λ f. (g : Setting) → IsAsked asked g → g.config.replicas ≡ replicas → IsLogOf (L.bytes clicks.old) g → end ≡ end_from 0 g.clicks
        → IsSoundStore g (S.image store.old) → IsWelcome (LeavesSomething g (S.image store.old)) f) }

    ensures same { IsTrue L.tells → L.bytes clicks.new ≡ L.bytes clicks.old }
    // Each disk has the stops that were planned for it, and met none. One that failed had a stop among its next calls.
    ensures plan { IsTrue S.Disk.planned → IfOk result (λ d. AreAsPlanned S.Disk.Disk S.Store store.old store.new (topology_lent d.topology.journal.disk ∷ lent_all d.disks.items)) }
    ensures early { IsTrue S.Disk.planned → IfErr result (IsByPlan S.stops S.made S.faults store.old store.new) }
    ensures count { S.faults store.old ≤ S.faults store.new }
    ensures log_count { L.faults clicks.old ≤ L.faults clicks.new }
{
    stays::<S>();
    topology_first::<S>();
    opened::<S>();
    read();
    fits();
    whole_stores();
    let wanted = Some(Topology {
        joiners: asked.joiners,
        table: asked.table,
    });
    let mut open = match open_for(alloc, store, &wanted, replicas, clicks, end) {
        Ok(open) => open,
        Err(fault) => return Err(fault),
    };
    match keep_topology(alloc, &mut open.topology, asked) {
        Ok(()) => Ok(open),
        Err(fault) => {
            give_back(store, open);
            Err(fault)
        }
    }
}
