// The run of all nodes, of whatever kind they are.
ghost use Rattle.std.specs.Prelude.{◌≡◌, ◌<◌, ◌≤◌, ◌+◌, ◌*◌, ◌∷◌, [], ℕ, List, None, length, slice_index_or, vec_capacity, true, false, IsTrue, IfErr, IfSome};
ghost use Rattle.std.specs.List.{All};
ghost use Rattle.site_run.specs.Terms.{AllAsPlanned, DiskName, Disks, HasSoon, IsCounted, IsRunnable, Left, MayBeLeft, Rose, Setting};
ghost use Rattle.outside.specs.declared.store.DiskName.TheVariants as name;
ghost use Rattle.site_run.specs.Heard.{IsHeardOf, kinds_of};
ghost use Rattle.site_run.specs.Running.{AreDownOver};
ghost use Rattle.site_run.specs.Naming.{as_lent, all_from, count_of};
ghost use Rattle.site_run.specs.Refused.{NamesEnded};
ghost use Rattle.site_run.specs.Laws.{AreHeld, AreMet, KeepsItsRecord};
ghost use Rattle.site_run.specs.Stops.{ArePlanned, RunsAsPlanned};
ghost use Rattle.site_run.specs.Over.{NodesEnd};

use crate::built::{Parting, Parts, apart};
use crate::disk_laws::none_stops;
use crate::settle::{give_parts, part_all, settle};
use crate::{Config, Machine, Outcome, Ran, RunFault, RunLog};
use air_bus::Trail;
use lossy_link::{Kind, Plan};
use outside::{Gate, Source, Store};
use site_laws::stores::{once, read};
use site_store::{LentDisk, OpenedDisk};
use site_workers::run;
use std::sync::Wait;
use std::thread::Threads;

/// Runs nodes until all are at rest or one has a fault, takes them apart, reads the journals back, and gives all back with the
/// topology's disk. `ran` gets the history, nothing where there was no memory to begin.
pub(crate) fn run_system<F: Source, S: Store<Disk: Drop>, N>(
    machine: Machine<'_, impl Threads + Wait + Sync, impl Gate>,
    config: &Config,
    files: &mut F,
    store: &mut S,
    plan: Plan,
    ran: &mut Ran,
    topology: LentDisk<S::Disk>,
    opened: Trail<OpenedDisk>,
    kinds: &[Kind],
    nodes: Vec<N>,
    parts: Parts<S::Disk, F::Log>,
) -> Result<Outcome, RunFault>
where
    N: Parting<S::Disk, F::Log> + Send + Drop,
    requires ranges { IsRunnable config.now }
    requires kinds { kinds.now ≡ kinds_of config.now.joiners config.now.replicas }
    requires count { length nodes.items ≡ count_of config.now }
    requires numbers { (i : ℕ) (d : N) → i < length nodes.items → N.number (slice_index_or nodes.items i d) ≡ i }
    requires up { All (λ n. N.waits n ≡ false) nodes.items }
    requires empty { (parts.disks.items ≡ []) × (parts.logs.items ≡ []) }
    requires room { (2 * count_of config.now < vec_capacity parts.disks) × (count_of config.now ≤ vec_capacity parts.logs) }
    requires places { 1 + length (all_from (N.disks_of config.now) 0 nodes.items) ≤ S.places_left store.old }
    requires none { ran.old.log ≡ None }
    // Where no run began each disk is given back as it was.
    ensures idle { IsTrue S.Disk.tells → ran.new.log ≡ None → (disk : DiskName) (c : List ℕ) → S.image store.new disk c → MayBeLeft S.Disk.image (S.image store.old) (as_lent topology ∷ all_from (N.disks_of config.now) 0 nodes.items) disk c }
    // How it ends for whatever records the nodes were opened over.
    ensures over { IsTrue S.Disk.tells → IsTrue N.tells → (g : Setting) (d : Disks) → g.config ≡ config.now → AreHeld S.Disk.image N.places N.grown N.disks_of
        → AreMet S.Disk.faults F.Log.faults N.SiteNode N.places N.disks_of N.logs_of → AreDownOver N.places g d nodes.items → KeepsItsRecord S.Disk.image g (as_lent topology)
        → NodesEnd S.Disk.image S.image g d store.old store.new (as_lent topology) (all_from (N.disks_of config.now) 0 nodes.items) (Rose (S.faults store.old) (S.faults store.new)) ran.new.log result }
    ensures heard { IfSome ran.new.log (IsHeardOf plan config.now.joiners config.now.replicas) }
    ensures opened { IfSome ran.new.log (λ l. l.opened ≡ opened) }
    ensures cause { AreMet S.Disk.faults F.Log.faults N.SiteNode N.places N.disks_of N.logs_of
        → IfErr result (IsCounted (Rose (F.faults files.old) (F.faults files.new)) (Rose (S.faults store.old) (S.faults store.new))) }
    ensures stopped { IfErr result (NamesEnded ran.new.log) }
    // No node stops more often than was planned for its disks, and where no stop is planned no disk meets a fault. Where nodes are spared it
    // gives up for none of their disks.
    ensures stops { IsTrue S.Disk.planned → IsTrue N.planned → (g : Setting) (d : Disks) (s : S) → g.config ≡ config.now → AreHeld S.Disk.image N.places N.grown N.disks_of → AreDownOver N.places g d nodes.items
        → ArePlanned S.Disk.stops S.Disk.made S.Disk.faults S.Disk.is_down N.stops_left N.faults N.waits N.disks_of → topology.name ≡ name.Topology
        → AllAsPlanned S.Disk.stops S.Disk.made S.Disk.faults (Left S.stops S.made s) (as_lent topology ∷ all_from (N.disks_of config.now) 0 nodes.items)
        → RunsAsPlanned (Left S.stops S.made s) (HasSoon S.stops S.made s) g ran.new.log (S.faults store.old) (S.faults store.new) result }
    ensures same { IsTrue F.Log.tells → (n : List ℕ) → F.bytes files.new n ≡ F.bytes files.old n }
    ensures file_count { F.faults files.old ≤ F.faults files.new }
    ensures store_count { S.faults store.old ≤ S.faults store.new }
{
    turn_defs::laws::node_numbers();
    air_bus::laws::dead_have_no_entry();
    site_laws::aired_is_run();
    site_laws::numbers_end();
    site_laws::rest_of_states();
    none_stops();
    once();
    read();
    let Machine { rt, alloc, gate } = machine;
    let mut parts = parts;
    parts.disks.push_reserved(topology);
    let is_recorded = ran.is_recorded;
    match run(rt, alloc, kinds, plan, nodes, gate, is_recorded) {
        Ok(left) => {
            let site_workers::Ran {
                air,
                seen,
                nodes,
                ..
            } = left;
            ran.log = Some(RunLog { air, seen, opened });
            let (parts, fault) = part_all(nodes, config, parts);
            settle(alloc, files, store, parts, fault)
        }
        Err(back) => {
            let (_, nodes) = back;
            let parts = apart(nodes, config, parts);
            give_parts(files, store, parts);
            Err(RunFault::Memory)
        }
    }
}
