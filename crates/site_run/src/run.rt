// The run.
ghost use Rattle.std.specs.Prelude.{◌≡◌, ◌≤◌, ℕ, List, None, IsTrue, IfErr, IfSome};
ghost use Rattle.site_run.specs.Terms.{Checked, HasSoon, IsCounted, IsRunnable, Left, Rose, Setting, kept_all};
ghost use Rattle.site_run.specs.Asked.{IsSettingOver, OfSetting};
ghost use Rattle.site_run.specs.Making.{AreEnough, IsRoomFor};
ghost use Rattle.site_run.specs.Stops.{RunsAsPlanned};
ghost use Rattle.site_run.specs.Heard.{IsHeardOf};
ghost use Rattle.site_run.specs.Over.{RunsOver};
ghost use Rattle.site_run.specs.Refused.{NamesEnded};

use crate::built::{Built, Logs, Room, build, take_last};
use crate::disk_laws::{all_held, all_met, all_planned};
use crate::nodes::AnyNode;
use crate::settle::give_parts;
use crate::sources::{open_logs, shut_logs};
use crate::system::run_system;
use crate::{Config, Machine, Names, Outcome, Ran, RunFault};
use air_bus::Trail;
use lossy_link::Plan;
use outside::{Disk, DiskName, Gate, Source, Store};
use site_laws::stores::topology_first;
use site_store::{LentDisk, OpenDisk, OpenedDisk, open_store};
use std::alloc::Global;
use std::random::RandomSource;
use std::sync::Wait;
use std::thread::Threads;
use topology_journal::Topology;

/// Runs both sites over the store in this directory, on a thread a node, until all nodes are at rest or one has a fault, and reads
/// back what its disks keep then. `end` is the end of the click log's last whole line. All logs and disks are given back at every
/// return, and `ran` gets what the run leaves, nothing where none began.
///
/// It opens the click log twice and the query log once for each joiner, and takes a thread for each node. The history takes no memory, but
/// where `ran` asks for its entries each takes some, with its packets.
///
/// What is said of the disks is said where the disks and the logs tell what they hold.
pub fn run_sites<R, F, S, G>(
    rt: &R,
    alloc: Global,
    config: &Config,
    names: &Names<'_>,
    end: u64,
    files: &mut F,
    store: &mut S,
    plan: Plan,
    gate: &G,
    ran: &mut Ran,
) -> Result<Outcome, RunFault>
where
    R: Threads + Wait + RandomSource + Sync,
    F: Source,
    S: Store,
    G: Gate,
    F::Log: Drop,
    S::Disk: Drop,
    requires ranges { IsRunnable config.now }

    // How it ends for whatever setting the logs make.
    ensures over { IsTrue S.Disk.tells → IsTrue F.Log.tells → OfSetting (F.bytes files.old) names.now.queries.now names.now.clicks.now config.now end (λ g. RunsOver g (S.image store.old) (S.image store.new)
        (Rose (F.faults files.old) (F.faults files.new)) (Rose (S.faults store.old) (S.faults store.new)) ran.new.log result) }

    // What is heard of it, whatever logs and disks tell; and why it gives up. A fault that names a node is of one that stopped eight
    // times, or couldn't be reopened.
    ensures heard { IfSome ran.new.log (IsHeardOf plan config.now.joiners config.now.replicas) }
    ensures cause { IfErr result (IsCounted (Rose (F.faults files.old) (F.faults files.new)) (Rose (S.faults store.old) (S.faults store.new))) }
    ensures stopped { IfErr result (NamesEnded ran.new.log) }
    // No node stops more often than was planned for its disks, and where no stop is planned no disk meets a fault. Where nodes are spared it
    // gives up for no disk.
    ensures stops { IsTrue S.Disk.planned → IsTrue F.Log.tells → OfSetting (F.bytes files.old) names.now.queries.now names.now.clicks.now config.now end (λ g. RunsAsPlanned (Left S.stops S.made store.old) (HasSoon S.stops S.made store.old) g ran.new.log (S.faults store.old) (S.faults store.new) result) }
    ensures same { IsTrue F.Log.tells → (n : List ℕ) → F.bytes files.new n ≡ F.bytes files.old n }
    ensures file_count { F.faults files.old ≤ F.faults files.new }
    ensures store_count { S.faults store.old ≤ S.faults store.new }
{
    photon_model::stores();
    ran.log = None;
    let Ok(room) = Room::new(rt, alloc, config) else {
        return Err(RunFault::Memory);
    };
    let logs = match open_logs(alloc, files, names, config.joiners) {
        Ok(logs) => logs,
        Err(fault) => return Err(fault),
    };
    if let Err(fault) = store.place(alloc, names.state) {
        shut_logs(files, logs);
        return Err(RunFault::from(fault));
    }
    let machine = Machine { rt, alloc, gate };
    run_over(machine, config, end, files, store, plan, ran, logs, room)
}

// Opens the store, builds the nodes over it, runs them, and gives all back.
fn run_over<F: Source<Log: Drop>, S: Store<Disk: Drop>>(
    machine: Machine<'_, impl Threads + Wait + Sync, impl Gate>,
    config: &Config,
    end: u64,
    files: &mut F,
    store: &mut S,
    plan: Plan,
    ran: &mut Ran,
    logs: Logs<F::Log>,
    room: Room<S::Disk, F::Log, AnyNode<S::Disk, F::Log>>,
) -> Result<Outcome, RunFault>
    requires ranges { IsRunnable config.now }
    requires room { IsRoomFor config.now room }
    requires logs { AreEnough config.now.joiners logs }
    requires none { ran.old.log ≡ None }
    ensures over { IsTrue S.Disk.tells → IsTrue F.Log.tells → (g : Setting) → Checked g → IsSettingOver F.Log.bytes logs.clicks.items logs.queries.items config.now end g → RunsOver g (S.image store.old) (S.image store.new)
        (Rose (F.faults files.old) (F.faults files.new)) (Rose (S.faults store.old) (S.faults store.new)) ran.new.log result }
    ensures heard { IfSome ran.new.log (IsHeardOf plan config.now.joiners config.now.replicas) }
    ensures cause { IfErr result (IsCounted (Rose (F.faults files.old) (F.faults files.new)) (Rose (S.faults store.old) (S.faults store.new))) }
    ensures stopped { IfErr result (NamesEnded ran.new.log) }
    ensures stops { IsTrue S.Disk.planned → IsTrue F.Log.tells → (g : Setting) → Checked g → IsSettingOver F.Log.bytes logs.clicks.items logs.queries.items config.now end g
        → RunsAsPlanned (Left S.stops S.made store.old) (HasSoon S.stops S.made store.old) g ran.new.log (S.faults store.old) (S.faults store.new) result }
    ensures same { IsTrue F.Log.tells → (n : List ℕ) → F.bytes files.new n ≡ F.bytes files.old n }
    ensures file_count { F.faults files.old ≤ F.faults files.new }
    ensures store_count { S.faults store.old ≤ S.faults store.new }
{
    topology_first::<S>();
    site_laws::stores::run::<S>();
    all_held::<S::Disk, F::Log>();
    all_met::<S::Disk, F::Log>();
    all_planned::<S::Disk, F::Log>();
    let asked = Topology {
        joiners: config.joiners,
        table: config.table,
    };
    let mut logs = logs;
    let mut read = take_last(&mut logs.clicks);
    let opened = match open_store(machine.alloc, store, asked, config.replicas, &mut read, end) {
        Ok(opened) => opened,
        Err(fault) => {
            logs.clicks.push_reserved(read);
            shut_logs(files, logs);
            return Err(fault);
        }
    };
    logs.clicks.push_reserved(read);
    let kept = kept_by_all(&opened.disks);
    let built = match build(machine.alloc, config, opened, logs, room) {
        Ok(built) => built,
        Err(parts) => {
            give_parts(files, store, parts);
            return Err(RunFault::Memory);
        }
    };
    let Built {
        topology,
        kinds,
        nodes,
        parts,
    } = built;
    let topology = LentDisk {
        name: DiskName::Topology,
        disk: topology.into_disk(),
    };
    run_system(
        machine, config, files, store, plan, ran, topology, kept, &kinds, nodes, parts,
    )
}

// What open disks keep.
fn kept_by_all<D: Disk>(disks: &[OpenDisk<D>]) -> Trail<OpenedDisk>
    ensures { result ≡ kept_all disks.now }
{
    let mut kept = Trail::new();
    for disk in disks {
        kept.tell(&OpenedDisk::of(disk));
    }
    kept
}
