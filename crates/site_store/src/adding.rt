// A row behind those of the table that a store keeps.
ghost use Rattle.std.specs.Prelude.{◌≡◌, ◌≤◌, [], ◌∷◌, IsTrue, IfOk, IfErr, Ok};
ghost use Rattle.std.specs.List.{fold};
ghost use Rattle.site_store.specs.Terms.{MayCome, Rose, taken, too_soon_for};
ghost use Rattle.time_shards.specs.declared.TheConstants.{MAX_SHARDS};
ghost use Rattle.site_store.specs.Records.{kept_all, kept_by, values_of};
ghost use Rattle.site_store.specs.Adding.{IsAdded, IsAnswer, IsRowCause, IsUnadded, LeavesBy, accepted, unfit_by};

pub mod rows;

use crate::disks::{AnyJournal, OpenDisk, OpenStore};
use crate::{first_limit, give_back, open_disks, write_topology};
use outside::{Disk, Store};
use run_fault::{RunFault, Unfit};
use site_laws::stores::{fits, once, read, row_added, stays};
use std::alloc::Global;
use time_shards::{AddFault, ShardRow, Table};
use topology_journal::Topology;
use verify_pass::{Latest, TooSoon};

// With what this disk's notes accept.
fn take_notes<D: Disk>(latest: &mut Latest, disk: &OpenDisk<D>, start: u64)
    ensures { latest.new ≡ fold (taken start) latest.old (accepted (kept_by disk.now ∷ [])) }
{
    if let AnyJournal::Votes(journal) = &disk.journal {
        latest.take_all(journal.value().notes(), start);
    }
}

// What any replica accepted and forbids this start, if anything does.
fn forbidding<D: Disk>(disks: &[OpenDisk<D>], start: u64) -> Option<TooSoon>
    ensures { result ≡ too_soon_for (accepted (kept_all disks.now)) start }
{
    let mut latest = Latest::new();
    for disk in disks {
        take_notes(&mut latest, disk, start);
    }
    latest.forbids(start)
}

fn told(soon: TooSoon) -> Unfit
    ensures { result ≡ unfit_by soon }
{
    match soon {
        TooSoon::Bound(bound) => Unfit::Bound(bound),
        TooSoon::Id(id) => Unfit::Id(id),
    }
}

// The kept topology with this row, or the first reason against it.
#[tactic(auto, using(crate::proofs::Added::answers, crate::proofs::Added::limit_unadded))]
fn longer<D: Disk>(opened: &OpenStore<D>, row: ShardRow) -> Result<Topology, RunFault>
    requires some { 1 ≤ row.count }
    requires few { row.count ≤ MAX_SHARDS }
    ensures longer { IfOk result (λ t. IsAnswer (values_of opened.now.topology.value.kept opened.now.disks.items) row (Ok t)) }
    ensures next { IfOk result (λ t. MayCome opened.now.topology.value.kept t) }
    ensures unadded { IfErr result (IsUnadded (values_of opened.now.topology.value.kept opened.now.disks.items) row) }
{
    if let Some(fault) = first_limit(&opened.disks) {
        return Err(fault);
    }
    let Some(kept) = opened.topology.value().kept() else {
        return Err(RunFault::Reshard(Unfit::NoTopology));
    };
    let table = match kept.table.add(row.start, row.count) {
        Ok(table) => table,
        Err(AddFault::Rows) => return Err(RunFault::Reshard(Unfit::Rows)),
        Err(AddFault::Start { last }) => {
            return Err(RunFault::Reshard(Unfit::Start {
                last,
                asked: row.start,
            }));
        }
    };
    match forbidding(&opened.disks, row.start) {
        None => Ok(Topology {
            joiners: kept.joiners,
            table,
        }),
        Some(soon) => Err(RunFault::Reshard(told(soon))),
    }
}

/// Puts a row behind those of the table that a store of so many replicas keeps, and gives all its disks back. It answers the longer table. The row is refused
/// for the first of these: a disk that isn't opened, an epoch, a round or a slot that is at its limit, no topology that is kept, a
/// table that can't have the row, and what any replica accepted at its start or later. Each leaves the store as it was. Last, the
/// record may not be written: then the topology's disk has its old records, or those and the new one.
///
/// Each file is read once. Time and memory are linear in the files.
#[tactic(auto, using(crate::proofs::Added::unadded_cause, crate::proofs::Causes::unopened_cause, crate::proofs::Causes::unwritten_cause))]
pub fn add_row<S: Store>(
    alloc: Global,
    store: &mut S,
    replicas: u8,
    row: ShardRow,
) -> Result<Table, RunFault>
    requires some { 1 ≤ row.count }
    requires few { row.count ≤ MAX_SHARDS }
    ensures added { IfOk result (IsAdded S.Disk.tells (S.image store.old) replicas row (S.image store.new)) }
    ensures cause { IfErr result (IsRowCause S.Disk.tells (S.image store.old) replicas row (Rose (S.faults store.old) (S.faults store.new))) }

    // All disks are back.
    ensures leaves { IsTrue S.Disk.tells → LeavesBy S.Disk.tells (S.image store.old) replicas row (S.image store.new) result }
    ensures count { S.faults store.old ≤ S.faults store.new }
{
    stays::<S>();
    row_added::<S>();
    once();
    read();
    fits();
    let mut open = match open_disks(alloc, store, 0, replicas) {
        Ok(open) => open,
        Err(fault) => return Err(fault),
    };
    let asked = match longer(&open, row) {
        Ok(asked) => asked,
        Err(fault) => {
            give_back(store, open);
            return Err(fault);
        }
    };
    let table = asked.table;
    let written = write_topology(alloc, &mut open.topology, asked);
    give_back(store, open);
    match written {
        Ok(()) => Ok(table),
        Err(fault) => Err(fault),
    }
}
