// Whether opened disks fit what was asked.
ghost use Rattle.std.specs.Prelude.{◌≡◌, MatchOption};
ghost use Rattle.std.specs.List.{list_any};
ghost use Rattle.site_store.specs.Records.{kept_all};
ghost use Rattle.site_store.specs.Misfits.{IsFit, IsMisfit, is_full_note, limit_at, limit_in};

use crate::disks::{AnyJournal, OpenDisk};
use ballot_core::LAST_EPOCH;
use outside::Disk;
use paxos_acceptor::ReplicaNote;
use run_fault::{Mismatch, RunFault};
use topology_journal::{Topology, TopologyJournal};
use turn_defs::LAST_SLOT;

/// Why the kept topology doesn't fit the asked one, if one is kept and doesn't.
pub fn topology_misfit<D: Disk>(topology: &TopologyJournal<D>, asked: &Topology) -> Option<RunFault>
    ensures { MatchOption result (IsFit topology.now.value.kept asked.now) (IsMisfit topology.now.value.kept asked.now) }
{
    let kept = topology.value().kept()?;
    if kept.joiners != asked.joiners {
        return Some(RunFault::Topology(Mismatch::Joiners {
            kept: kept.joiners,
            asked: asked.joiners,
        }));
    }
    if kept.table.rows() != asked.table.rows() {
        return Some(RunFault::Topology(Mismatch::Table {
            kept: kept.table,
            asked: asked.table,
        }));
    }
    None
}

fn is_full(note: &ReplicaNote) -> bool
    ensures { result ≡ is_full_note note.now }
{
    match note {
        ReplicaNote::Promised { slot, ballot, .. } => *slot == LAST_SLOT
            || ballot.round == LAST_SLOT,
        ReplicaNote::Accepted { slot, ballot, .. } => *slot == LAST_SLOT
            || ballot.round == LAST_SLOT,
    }
}

fn are_full(notes: &[ReplicaNote]) -> bool
    ensures { result ≡ list_any is_full_note notes.now }
{
    notes.iter().any(|note| is_full(note))
}

// Whether this disk's epoch is the last one, or a round or a slot that it notes is.
fn limit<D: Disk>(disk: &OpenDisk<D>) -> Option<RunFault>
    ensures { result ≡ limit_at disk.now.name disk.now.kept }
{
    let (spent, value) = match &disk.journal {
        AnyJournal::Epoch(journal) => (
            journal.value().epoch() == LAST_EPOCH,
            u64::from(LAST_EPOCH),
        ),
        AnyJournal::Votes(journal) => (are_full(journal.value().notes()), LAST_SLOT),
        _ => (false, 0),
    };
    if !spent {
        return None;
    }
    Some(RunFault::Limit {
        disk: disk.name,
        value,
    })
}

/// The first of these disks, if there is one, whose epoch is the last one, or that notes the last round or the last slot. Linear
/// in disks and notes.
pub fn first_limit<D: Disk>(disks: &[OpenDisk<D>]) -> Option<RunFault>
    ensures { result ≡ limit_in (kept_all disks.now) }
{
    for disk in disks {
        if let Some(fault) = limit(disk) {
            return Some(fault);
        }
    }
    None
}
