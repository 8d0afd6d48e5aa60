// What an open disk keeps, for contracts alone.
use crate::disks::open_disk::{AnyJournal, OpenDisk};
use epoch_journal::Epochs;
use offset_journal::Offsets;
use output_log::{Outputs, Votes};
use outside::{Disk, DiskName};
use retry_log::Retries;
use std::marker::Model;
use std::snapshot::Snapshot;
use topology_journal::Topologies;

// What a journal of any kind keeps. It has no bytes.
#[derive(Drop)]
enum AnyRecords {
    Topology(Snapshot<Topologies>),
    Offset(Snapshot<Offsets>),
    Retry(Snapshot<Retries>),
    Epoch(Snapshot<Epochs>),
    Votes(Snapshot<Votes>),
    Output(Snapshot<Outputs>),
}

/// The name of a disk, and what it kept when it was looked at, which contracts alone see.
#[derive(Drop)]
pub struct OpenedDisk {
    name: DiskName,
    records: AnyRecords,
}

impl Model for OpenedDisk {
    ghost use Rattle.site_store.specs.Records.{KeptDisk, TopologyIs, OffsetIs, PendingAre, EpochIs, NotesAre, PairsAre};
    ghost use Rattle.site_store.specs.declared.disks.opened.AnyRecords.TheVariants.{Topology, Offset, Retry, Epoch, Votes, Output};

    ghost Value = { KeptDisk };

    ghost view = { λ o. record {
      name = o.name;
      kept = elim o.records [ Topology t ↦ TopologyIs t.value.kept | Offset j ↦ OffsetIs j.value.offset | Retry j ↦ PendingAre j.value.pending.keys | Epoch j ↦ EpochIs j.value.epoch | Votes j ↦ NotesAre j.value.notes.items | Output j ↦ PairsAre j.value.pairs.items ];
    } };
}

impl OpenedDisk {
    ghost use Rattle.std.specs.Prelude.{◌≡◌};
    ghost use Rattle.site_store.specs.Records.{kept_by};

    /// What a disk keeps now.
    pub fn of<D: Disk>(disk: &OpenDisk<D>) -> OpenedDisk
        ensures { result ≡ kept_by disk.now }
    {
        let records = match &disk.journal {
            AnyJournal::Topology(journal) => AnyRecords::Topology(Snapshot::of(journal.value())),
            AnyJournal::Offset(journal) => AnyRecords::Offset(Snapshot::of(journal.value())),
            AnyJournal::Retry(journal) => AnyRecords::Retry(Snapshot::of(journal.value())),
            AnyJournal::Epoch(journal) => AnyRecords::Epoch(Snapshot::of(journal.value())),
            AnyJournal::Votes(journal) => AnyRecords::Votes(Snapshot::of(journal.value())),
            AnyJournal::Output(journal) => AnyRecords::Output(Snapshot::of(journal.value())),
        };
        OpenedDisk {
            name: disk.name,
            records,
        }
    }
}
