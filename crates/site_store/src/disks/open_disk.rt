// An open disk of a store.
ghost use Rattle.site_store.specs.Terms.{Ready};

use epoch_journal::EpochJournal;
use gate_journal::JournalFault;
use offset_journal::OffsetJournal;
use output_log::{OutputLog, VoteJournal};
use outside::{Disk, DiskName};
use retry_log::RetryLog;
use std::alloc::Global;
use std::marker::Model;
use topology_journal::TopologyJournal;

/// A journal of any kind.
#[derive(Drop)]
pub enum AnyJournal<D: Disk> {
    Topology(TopologyJournal<D>),
    Offset(OffsetJournal<D>),
    Retry(RetryLog<D>),
    Epoch(EpochJournal<D>),
    Votes(VoteJournal<D>),
    Output(OutputLog<D>),
}

/// A disk of a store under its name, with its journal, which is of the kind that the name says, and ready for records. Contracts
/// see the name, the disk, and what the journal keeps.
#[derive(Drop)]
pub struct OpenDisk<D: Disk> {
    pub(crate) name: DiskName,
    pub(crate) journal: AnyJournal<D>,
}

impl<D: Disk> Model for OpenDisk<D> {
    ghost use Rattle.std.specs.Prelude.{◌≡◌};
    ghost use Rattle.gate_journal.specs.declared.journal.JournalState.TheVariants.{Ready};
    ghost use Rattle.site_store.specs.Records.{OpenView, TopologyIs, OffsetIs, PendingAre, EpochIs, NotesAre, PairsAre, IsOfKind};
    ghost use Rattle.site_store.specs.declared.disks.open_disk.AnyJournal.TheVariants.{Topology, Offset, Retry, Epoch, Votes, Output};

    ghost Value = { OpenView D };

    ghost view = { λ o. record {
      name = o.name;
      disk = elim o.journal [ Topology t ↦ t.journal.disk | Offset j ↦ j.journal.disk | Retry j ↦ j.journal.disk | Epoch j ↦ j.journal.disk | Votes j ↦ j.journal.disk | Output j ↦ j.journal.disk ];
      kept = elim o.journal [ Topology t ↦ TopologyIs t.value.kept | Offset j ↦ OffsetIs j.value.offset | Retry j ↦ PendingAre j.value.pending.keys | Epoch j ↦ EpochIs j.value.epoch | Votes j ↦ NotesAre j.value.notes.items | Output j ↦ PairsAre j.value.pairs.items ];
    } };

    ghost invariant = { λ o.
        IsOfKind o.name (elim o.journal [ Topology t ↦ TopologyIs t.value.kept | Offset j ↦ OffsetIs j.value.offset | Retry j ↦ PendingAre j.value.pending.keys | Epoch j ↦ EpochIs j.value.epoch | Votes j ↦ NotesAre j.value.notes.items | Output j ↦ PairsAre j.value.pairs.items ])
        × (elim o.journal [ Topology t ↦ t.journal.state ≡ Ready | Offset j ↦ j.journal.state ≡ Ready | Retry j ↦ j.journal.state ≡ Ready | Epoch j ↦ j.journal.state ≡ Ready | Votes j ↦ j.journal.state ≡ Ready | Output j ↦ j.journal.state ≡ Ready ]) };
}

impl<D: Disk> OpenDisk<D> {
    ghost use Rattle.std.specs.Prelude.{◌≡◌, ◌⊎◌, ℕ, false, IsTrue, IfOk, IfErr};
    ghost use Rattle.outside.specs.Plans.{MeetsPlan};
    ghost use Rattle.gate_journal.specs.Fault.{is_of_disk};
    ghost use Rattle.outside.specs.declared.store.DiskName.TheVariants as name;
    ghost use Rattle.gate_journal.specs.declared.journal.JournalState.TheVariants.{Ready};
    ghost use Rattle.gate_journal.specs.Images.{StaysAs, IsKeptIn};
    ghost use Rattle.site_store.specs.Kinds.{damaged_by};
    ghost use Rattle.site_store.specs.Opening.{IsRefusedBy};
    ghost use Rattle.site_store.specs.Records.{TopologyIs, OffsetIs, PendingAre, EpochIs, NotesAre, PairsAre, IsOfKind, KeepsAs, AllKept};

    /// Opens what is on a disk, which is fresh or of the kind that its name says. Hands the disk back where it is refused.
    pub fn open(alloc: Global, name: DiskName, disk: D) -> Result<OpenDisk<D>, (JournalFault, D)>
        ensures name { IfOk result (λ o. o.name ≡ name) }
        ensures kind { IfOk result (λ o. IsOfKind name o.kept) }
        ensures kept { IsTrue D.tells → IfOk result (λ o. IsKeptIn (D.image disk) (KeepsAs o.kept)) }
        ensures stays { IsTrue D.tells → IfOk result (λ o. StaysAs (D.image disk) (D.image o.disk)) }
        ensures err { IfErr result (λ e. IsRefusedBy (damaged_by name) D.tells (D.seen disk) (D.faults disk) (D.faults e.1) e.0) }
        ensures ok_plan { IsTrue D.planned → D.is_down disk ≡ false → IfOk result (λ o. MeetsPlan D.stops D.made D.faults 3 false disk o.disk) }
        ensures err_plan { IsTrue D.planned → D.is_down disk ≡ false → IfErr result (λ e. MeetsPlan D.stops D.made D.faults 3 (is_of_disk e.0) disk e.1) }
        ensures err_stays { IsTrue D.tells → IfErr result (λ e. StaysAs (D.image disk) (D.image e.1)) }
    {
        match name {
            DiskName::Topology => Ok(OpenDisk {
                name,
                journal: AnyJournal::Topology(TopologyJournal::open(alloc, disk)?),
            }),
            DiskName::Offset(_) => Ok(OpenDisk {
                name,
                journal: AnyJournal::Offset(OffsetJournal::open(alloc, disk)?),
            }),
            DiskName::Retry(_) => Ok(OpenDisk {
                name,
                journal: AnyJournal::Retry(RetryLog::open(alloc, disk)?),
            }),
            DiskName::Server(_) => Ok(OpenDisk {
                name,
                journal: AnyJournal::Epoch(EpochJournal::open(alloc, disk)?),
            }),
            DiskName::Replica(_) => Ok(OpenDisk {
                name,
                journal: AnyJournal::Votes(VoteJournal::open(alloc, disk)?),
            }),
            DiskName::Epoch(_, _) => Ok(OpenDisk {
                name,
                journal: AnyJournal::Epoch(EpochJournal::open(alloc, disk)?),
            }),
            DiskName::Output(_, _) => Ok(OpenDisk {
                name,
                journal: AnyJournal::Output(OutputLog::open(alloc, disk)?),
            }),
        }
    }

    /// The name of the disk.
    pub fn name(&self) -> DiskName
        ensures { result ≡ self.now.name }
    {
        self.name
    }

    /// The disk, which holds the journal.
    pub fn into_disk(self) -> D
        ensures disk { result ≡ self.disk }
        ensures keeps { IsTrue D.tells → AllKept D.image self }
    {
        match self.journal {
            AnyJournal::Topology(journal) => journal.into_disk(),
            AnyJournal::Offset(journal) => journal.into_disk(),
            AnyJournal::Retry(journal) => journal.into_disk(),
            AnyJournal::Epoch(journal) => journal.into_disk(),
            AnyJournal::Votes(journal) => journal.into_disk(),
            AnyJournal::Output(journal) => journal.into_disk(),
        }
    }

    /// The journal of the topology.
    pub fn into_topology(self) -> TopologyJournal<D>
        requires { self.name ≡ name.Topology }
        ensures disk { self.disk ≡ result.journal.disk }
        ensures kept { self.kept ≡ TopologyIs result.value.kept }
        ensures ready { result.journal.state ≡ Ready }
    {
        match self.journal {
            AnyJournal::Topology(journal) => journal,
            _ => unreachable!(),
        }
    }

    /// The journal of a site's offset.
    pub fn into_offset(self) -> OffsetJournal<D>
        requires { (site : ℕ) × (self.name ≡ name.Offset site) }
        ensures disk { self.disk ≡ result.journal.disk }
        ensures kept { self.kept ≡ OffsetIs result.value.offset }
        ensures ready { result.journal.state ≡ Ready }
    {
        match self.journal {
            AnyJournal::Offset(journal) => journal,
            _ => unreachable!(),
        }
    }

    /// The log of a site's pending positions.
    pub fn into_retry(self) -> RetryLog<D>
        requires { (site : ℕ) × (self.name ≡ name.Retry site) }
        ensures disk { self.disk ≡ result.journal.disk }
        ensures kept { self.kept ≡ PendingAre result.value.pending.keys }
        ensures ready { result.journal.state ≡ Ready }
    {
        match self.journal {
            AnyJournal::Retry(journal) => journal,
            _ => unreachable!(),
        }
    }

    /// The journal of a replica.
    pub fn into_votes(self) -> VoteJournal<D>
        requires { (replica : ℕ) × (self.name ≡ name.Replica replica) }
        ensures disk { self.disk ≡ result.journal.disk }
        ensures kept { self.kept ≡ NotesAre result.value.notes.items }
        ensures ready { result.journal.state ≡ Ready }
    {
        match self.journal {
            AnyJournal::Votes(journal) => journal,
            _ => unreachable!(),
        }
    }

    /// The journal of a server's epochs, or of a joiner's.
    pub fn into_epochs(self) -> EpochJournal<D>
        requires { ((site : ℕ) × (self.name ≡ name.Server site)) ⊎ ((site : ℕ) × (joiner : ℕ) × (self.name ≡ name.Epoch site joiner)) }
        ensures disk { self.disk ≡ result.journal.disk }
        ensures kept { self.kept ≡ EpochIs result.value.epoch }
        ensures ready { result.journal.state ≡ Ready }
    {
        match self.journal {
            AnyJournal::Epoch(journal) => journal,
            _ => unreachable!(),
        }
    }

    /// The log of a joiner's pairs.
    pub fn into_output(self) -> OutputLog<D>
        requires { (site : ℕ) × (joiner : ℕ) × (self.name ≡ name.Output site joiner) }
        ensures disk { self.disk ≡ result.journal.disk }
        ensures kept { self.kept ≡ PairsAre result.value.pairs.items }
        ensures ready { result.journal.state ≡ Ready }
    {
        match self.journal {
            AnyJournal::Output(journal) => journal,
            _ => unreachable!(),
        }
    }
}
