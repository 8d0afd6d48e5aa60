// The journal on its disk.
ghost use Rattle.std.specs.Prelude.{◌≡◌, ◌≤◌, ◌^◌, true, false, IsTrue};
ghost use Rattle.gate_journal.specs.declared.journal.JournalState.TheVariants.{Ready};
ghost use Rattle.gate_journal.specs.Disk.{IsSettled};

use crate::frame::Frame;
use crate::opening::{open_disk, records_of, reopen_disk};
use crate::writing::append_record;
use crate::{JournalFault, Payloads};
use outside::Disk;
use std::alloc::{AllocError, Global};

/// Whether records can be appended.
#[derive(Clone, Copy, Debug, PartialEq, Eq)]
pub enum JournalState {
    /// Records can be appended.
    Ready,
    /// An append met a fault, or the journal was given up.
    Broken,
}

/// Why a record isn't appended.
#[derive(Clone, Copy, Debug, PartialEq, Eq)]
pub enum AppendFault {
    /// The disk failed in this call. Each image has the old records, or those and the new one.
    Disk,
    /// The journal was broken before. Nothing has changed.
    Broken,
}

/// A journal on a disk. While it is ready, the disk holds all that it reads: records, and then a closed gate.
///
/// It has a buffer for the longest record, 64 KiB. Opening and reading take memory and time linear in the file. An append takes time linear in its record, four changing
/// calls, and no memory.
#[derive(Drop)]
pub struct Journal<D: Disk> {
    disk: D,
    gate: u64,
    state: JournalState,
    frame: Frame,
    ghost limit: { gate ≤ 2 ^ 63 },
    ghost up: { IsTrue D.tells → state ≡ Ready → D.is_down disk ≡ false },
    ghost settled: { IsTrue D.tells → state ≡ Ready → IsSettled (D.seen disk) (D.image disk) gate },
}

impl<D: Disk> Journal<D> {
    ghost use Rattle.std.specs.Prelude.{◌≡◌, ◌≤◌, ◌+◌, ◌^◌, ◌++◌, [], ◌∷◌, ℕ, List, length, IsTrue, IfOk, IfErr, OnOk, OnErr, IsOk, IsErr, is_err, false, IsErrOf, Ok, Err};
    ghost use Rattle.outside.specs.Disk.{Throughout};
    ghost use Rattle.outside.specs.Faults.{Rose, Counts};
    ghost use Rattle.outside.specs.Plans.{MeetsPlan};
    ghost use Rattle.gate_journal.specs.declared.frame.TheConstants.{MAX_PAYLOAD};
    ghost use Rattle.gate_journal.specs.declared.journal.JournalState.TheVariants.{Ready, Broken};
    ghost use Rattle.gate_journal.specs.Disk.{HasRoom};
    ghost use Rattle.gate_journal.specs.Fault.{disk_failed, is_of_disk};
    ghost use Rattle.gate_journal.specs.Gate.{gate_rule, records, StandsFor, IsOldOrNew, spans};
    ghost use Rattle.gate_journal.specs.Opening.{IsOpened, IsRefused, IsRefusedAgain};
    ghost use Rattle.gate_journal.specs.Growth.{Continues};

    /// Opens what is on a disk, which is fresh or a journal. Hands the disk back where it is refused.
    pub fn open(alloc: Global, disk: D) -> Result<(Journal<D>, Payloads), (JournalFault, D)>
        ensures ok { IfOk result (λ r. (r.0.state ≡ Ready) × (IsTrue D.tells → (StandsFor r.1 (D.seen disk)) × StandsFor r.1 (D.seen r.0.disk))) }
        ensures reads { IsTrue D.tells → IfOk result (λ r. D.image r.0.disk (D.seen r.0.disk)) }
        ensures place { IfOk result (λ r. r.0.gate ≡ spans r.1) }
        ensures limit { IfOk result (λ r. spans r.1 ≤ 2 ^ 63) }
        ensures ok_any_moment { IsTrue D.tells → IfOk result (λ r. Throughout D.image D.since disk r.0.disk (IsOpened (D.image disk))) }
        ensures err { IfErr result (λ e. IsRefused D.tells (D.seen disk) (D.faults disk) (D.faults e.1) e.0) }
        ensures err_any_moment { IsTrue D.tells → IfErr result (λ e. Throughout D.image D.since disk e.1 (IsOpened (D.image disk))) }
        ensures ok_grows { IsTrue D.tells → IfOk result (λ r. Throughout D.image D.since disk r.0.disk (Continues (D.image disk))) }
        ensures err_grows { IsTrue D.tells → IfErr result (λ e. Throughout D.image D.since disk e.1 (Continues (D.image disk))) }
        ensures ok_plan { IsTrue D.planned → D.is_down disk ≡ false → IfOk result (λ r. MeetsPlan D.stops D.made D.faults 3 false disk r.0.disk) }
        ensures err_plan { IsTrue D.planned → D.is_down disk ≡ false → IfErr result (λ e. MeetsPlan D.stops D.made D.faults 3 (is_of_disk e.0) disk e.1) }
        ensures ok_count { IfOk result (λ r. D.faults disk ≤ D.faults r.0.disk) }
        ensures err_count { IfErr result (λ e. D.faults disk ≤ D.faults e.1) }
    {
        let frame = match Frame::new(alloc) {
            Ok(frame) => frame,
            Err(_) => return Err((JournalFault::Memory, disk)),
        };
        let mut disk = disk;
        match open_disk(alloc, &mut disk) {
            Ok((payloads, gate)) => Ok((
                Journal {
                    disk,
                    gate,
                    state: JournalState::Ready,
                    frame,
                },
                payloads,
            )),
            Err(fault) => Err((fault, disk)),
        }
    }

    /// Reopens the disk, which takes one image of it, and reads that. Where it is refused the journal stays broken.
    pub fn reopen(&mut self, alloc: Global) -> Result<Payloads, JournalFault>
        ensures ready { OnOk result (self.new.state ≡ Ready) }
        ensures place { IfOk result (λ records. spans records ≤ 2 ^ 63) }
        ensures records { IsTrue D.tells → IfOk result (λ records. StandsFor records (D.seen self.new.disk)) }
        ensures broken { OnErr result (self.new.state ≡ Broken) }
        ensures err { IfErr result (λ e. IsRefusedAgain D.tells (D.image self.old.disk) (D.faults self.old.disk) (D.faults self.new.disk) e) }
        ensures any_moment { IsTrue D.tells → Throughout D.image D.since self.old.disk self.new.disk (IsOpened (D.image self.old.disk)) }
        ensures grows { IsTrue D.tells → Throughout D.image D.since self.old.disk self.new.disk (Continues (D.image self.old.disk)) }
        ensures reads { IsTrue D.tells → OnOk result (D.image self.new.disk (D.seen self.new.disk)) }
        ensures plan { IsTrue D.planned → MeetsPlan D.stops D.made D.faults 3 (disk_failed result) self.old.disk self.new.disk }
        ensures count { D.faults self.old.disk ≤ D.faults self.new.disk }
    {
        self.state = JournalState::Broken;
        let (records, gate) = reopen_disk(alloc, &mut self.disk)?;
        self.gate = gate;
        self.state = JournalState::Ready;
        Ok(records)
    }

    /// Appends nothing more until the disk is read again.
    pub fn give_up(&mut self)
        ensures state { self.new.state ≡ Broken }
        ensures disk { self.new.disk ≡ self.old.disk }
    {
        self.state = JournalState::Broken;
    }

    /// The records of a disk's bytes as they read, with no changing call.
    pub fn read_again(alloc: Global, disk: &mut D) -> Result<Payloads, JournalFault>
        ensures place { IfOk result (λ records. spans records ≤ 2 ^ 63) }
        ensures records { IsTrue D.tells → IfOk result (λ records. StandsFor records (D.seen disk.old)) }
        ensures err { IfErr result (λ e. IsRefused D.tells (D.seen disk.old) (D.faults disk.old) (D.faults disk.new) e) }
        ensures seen { IsTrue D.tells → D.seen disk.new ≡ D.seen disk.old }
        ensures any_moment { IsTrue D.tells → Throughout D.image D.since disk.old disk.new (D.image disk.old) }
        ensures plan { IsTrue D.planned → D.is_down disk.old ≡ false → MeetsPlan D.stops D.made D.faults 0 (disk_failed result) disk.old disk.new }
        ensures count { D.faults disk.old ≤ D.faults disk.new }
    {
        records_of(alloc, disk)
    }

    /// Whether records can be appended.
    pub fn state(&self) -> JournalState
        ensures { result ≡ self.now.state }
    {
        self.state
    }

    /// Makes the disk's room for an append of a record up to this length.
    pub fn make_room(&mut self, alloc: Global, len: u32) -> Result<(), AllocError>
        requires { len ≤ MAX_PAYLOAD }
        ensures room { OnOk result (HasRoom (D.calls_left self.new.disk) (D.bytes_left self.new.disk) len) }
        ensures state { self.new.state ≡ self.old.state }
        ensures seen { IsTrue D.tells → D.seen self.new.disk ≡ D.seen self.old.disk }
        ensures image { IsTrue D.tells → Throughout D.image D.since self.old.disk self.new.disk (D.image self.old.disk) }
        ensures reads { IsTrue D.tells → D.image self.new.disk (D.seen self.new.disk) }
        ensures grows { IsTrue D.tells → Throughout D.image D.since self.old.disk self.new.disk (Continues (D.image self.old.disk)) }
        ensures plan { IsTrue D.tells → MeetsPlan D.stops D.made D.faults 0 false self.old.disk self.new.disk }
        ensures count { D.faults self.new.disk ≡ D.faults self.old.disk }
    {
        self.disk.make_room(alloc, 4, len + 6)
    }

    /// Appends a record. At `Ok` each image has it from now on.
    pub fn append(&mut self, payload: &[u8]) -> Result<(), AppendFault>
        requires { HasRoom (D.calls_left self.old.disk) (D.bytes_left self.old.disk) (length payload.now) }

        // At every moment since the call began, each image stands for the old records, or for them and the new one.
        ensures any_moment { IsTrue D.tells → self.old.state ≡ Ready → Throughout D.image D.since self.old.disk self.new.disk (IsOldOrNew (records (D.seen self.old.disk)) payload.now) }
        ensures grows { IsTrue D.tells → Throughout D.image D.since self.old.disk self.new.disk (Continues (D.image self.old.disk)) }

        // At `Ok` each image stands for them and the new one.
        ensures appended { IsTrue D.tells → OnOk result (records (D.seen self.new.disk) ≡ records (D.seen self.old.disk) ++ payload.now ∷ []) }
        ensures durable { IsTrue D.tells → OnOk result ((c : List ℕ) → D.image self.new.disk c → StandsFor (records (D.seen self.old.disk) ++ payload.now ∷ []) c) }

        // Only a planned stop among the four calls is a cause of the fault.
        ensures plan { IsTrue D.tells → self.old.state ≡ Ready → MeetsPlan D.stops D.made D.faults 4 (is_err result) self.old.disk self.new.disk }
        ensures made { IsTrue D.tells → OnOk result (D.made self.new.disk ≡ D.made self.old.disk + 4) }

        ensures reads { IsTrue D.tells → OnOk result (D.image self.new.disk (D.seen self.new.disk)) }
        ensures ready { OnOk result ((self.old.state ≡ Ready) × (self.new.state ≡ Ready)) }
        ensures fault { IsErrOf result AppendFault.Disk → (self.new.state ≡ Broken) × Rose (D.faults self.old.disk) (D.faults self.new.disk) }
        ensures broken { self.old.state ≡ Broken → (result ≡ Err AppendFault.Broken) × (self.new ≡ self.old) }
        ensures only_broken { IsErrOf result AppendFault.Broken → self.old.state ≡ Broken }
        ensures count { D.faults self.old.disk ≤ D.faults self.new.disk }
    {
        if self.state == JournalState::Broken {
            return Err(AppendFault::Broken);
        }
        self.frame.refill(payload);
        let gate = self.gate;
        match append_record(&mut self.disk, gate, &self.frame) {
            Ok(()) => {
                self.gate = gate + 5 + payload.len() as u64;
                Ok(())
            }
            Err(_) => {
                self.state = JournalState::Broken;
                Err(AppendFault::Disk)
            }
        }
    }

    /// The disk, which holds the journal.
    pub fn into_disk(self) -> D
        ensures { result ≡ self.disk }
    {
        self.disk
    }
}
