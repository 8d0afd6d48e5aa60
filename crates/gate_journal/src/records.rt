// A journal of records of one kind on its disk.
ghost use Rattle.std.specs.Prelude.{◌≡◌, ◌≤◌, ◌+◌, ◌^◌, ◌++◌, [], ◌∷◌, ℕ, List, IsTrue, IfOk, IfErr, OnOk, OnErr, IsErrOf, is_err, false, Ok, Err};
ghost use Rattle.std.specs.Coded.{→_prop, Π_prop};
ghost use Rattle.outside.specs.Disk.{Throughout};
ghost use Rattle.outside.specs.Faults.{Rose};
ghost use Rattle.outside.specs.Plans.{MeetsPlan};
ghost use Rattle.gate_journal.specs.declared.journal.JournalState.TheVariants.{Ready, Broken};
ghost use Rattle.gate_journal.specs.Disk.{HasRoom};
ghost use Rattle.gate_journal.specs.Fault.{disk_failed, is_of_disk};
ghost use Rattle.gate_journal.specs.Gate.{records, gate_rule, spans, StandsFor, IsOldOrNew};
ghost use Rattle.gate_journal.specs.Opening.{IsOpened};
ghost use Rattle.gate_journal.specs.Growth.{Continues};
ghost use Rattle.gate_journal.specs.Records.{FailsAt, Keeps, KeepsOr, IsLeft, IsRefused, IsRefusedAgain};

use crate::{AppendFault, Appends, Journal, JournalFault, Payloads, Record, Walk};
use outside::Disk;
use std::alloc::{AllocError, Global};
use wire_core::Origin;

/// The records of one kind on a disk, and the value that they keep.
///
/// Opening and reopening take memory and time linear in the file. An append takes time linear in its record, beside what
/// the kind takes to put it, and no memory.
#[derive(Drop)]
pub struct RecordJournal<D: Disk, R: Record> {
    journal: Journal<D>,
    value: R,
    ghost kept: { IsTrue D.tells → journal.state ≡ Ready → R.keeps (R.kept value) (gate_rule (D.seen journal.disk)) } by { →_prop (→_prop (R.keeps_once _ _)) },
    // While it is ready each image keeps the value.
    ghost durable: { IsTrue D.tells → journal.state ≡ Ready → (c : List ℕ) → D.image journal.disk c → R.keeps (R.kept value) (gate_rule c) } by { →_prop (→_prop (Π_prop (λ c. →_prop (R.keeps_once _ _)))) },
}

impl<D: Disk, R: Record> RecordJournal<D, R> {
    /// Opens what is on a disk, which is fresh or a journal of this kind. Hands the disk back where it is refused.
    pub fn open(alloc: Global, disk: D) -> Result<RecordJournal<D, R>, (JournalFault, D)>
        ensures ok { IfOk result (λ j. (j.journal.state ≡ Ready) × (IsTrue D.tells → gate_rule (D.seen j.journal.disk) ≡ gate_rule (D.seen disk))) }
        ensures kept { IsTrue D.tells → IfOk result (λ j. Keeps R.keeps (R.kept j.value) (D.seen disk)) }
        ensures left { IsTrue D.tells → IfOk result (λ j. IsLeft R.keeps (D.image disk) (R.kept j.value)) }
        ensures ok_any_moment { IsTrue D.tells → IfOk result (λ j. Throughout D.image D.since disk j.journal.disk (IsOpened (D.image disk))) }
        ensures err { IfErr result (λ e. IsRefused R.damaged D.tells (D.seen disk) (D.faults disk) (D.faults e.1) e.0) }
        ensures err_any_moment { IsTrue D.tells → IfErr result (λ e. Throughout D.image D.since disk e.1 (IsOpened (D.image disk))) }
        ensures ok_grows { IsTrue D.tells → IfOk result (λ j. Throughout D.image D.since disk j.journal.disk (Continues (D.image disk))) }
        ensures err_grows { IsTrue D.tells → IfErr result (λ e. Throughout D.image D.since disk e.1 (Continues (D.image disk))) }
        ensures ok_plan { IsTrue D.planned → D.is_down disk ≡ false → IfOk result (λ j. MeetsPlan D.stops D.made D.faults 3 false disk j.journal.disk) }
        ensures err_plan { IsTrue D.planned → D.is_down disk ≡ false → IfErr result (λ e. MeetsPlan D.stops D.made D.faults 3 (is_of_disk e.0) disk e.1) }
        ensures ok_count { IfOk result (λ j. D.faults disk ≤ D.faults j.journal.disk) }
        ensures err_count { IfErr result (λ e. D.faults disk ≤ D.faults e.1) }
    {
        match Journal::open(alloc, disk) {
            Ok((journal, payloads)) => match read_kept(alloc, payloads) {
                Ok(value) => Ok(RecordJournal { journal, value }),
                Err(fault) => Err((fault, journal.into_disk())),
            },
            Err(refused) => Err(refused),
        }
    }

    /// What the records stand for.
    pub fn value(&self) -> &R
        ensures { result.now ≡ self.now.value }
    {
        &self.value
    }

    /// Reads the disk again as a stop left it. Where that is refused nothing more is appended.
    pub fn reopen(&mut self, alloc: Global) -> Result<(), JournalFault>
        ensures ready { OnOk result (self.new.journal.state ≡ Ready) }
        ensures kept { IsTrue D.tells → OnOk result (Keeps R.keeps (R.kept self.new.value) (D.seen self.new.journal.disk)) }
        ensures left { IsTrue D.tells → OnOk result (IsLeft R.keeps (D.image self.old.journal.disk) (R.kept self.new.value)) }
        ensures same { OnErr result (self.new.value ≡ self.old.value) }
        ensures broken { OnErr result (self.new.journal.state ≡ Broken) }
        ensures err { IfErr result (λ e. IsRefusedAgain R.damaged D.tells (D.image self.old.journal.disk) (D.faults self.old.journal.disk) (D.faults self.new.journal.disk) e) }
        ensures any_moment { IsTrue D.tells → Throughout D.image D.since self.old.journal.disk self.new.journal.disk (IsOpened (D.image self.old.journal.disk)) }
        ensures grows { IsTrue D.tells → Throughout D.image D.since self.old.journal.disk self.new.journal.disk (Continues (D.image self.old.journal.disk)) }
        ensures plan { IsTrue D.planned → MeetsPlan D.stops D.made D.faults 3 (disk_failed result) self.old.journal.disk self.new.journal.disk }
        ensures count { D.faults self.old.journal.disk ≤ D.faults self.new.journal.disk }
    {
        self.value = Self::reopen_bare(alloc, &mut self.journal)?;
        Ok(())
    }

    /// Reads the disk of a bare journal again as a stop left it. Where that is refused nothing more is appended.
    pub fn reopen_bare(alloc: Global, journal: &mut Journal<D>) -> Result<R, JournalFault>
        ensures ready { OnOk result (journal.new.state ≡ Ready) }
        ensures kept { IsTrue D.tells → IfOk result (λ value. Keeps R.keeps (R.kept value) (D.seen journal.new.disk)) }
        ensures left { IsTrue D.tells → IfOk result (λ value. IsLeft R.keeps (D.image journal.old.disk) (R.kept value)) }
        ensures broken { OnErr result (journal.new.state ≡ Broken) }
        ensures err { IfErr result (λ e. IsRefusedAgain R.damaged D.tells (D.image journal.old.disk) (D.faults journal.old.disk) (D.faults journal.new.disk) e) }
        ensures any_moment { IsTrue D.tells → Throughout D.image D.since journal.old.disk journal.new.disk (IsOpened (D.image journal.old.disk)) }
        ensures grows { IsTrue D.tells → Throughout D.image D.since journal.old.disk journal.new.disk (Continues (D.image journal.old.disk)) }
        ensures plan { IsTrue D.planned → MeetsPlan D.stops D.made D.faults 3 (disk_failed result) journal.old.disk journal.new.disk }
        ensures count { D.faults journal.old.disk ≤ D.faults journal.new.disk }
    {
        let payloads = journal.reopen(alloc)?;
        match read_kept(alloc, payloads) {
            Ok(value) => Ok(value),
            Err(fault) => {
                journal.give_up();
                Err(fault)
            }
        }
    }

    /// The value of a disk's bytes as they read, with no changing call.
    pub fn read_again(alloc: Global, disk: &mut D) -> Result<R, JournalFault>
        ensures kept { IsTrue D.tells → IfOk result (λ value. Keeps R.keeps (R.kept value) (D.seen disk.old)) }
        ensures err { IfErr result (λ e. IsRefused R.damaged D.tells (D.seen disk.old) (D.faults disk.old) (D.faults disk.new) e) }
        ensures seen { IsTrue D.tells → D.seen disk.new ≡ D.seen disk.old }
        ensures any_moment { IsTrue D.tells → Throughout D.image D.since disk.old disk.new (D.image disk.old) }
        ensures plan { IsTrue D.planned → D.is_down disk.old ≡ false → MeetsPlan D.stops D.made D.faults 0 (disk_failed result) disk.old disk.new }
        ensures count { D.faults disk.old ≤ D.faults disk.new }
    {
        let payloads = Journal::read_again(alloc, disk)?;
        read_kept(alloc, payloads)
    }

    /// The bare journal, and what its records stand for, which it no longer follows: records are appended to it as
    /// payloads, and `reopen_bare` reads them again.
    pub fn into_parts(self) -> (Journal<D>, R)
        ensures journal { result.0 ≡ self.journal }
        ensures value { result.1 ≡ self.value }
    {
        let RecordJournal { journal, value } = self;
        (journal, value)
    }

    /// The disk, which holds the journal.
    pub fn into_disk(self) -> D
        ensures { result ≡ self.journal.disk }
    {
        self.journal.into_disk()
    }
}

impl<D: Disk, R: Appends> RecordJournal<D, R> {
    /// Makes room for one append, in the disk and in the value.
    pub fn make_room(&mut self, alloc: Global) -> Result<(), AllocError>
        ensures room { OnOk result (HasRoom (D.calls_left self.new.journal.disk) (D.bytes_left self.new.journal.disk) R.LONGEST) }
        ensures place { OnOk result (1 ≤ R.places self.new.value) }
        ensures kept { R.kept self.new.value ≡ R.kept self.old.value }
        ensures state { self.new.journal.state ≡ self.old.journal.state }
        ensures seen { IsTrue D.tells → D.seen self.new.journal.disk ≡ D.seen self.old.journal.disk }
        ensures any_moment { IsTrue D.tells → Throughout D.image D.since self.old.journal.disk self.new.journal.disk (D.image self.old.journal.disk) }
        ensures grows { IsTrue D.tells → Throughout D.image D.since self.old.journal.disk self.new.journal.disk (Continues (D.image self.old.journal.disk)) }
        ensures plan { IsTrue D.tells → MeetsPlan D.stops D.made D.faults 0 false self.old.journal.disk self.new.journal.disk }
        ensures count { D.faults self.new.journal.disk ≡ D.faults self.old.journal.disk }
    {
        self.value.reserve()?;
        self.journal.make_room(alloc, R::LONGEST)
    }

    /// Appends a record that may come next, given its payload and itself. At `Ok` each image keeps what it makes of the value.
    pub fn append(&mut self, payload: &[u8], one: R::One) -> Result<(), AppendFault>
        requires next { R.may_come (R.kept self.old.value) one }
        requires spelled { payload.now ≡ R.spelled one }
        requires room { HasRoom (D.calls_left self.old.journal.disk) (D.bytes_left self.old.journal.disk) R.LONGEST }
        requires place { R.takes_places one ≤ R.places self.old.value }
        ensures ok { OnOk result (R.kept self.new.value ≡ R.after (R.kept self.old.value) one) }
        ensures err { OnErr result (self.new.value ≡ self.old.value) }
        ensures place { R.places self.old.value ≤ R.places self.new.value + R.takes_places one }

        // At every moment since the call began, each image stands for the old records, or for them and the new one.
        ensures any_moment { IsTrue D.tells → self.old.journal.state ≡ Ready → Throughout D.image D.since self.old.journal.disk self.new.journal.disk (IsOldOrNew (records (D.seen self.old.journal.disk)) (R.spelled one)) }
        ensures keeps { IsTrue D.tells → self.old.journal.state ≡ Ready → Throughout D.image D.since self.old.journal.disk self.new.journal.disk (KeepsOr R.keeps (R.kept self.old.value) (R.after (R.kept self.old.value) one)) }
        ensures grows { IsTrue D.tells → Throughout D.image D.since self.old.journal.disk self.new.journal.disk (Continues (D.image self.old.journal.disk)) }
        ensures ready { OnOk result ((self.old.journal.state ≡ Ready) × (self.new.journal.state ≡ Ready)) }
        ensures appended { IsTrue D.tells → OnOk result (records (D.seen self.new.journal.disk) ≡ records (D.seen self.old.journal.disk) ++ R.spelled one ∷ []) }
        ensures durable { IsTrue D.tells → OnOk result ((c : List ℕ) → D.image self.new.journal.disk c → StandsFor (records (D.seen self.old.journal.disk) ++ R.spelled one ∷ []) c) }

        // Only a planned stop among the four calls is a cause of the fault.
        ensures plan { IsTrue D.tells → self.old.journal.state ≡ Ready → MeetsPlan D.stops D.made D.faults 4 (is_err result) self.old.journal.disk self.new.journal.disk }
        ensures made { IsTrue D.tells → OnOk result (D.made self.new.journal.disk ≡ D.made self.old.journal.disk + 4) }
        ensures count { D.faults self.old.journal.disk ≤ D.faults self.new.journal.disk }

        ensures fault { IsErrOf result AppendFault.Disk → (self.new.journal.state ≡ Broken) × Rose (D.faults self.old.journal.disk) (D.faults self.new.journal.disk) }
        ensures when_broken { self.old.journal.state ≡ Broken → result ≡ Err AppendFault.Broken }
        ensures broken { IsErrOf result AppendFault.Broken → (self.old.journal.state ≡ Broken) × (self.new.journal ≡ self.old.journal) }
    {
        match self.journal.append(payload) {
            Ok(()) => {
                self.value.put(one);
                Ok(())
            }
            Err(fault) => Err(fault),
        }
    }
}

// The value that payloads keep, or the place of the first that is no next record.
#[tactic(auto, using(crate::proofs::Taking::taken))]
fn read_kept<R: Record>(alloc: Global, payloads: Payloads) -> Result<R, JournalFault>
    requires { spans payloads ≤ 2 ^ 63 }
    ensures kept { IfOk result (λ value. R.keeps (R.kept value) (Ok payloads)) }
    ensures err { IfErr result (FailsAt R.damaged payloads) }
{
    let shared = payloads.into_shared()?;
    let mut value = R::new(alloc)?;
    let mut place = 1;
    let rest = shared.as_slice();
    for payload in (Walk { rest }) {
        let next = place + (5 + payload.len() as u64);
        let origin = Origin::within(alloc, &shared, next as usize - 1);
        if !value.take(origin, payload)? {
            return Err(JournalFault::Damaged { at: place });
        }
        place = next;
    }
    Ok(value)
}
