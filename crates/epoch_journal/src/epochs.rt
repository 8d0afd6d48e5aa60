// Epochs that are raised on a disk.
ghost use Rattle.std.specs.Prelude.{◌≡◌, ◌↔◌, ◌<◌, ◌≤◌, ◌+◌, ◌++◌, [], ◌∷◌, ℕ, List, true, false, IsTrue, IfSome, IfNone, IfOk, IfErr, OnOk, OnErr, IsErrOf, is_err, Ok, Err, refl};
ghost use Rattle.std.specs.Coded.{coded_ℕ};
ghost use Rattle.std.specs.Int.{w32};
ghost use Rattle.std.proofs.Common.{arith};
ghost use Rattle.std.proofs.lemmas.Nat.{from_be_bytes-to_be_bytes_4};
ghost use Rattle.ballot_core.specs.declared.TheConstants.{LAST_EPOCH};
ghost use Rattle.outside.specs.Disk.{Throughout};
ghost use Rattle.outside.specs.Faults.{Rose};
ghost use Rattle.outside.specs.Plans.{MeetsPlan};
ghost use Rattle.gate_journal.specs.declared.journal.JournalState.TheVariants.{Ready, Broken};
ghost use Rattle.gate_journal.specs.Disk.{HasRoom};
ghost use Rattle.gate_journal.specs.Gate.{records, StandsFor, IsOldOrNew};
ghost use Rattle.gate_journal.specs.Growth.{Continues};
ghost use Rattle.gate_journal.specs.Fold.{folds_to, fails_at};
ghost use Rattle.gate_journal.specs.FoldLaws.{once};
ghost use Rattle.gate_journal.specs.Rising as numbers;
ghost use Rattle.epoch_journal.specs.Epochs.{epoch_record, epochs, next_epoch, KeepsOr, MayCome};

use ballot_core::LAST_EPOCH;
use gate_journal::{AppendFault, Appends, Origin, Record, RecordJournal};
use outside::Disk;
use std::alloc::{AllocError, Global};

/// The first byte of a record.
const TAG: u8 = 2;

/// Why an epoch isn't raised.
#[derive(Clone, Copy, Debug, PartialEq, Eq)]
pub enum RaiseFault {
    /// The kept epoch is the last one. Nothing has changed.
    EpochSpent,
    /// The disk failed in this call. Each image keeps the old epoch or the next one.
    Disk,
    /// The journal was broken before. Nothing has changed.
    Broken,
}

/// The last of the epochs on a disk, 0 where there is none.
///
/// A record is the byte 02 and an epoch as four bytes, the high one first. Each epoch is above the one before, the first at
/// least 1, none above `LAST_EPOCH`.
#[derive(Drop)]
pub struct Epochs {
    epoch: u32,
    ghost limit: { epoch ≤ LAST_EPOCH },
}

/// The epochs on a disk. A raise takes constant time.
pub type EpochJournal<D> = RecordJournal<D, Epochs>;

impl Epochs {
    /// The last epoch.
    pub fn epoch(&self) -> u32
        ensures { result ≡ self.now.epoch }
    {
        self.epoch
    }
}

/// The record of an epoch.
pub fn epoch_frame(epoch: u32) -> [u8; 5]
    ensures { result ≡ epoch_record epoch }
{
    let b = epoch.to_be_bytes();
    [TAG, b[0], b[1], b[2], b[3]]
}

// The epoch of a record, if it is one above the last.
fn epoch_above(last: u32, payload: &[u8]) -> Option<u32>
    ensures next { result ≡ next_epoch last payload.now }
    ensures limit { IfSome result (λ epoch. epoch ≤ LAST_EPOCH) }
{
    if payload.len() != 5 || payload[0] != TAG {
        return None;
    }
    let epoch = u32::from_be_bytes([payload[1], payload[2], payload[3], payload[4]]);
    if epoch <= last || epoch > LAST_EPOCH {
        return None;
    }
    Some(epoch)
}

impl Record for Epochs {
    type One = u32;

    ghost Kept = { ℕ };

    ghost keeps = { folds_to epochs };

    ghost damaged = { fails_at epochs };

    ghost keeps_once = { once epochs coded_ℕ };

    ghost kept = { λ e. e.epoch };

    ghost may_come = { MayCome };

    ghost after = { λ _ epoch. epoch };

    fn new(_: Global) -> Result<Epochs, AllocError> {
        Ok(Epochs { epoch: 0 })
    }

    fn take(&mut self, _: Origin, payload: &[u8]) -> Result<bool, AllocError> {
        match epoch_above(self.epoch, payload) {
            Some(epoch) => {
                self.epoch = epoch;
                Ok(true)
            }
            None => Ok(false),
        }
    }

    ghost gates_first = { λ _. refl };
}

impl Appends for Epochs {
    ghost spelled = { epoch_record };

    const LONGEST: u32 = 5;

    ghost LONGEST = { 5 };

    ghost places = { λ _. 1 };

    ghost takes_places = { λ _. 0 };

    fn reserve(&mut self) -> Result<(), AllocError> {
        Ok(())
    }

    fn put(&mut self, epoch: u32) {
        self.epoch = epoch;
    }

    ghost short = { Prim.omega arith };

    ghost takes_one = { λ _. Prim.omega arith };

    ghost fits = { λ _ _ _. Prim.omega arith };

    ghost comes_next = { λ last epoch ps may. numbers.comes_next 2 w32 LAST_EPOCH last epoch ps (refl, from_be_bytes-to_be_bytes_4 epoch (Prim.omega (arith, may.1))) may.0 may.1 };
}

/// Adds the epoch above the kept one.
pub fn raise<D: Disk>(journal: &mut EpochJournal<D>) -> Result<u32, RaiseFault>
    requires { HasRoom (D.calls_left journal.old.journal.disk) (D.bytes_left journal.old.journal.disk) 5 }
    ensures raised { IfOk result (λ epoch. (epoch ≡ journal.old.value.epoch + 1) × (journal.new.value.epoch ≡ epoch)) }
    ensures err { OnErr result (journal.new.value.epoch ≡ journal.old.value.epoch) }

    // At every moment since the call began, each image stands for the old records, or for them and the next epoch's.
    ensures any_moment { IsTrue D.tells → journal.old.journal.state ≡ Ready → Throughout D.image D.since journal.old.journal.disk journal.new.journal.disk (IsOldOrNew (records (D.seen journal.old.journal.disk)) (epoch_record (journal.old.value.epoch + 1))) }
    ensures keeps { IsTrue D.tells → journal.old.journal.state ≡ Ready → Throughout D.image D.since journal.old.journal.disk journal.new.journal.disk (KeepsOr journal.old.value.epoch (journal.old.value.epoch + 1)) }
    ensures grows { IsTrue D.tells → Throughout D.image D.since journal.old.journal.disk journal.new.journal.disk (Continues (D.image journal.old.journal.disk)) }
    ensures ready { OnOk result (journal.new.journal.state ≡ Ready) }
    ensures appended { IsTrue D.tells → OnOk result (records (D.seen journal.new.journal.disk) ≡ records (D.seen journal.old.journal.disk) ++ epoch_record (journal.old.value.epoch + 1) ∷ []) }
    ensures durable { IsTrue D.tells → OnOk result ((c : List ℕ) → D.image journal.new.journal.disk c → StandsFor (records (D.seen journal.old.journal.disk) ++ epoch_record (journal.old.value.epoch + 1) ∷ []) c) }

    // Only a planned stop among the four calls is a cause of the fault.
    ensures plan { IsTrue D.tells → journal.old.journal.state ≡ Ready → journal.old.value.epoch < LAST_EPOCH → MeetsPlan D.stops D.made D.faults 4 (is_err result) journal.old.journal.disk journal.new.journal.disk }

    ensures unspent { IsErrOf result RaiseFault.EpochSpent → journal.new ≡ journal.old }
    ensures spent { IsErrOf result RaiseFault.EpochSpent ↔ (journal.old.value.epoch ≡ LAST_EPOCH) }
    ensures count { D.faults journal.old.journal.disk ≤ D.faults journal.new.journal.disk }
    ensures fault { IsErrOf result RaiseFault.Disk → (journal.new.journal.state ≡ Broken) × Rose (D.faults journal.old.journal.disk) (D.faults journal.new.journal.disk) }
    ensures when_broken { journal.old.journal.state ≡ Broken → journal.old.value.epoch < LAST_EPOCH → result ≡ Err RaiseFault.Broken }
    ensures broken { IsErrOf result RaiseFault.Broken → (journal.old.journal.state ≡ Broken) × (journal.new.journal ≡ journal.old.journal) }
{
    let last = journal.value().epoch();
    if last == LAST_EPOCH {
        return Err(RaiseFault::EpochSpent);
    }
    let epoch = last + 1;
    match journal.append(&epoch_frame(epoch), epoch) {
        Ok(()) => Ok(epoch),
        Err(AppendFault::Disk) => Err(RaiseFault::Disk),
        Err(AppendFault::Broken) => Err(RaiseFault::Broken),
    }
}
