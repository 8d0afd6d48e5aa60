// Offsets that advance on a disk.
ghost use Rattle.std.specs.Prelude.{◌≡◌, ◌≤◌, ◌-◌, ◌^◌, ℕ, refl};
ghost use Rattle.std.specs.Coded.{coded_ℕ};
ghost use Rattle.std.specs.Int.{w64};
ghost use Rattle.std.proofs.Common.{arith};
ghost use Rattle.std.proofs.lemmas.Nat.{from_be_bytes-to_be_bytes_8};
ghost use Rattle.gate_journal.specs.Fold.{folds_to, fails_at};
ghost use Rattle.gate_journal.specs.FoldLaws.{once};
ghost use Rattle.gate_journal.specs.Rising as numbers;
ghost use Rattle.offset_journal.specs.Offsets as defs;
ghost use Rattle.offset_journal.specs.Offsets.{next_offset, offsets, MayCome};

use gate_journal::{Appends, Origin, Record, RecordJournal};
use std::alloc::{AllocError, Global};

/// The first byte of a record.
const TAG: u8 = 3;

/// The last of the offsets on a disk, 0 where there is none.
///
/// A record is the byte 03 and an offset as eight bytes, the high one first. Each offset is above the one before, the first
/// above 0.
#[derive(Drop)]
pub struct Offsets {
    offset: u64,
}

/// The offsets on a disk. An append takes constant time.
pub type OffsetJournal<D> = RecordJournal<D, Offsets>;

impl Offsets {
    /// The last offset.
    pub fn offset(&self) -> u64
        ensures { result ≡ self.now.offset }
    {
        self.offset
    }
}

/// The record of an offset.
pub fn offset_record(offset: u64) -> [u8; 9]
    ensures { result ≡ defs.offset_record offset }
{
    let b = offset.to_be_bytes();
    [TAG, b[0], b[1], b[2], b[3], b[4], b[5], b[6], b[7]]
}

// The offset of a record, if it is one above the last.
fn offset_above(last: u64, payload: &[u8]) -> Option<u64>
    ensures { result ≡ next_offset last payload.now }
{
    if payload.len() != 9 || payload[0] != TAG {
        return None;
    }
    let offset = u64::from_be_bytes([
        payload[1], payload[2], payload[3], payload[4], payload[5], payload[6], payload[7],
        payload[8],
    ]);
    if offset <= last {
        return None;
    }
    Some(offset)
}

impl Record for Offsets {
    type One = u64;

    ghost Kept = { ℕ };

    ghost keeps = { folds_to offsets };

    ghost damaged = { fails_at offsets };

    ghost keeps_once = { once offsets coded_ℕ };

    ghost kept = { λ o. o.offset };

    ghost may_come = { MayCome };

    ghost after = { λ _ offset. offset };

    fn new(_: Global) -> Result<Offsets, AllocError> {
        Ok(Offsets { offset: 0 })
    }

    fn take(&mut self, _: Origin, payload: &[u8]) -> Result<bool, AllocError> {
        match offset_above(self.offset, payload) {
            Some(offset) => {
                self.offset = offset;
                Ok(true)
            }
            None => Ok(false),
        }
    }

    ghost gates_first = { λ _. refl };
}

impl Appends for Offsets {
    ghost spelled = { defs.offset_record };

    const LONGEST: u32 = 9;

    ghost LONGEST = { 9 };

    ghost places = { λ _. 1 };

    ghost takes_places = { λ _. 0 };

    fn reserve(&mut self) -> Result<(), AllocError> {
        Ok(())
    }

    fn put(&mut self, offset: u64) {
        self.offset = offset;
    }

    ghost short = { Prim.omega arith };

    ghost takes_one = { λ _. Prim.omega arith };

    ghost fits = { λ _ _ _. Prim.omega arith };

    ghost comes_next = { λ last offset ps may. numbers.comes_next 3 w64 (2 ^ 64 - 1) last offset ps (refl, from_be_bytes-to_be_bytes_8 offset may.1) may.0 (Prim.omega (arith, may.1)) };
}
