// The positions that are pending on a disk.
ghost use Rattle.std.specs.Prelude.{◌≡◌, ◌≤◌, ℕ, List, nat_eq, refl};
ghost use Rattle.std.specs.Coded.{coded_ℕ, coded_list};
ghost use Rattle.std.proofs.Common.{arith};
ghost use Rattle.std.proofs.Props.{props};
ghost use Rattle.indexmap.specs.IndexSet.{IsUnique, spare};
ghost use Rattle.gate_journal.specs.Fold.{folds_to, fails_at};
ghost use Rattle.gate_journal.specs.FoldLaws.{once};
ghost use Rattle.retry_log.specs.Pending.{record_of, retries, MayCome, places_of, after as after_change};
ghost use Rattle.retry_log.specs.PendingLaws.{comes_next as change_comes_next, fits as change_fits, one_place};

use crate::changing::{Change, make_change, put_last, read_change};
use gate_journal::{Appends, Origin, Record, RecordJournal};
use indexmap::IndexSet;
use std::alloc::{AllocError, Global};

/// The positions that are pending on a disk: those that were parked, and not settled since, each once, in the order in which
/// they were parked.
///
/// A record is a byte and a position as eight bytes, the high one first. The byte is 04 where a position is parked that
/// isn't pending, and 05 where a pending one is settled.
#[derive(Drop)]
pub struct Retries {
    pending: IndexSet<u64>,
    ghost unique: { IsUnique nat_eq pending } by { Prim.hlevel props },
}

/// The positions that are pending on a disk. To park one takes expected constant time, to settle one time linear in the
/// number of positions behind it, since each of them moves up by one.
pub type RetryLog<D> = RecordJournal<D, Retries>;

impl Retries {
    /// The pending positions.
    pub fn pending(&self) -> &IndexSet<u64>
        ensures pending { result.now ≡ self.now.pending }
        ensures unique { IsUnique nat_eq result.now }
    {
        &self.pending
    }
}

impl Record for Retries {
    type One = Change;

    ghost Kept = { List ℕ };

    ghost keeps = { folds_to retries };

    ghost damaged = { fails_at retries };

    ghost keeps_once = { once retries (coded_list coded_ℕ) };

    ghost kept = { λ r. r.pending.keys };

    ghost may_come = { MayCome };

    ghost after = { after_change };

    fn new(alloc: Global) -> Result<Retries, AllocError> {
        Ok(Retries {
            pending: IndexSet::new(alloc),
        })
    }

    fn take(&mut self, _: Origin, payload: &[u8]) -> Result<bool, AllocError> {
        match read_change(payload) {
            Some(change) => match make_change(&mut self.pending, change) {
                Ok(made) => Ok(made),
                Err(_) => Err(AllocError),
            },
            None => Ok(false),
        }
    }

    ghost gates_first = { λ _. refl };
}

impl Appends for Retries {
    ghost spelled = { record_of };

    const LONGEST: u32 = 9;

    ghost LONGEST = { 9 };

    ghost places = { λ r. spare r.pending };

    ghost takes_places = { places_of };

    fn reserve(&mut self) -> Result<(), AllocError> {
        self.pending.reserve(1)
    }

    fn put(&mut self, change: Change) {
        match change {
            Change::Park(position) => put_last(&mut self.pending, position),
            Change::Settle(position) => {
                self.pending.shift_remove(&position);
            }
        }
    }

    ghost short = { Prim.omega arith };

    ghost takes_one = { one_place };

    ghost fits = { change_fits };

    ghost comes_next = { change_comes_next };
}
