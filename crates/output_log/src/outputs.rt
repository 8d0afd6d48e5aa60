// The pairs that are kept on a disk.
ghost use Rattle.std.specs.Prelude.{All};
ghost use Rattle.std.proofs.Props.{props};
ghost use Rattle.turn_defs.specs.Spellings.{IsPair};

use crate::read_pair;
use gate_journal::{Origin, Record, RecordJournal};
use std::alloc::{AllocError, Global};
use turn_defs::PairRec;

/// The pairs that were joined, in the order in which they were written.
///
/// A record is the byte 06, a click, its query and a token, up to 465 bytes.
#[derive(Drop)]
pub struct Outputs {
    pairs: Vec<PairRec>,
    ghost are_pairs: { All IsPair pairs.items } by { Prim.hlevel props },
}

/// The pairs that were joined, as a disk keeps them.
pub type OutputLog<D> = RecordJournal<D, Outputs>;

impl Outputs {
    ghost use Rattle.std.specs.Prelude.{◌≡◌, All};
    ghost use Rattle.turn_defs.specs.Spellings.{IsPair};

    /// The pairs.
    pub fn pairs(&self) -> &[PairRec]
        ensures pairs { result.now ≡ self.now.pairs.items }
        ensures are_pairs { All IsPair result.now }
    {
        &self.pairs
    }

    /// The pairs, given away.
    pub fn into_pairs(self) -> Vec<PairRec>
        ensures { result ≡ self.pairs }
    {
        self.pairs
    }
}

impl Record for Outputs {
    ghost use Rattle.std.specs.Prelude.{◌++◌, [], ◌∷◌, List};
    ghost use Rattle.std.specs.Coded.{Coded-set, coded_result, coded_list, coded_ℕ, ×_prop};
    ghost use Rattle.std.proofs.Common.{inl, refl};
    ghost use Rattle.std.proofs.Props.{props};
    ghost use Rattle.turn_defs.specs.declared.pair.PairRec.{PairRec};
    ghost use Rattle.turn_defs.specs.Spellings.{IsPair};
    ghost use Rattle.output_log.specs.Pairs.{spells, is_damaged_at};

    type One = PairRec;

    ghost Kept = { List PairRec };

    ghost keeps = { spells };

    ghost damaged = { is_damaged_at };

    ghost keeps_once = { λ pairs read. ×_prop (Prim.hlevel props) (Coded-set (coded_result (coded_list (coded_list coded_ℕ)) coded_ℕ) _ _) };

    ghost kept = { λ o. o.pairs.items };

    ghost may_come = { λ _ pair. IsPair pair };

    ghost after = { λ pairs pair. pairs ++ pair ∷ [] };

    fn new(alloc: Global) -> Result<Outputs, AllocError> {
        Ok(Outputs {
            pairs: Vec::new(alloc),
        })
    }

    fn take(&mut self, origin: Origin, payload: &[u8]) -> Result<bool, AllocError> {
        match read_pair(origin, payload)? {
            Some(pair) => {
                self.pairs.push(pair)?;
                Ok(true)
            }
            None => Ok(false),
        }
    }

    ghost gates_first = { λ _. inl refl };
}
