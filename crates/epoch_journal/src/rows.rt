//! Worked rows of the records of epochs.
ghost use Rattle.std.specs.Prelude.{◌≡◌, [], ◌∷◌, Ok, Err};
ghost use Rattle.gate_journal.specs.Fold.{kept_by};
ghost use Rattle.epoch_journal.specs.Epochs.{epoch_record, epoch_of, epochs};

#[tactic(auto, unfolding(gate_journal::specs::Gate::reading))]
/// What files keep.
pub fn files()
    ensures none { epoch_of (0 ∷ []) ≡ Ok 0 }
    ensures first { epoch_of (165 ∷ 0 ∷ 0 ∷ 0 ∷ 5 ∷ 2 ∷ 0 ∷ 0 ∷ 0 ∷ 1 ∷ 0 ∷ []) ≡ Ok 1 }
    ensures zero { epoch_of (165 ∷ 0 ∷ 0 ∷ 0 ∷ 5 ∷ 2 ∷ 0 ∷ 0 ∷ 0 ∷ 0 ∷ 0 ∷ []) ≡ Err 1 }
    ensures other_kind { epoch_of (165 ∷ 0 ∷ 0 ∷ 0 ∷ 5 ∷ 3 ∷ 0 ∷ 0 ∷ 0 ∷ 1 ∷ 0 ∷ []) ≡ Err 1 }
    ensures torn { epoch_of (165 ∷ 0 ∷ 0 ∷ []) ≡ Err 1 }
{}

/// Epochs rise, and the second record's length stands behind the first record and its gate.
pub fn epochs_rise()
    ensures rises { kept_by epochs (epoch_record 1 ∷ epoch_record 4 ∷ []) ≡ Ok 4 }
    ensures equal { kept_by epochs (epoch_record 4 ∷ epoch_record 4 ∷ []) ≡ Err 11 }
    ensures last { kept_by epochs (epoch_record 4294967294 ∷ []) ≡ Ok 4294967294 }
    ensures past { kept_by epochs (epoch_record 4294967295 ∷ []) ≡ Err 1 }
{}
