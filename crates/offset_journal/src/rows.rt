//! Worked rows of the records of offsets.
ghost use Rattle.std.specs.Prelude.{◌≡◌, [], ◌∷◌, Ok, Err};
ghost use Rattle.gate_journal.specs.Fold.{kept_by};
ghost use Rattle.offset_journal.specs.Offsets.{offset_record, offset_of, offsets};

#[tactic(auto, unfolding(gate_journal::specs::Gate::reading))]
/// What files keep.
pub fn files()
    ensures none { offset_of (0 ∷ []) ≡ Ok 0 }
    ensures first { offset_of (165 ∷ 0 ∷ 0 ∷ 0 ∷ 9 ∷ 3 ∷ 0 ∷ 0 ∷ 0 ∷ 0 ∷ 0 ∷ 0 ∷ 0 ∷ 36 ∷ 0 ∷ []) ≡ Ok 36 }
    ensures other_kind { offset_of (165 ∷ 0 ∷ 0 ∷ 0 ∷ 9 ∷ 2 ∷ 0 ∷ 0 ∷ 0 ∷ 0 ∷ 0 ∷ 0 ∷ 0 ∷ 36 ∷ 0 ∷ []) ≡ Err 1 }
    ensures torn { offset_of (165 ∷ 0 ∷ 0 ∷ []) ≡ Err 1 }
{}

/// Offsets rise, and the second record's length stands behind the first record and its gate.
pub fn offsets_rise()
    ensures rises { kept_by offsets (offset_record 36 ∷ offset_record 72 ∷ []) ≡ Ok 72 }
    ensures equal { kept_by offsets (offset_record 36 ∷ offset_record 36 ∷ []) ≡ Err 15 }
    ensures zero { kept_by offsets (offset_record 0 ∷ []) ≡ Err 1 }
{}
