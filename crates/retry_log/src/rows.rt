//! Worked rows of the records of changes.
ghost use Rattle.std.specs.Prelude.{◌≡◌, [], ◌∷◌, Ok, Err};
ghost use Rattle.retry_log.specs.declared.changing.Change.TheVariants.{Park, Settle};
ghost use Rattle.gate_journal.specs.Fold.{kept_by};
ghost use Rattle.retry_log.specs.Pending.{record_of, pending_of, retries};

#[tactic(auto, unfolding(gate_journal::specs::Gate::reading))]
/// What files keep pending.
pub fn files()
    ensures none { pending_of (0 ∷ []) ≡ Ok [] }
    ensures first { pending_of (165 ∷ 0 ∷ 0 ∷ 0 ∷ 9 ∷ 4 ∷ 0 ∷ 0 ∷ 0 ∷ 0 ∷ 0 ∷ 0 ∷ 0 ∷ 36 ∷ 0 ∷ []) ≡ Ok (36 ∷ []) }
    ensures other_kind { pending_of (165 ∷ 0 ∷ 0 ∷ 0 ∷ 9 ∷ 3 ∷ 0 ∷ 0 ∷ 0 ∷ 0 ∷ 0 ∷ 0 ∷ 0 ∷ 36 ∷ 0 ∷ []) ≡ Err 1 }
    ensures torn { pending_of (165 ∷ 0 ∷ 0 ∷ []) ≡ Err 1 }
{}

/// Positions are parked in order, and settled in any.
pub fn changes()
    ensures first_settled { kept_by retries (record_of (Park 0) ∷ record_of (Park 36) ∷ record_of (Settle 0) ∷ []) ≡ Ok (36 ∷ []) }
    ensures middle_settled { kept_by retries (record_of (Park 72) ∷ record_of (Park 0) ∷ record_of (Park 36) ∷ record_of (Settle 0) ∷ []) ≡ Ok (72 ∷ 36 ∷ []) }
    ensures parked_again { kept_by retries (record_of (Park 0) ∷ record_of (Park 36) ∷ record_of (Settle 0) ∷ record_of (Park 0) ∷ []) ≡ Ok (36 ∷ 0 ∷ []) }
    ensures parked_twice { kept_by retries (record_of (Park 36) ∷ record_of (Park 36) ∷ []) ≡ Err 15 }
    ensures settled_twice { kept_by retries (record_of (Park 36) ∷ record_of (Settle 36) ∷ record_of (Settle 36) ∷ []) ≡ Err 29 }
    ensures never_parked { kept_by retries (record_of (Settle 36) ∷ []) ≡ Err 1 }
{}
