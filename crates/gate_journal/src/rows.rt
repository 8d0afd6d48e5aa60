//! Worked rows of the gate rule.
ghost use Rattle.std.specs.Prelude.{◌≡◌, [], ◌∷◌, Ok, Err};
ghost use Rattle.gate_journal.specs.Gate.{framed, gate_rule, payload_of};

#[tactic(auto, unfolding(crate::specs::Gate::reading))]
/// What files stand for.
pub fn files()
    ensures fresh { gate_rule (165 ∷ []) ≡ Ok [] }
    ensures shut { gate_rule (0 ∷ 0 ∷ 0 ∷ 0 ∷ 1 ∷ 97 ∷ 0 ∷ []) ≡ Ok [] }
    ensures opened { gate_rule (165 ∷ 0 ∷ 0 ∷ 0 ∷ 1 ∷ 97 ∷ 0 ∷ []) ≡ Ok ((97 ∷ []) ∷ []) }
    ensures other_gate { gate_rule (23 ∷ 0 ∷ 0 ∷ 0 ∷ 1 ∷ 97 ∷ 0 ∷ []) ≡ Ok [] }
    ensures damaged { gate_rule (165 ∷ 0 ∷ 0 ∷ []) ≡ Err 1 }
{}

/// A record as it is written.
pub fn frames()
    ensures body { framed (97 ∷ []) ≡ 0 ∷ 0 ∷ 0 ∷ 1 ∷ 97 ∷ 0 ∷ [] }
    ensures back { payload_of (165 ∷ 0 ∷ 0 ∷ 0 ∷ 1 ∷ 97 ∷ 0 ∷ []) ≡ 97 ∷ [] }
{}
