//! Worked rows of the numbers' bytes, and of a part of shared bytes.
ghost use Rattle.std.specs.Prelude.{◌≡◌, ℕ, List, [], ◌∷◌, Some};
ghost use Rattle.std.specs.Int.{to_be_bytes, from_be_bytes, w16, w32, w64};
ghost use Rattle.wire_core.specs.Origin.{StandsIn};

/// The high byte stands first.
pub fn high_byte_first()
    ensures two { to_be_bytes w16 258 ≡ 1 ∷ 2 ∷ [] }
    ensures four { to_be_bytes w32 5 ≡ 0 ∷ 0 ∷ 0 ∷ 5 ∷ [] }
    ensures eight { to_be_bytes w64 36 ≡ 0 ∷ 0 ∷ 0 ∷ 0 ∷ 0 ∷ 0 ∷ 0 ∷ 36 ∷ [] }
    ensures back { from_be_bytes w32 (255 ∷ 255 ∷ 255 ∷ 254 ∷ []) ≡ 4294967294 }
{}

/// A part that stands one byte before the place that four shared bytes go up to. It doesn't end at the place.
pub fn part_before_place()
    ensures here { StandsIn (Some (1 ∷ 2 ∷ 3 ∷ 4 ∷ [], 4)) (2 ∷ 3 ∷ []) 1 (1 ∷ 2 ∷ 3 ∷ 4 ∷ []) 1 3 }
    ensures not_there { (shared : List ℕ) (start end : ℕ) →
        StandsIn (Some (1 ∷ 2 ∷ 3 ∷ 4 ∷ [], 4)) (2 ∷ 3 ∷ []) 0 shared start end → ⊥ }
{}
