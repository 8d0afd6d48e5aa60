//! When nothing forbids a start, and worked rows.
ghost use Rattle.std.specs.Prelude.{◌≡◌, ◌↔◌, ℕ, List, None};
ghost use Rattle.verify_pass.specs.Terms.{Each};
ghost use Rattle.registry_state.specs.declared.Batch.{Batch as Value};
ghost use Rattle.verify_pass.specs.Rows.{ApartRows, ChosenRows, ClassRows};
ghost use Rattle.verify_pass.specs.TooSoon.{IsBefore, too_soon_for};

/// What small journals say of an id, and what they choose in a place.
pub fn worked_rows()
    ensures classes { ClassRows }
    ensures chosen { ChosenRows }
    ensures apart { ApartRows }
{}

/// Nothing forbids a start exactly where no accepted bound is above it and each accepted id is earlier.
pub fn free_starts()
    ensures { (vs : List Value) (start : ℕ) → (too_soon_for vs start ≡ None) ↔ Each (IsBefore start) vs }
{}
