//! Why a plan is refused.
use std::alloc::AllocFailed;

/// The first place at which bytes are no plan. The variants stand in the order in which the places are looked at.
#[derive(Clone, Copy, Debug, PartialEq, Eq)]
pub enum Field {
    /// There are more than 1,048,576 bytes.
    Size,
    /// The bytes are no JSON text, as `serde_json` reads one.
    Json,
    /// The value is no object, or has a key beside `rules`, `stops` and `dead`, or one of these holds no array.
    Top,
    /// The rule of this number, from 0, is none. Of more than 64 rules that of number 64 is none.
    Rules(u32),
    /// The same of a stop.
    Stops(u32),
    /// The dead are neither nobody nor one of the replicas 0 to 2.
    Dead,
}

/// Why a plan was not read.
#[derive(Clone, Copy, Debug, PartialEq, Eq)]
pub enum BadPlan {
    /// The bytes are no plan, for this place before all others.
    At(Field),
    /// There was no memory. No clause says when.
    Memory,
}

impl<T: Drop> From<AllocFailed<T>> for BadPlan {
    ghost use Rattle.std.specs.Prelude.{◌≡◌};
    ghost use Rattle.lossy_link.specs.declared.bad_plan.BadPlan.TheVariants.{Memory};

    ghost from_gives = { λ _ bad. bad ≡ Memory };

    fn from(_error: AllocFailed<T>) -> BadPlan {
        BadPlan::Memory
    }
}
