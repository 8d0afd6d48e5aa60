// How reading a field can end without a value.
ghost use Rattle.std.specs.Prelude.{◌≡◌};

use std::alloc::AllocError;

/// What stopped a part of a field from being read.
#[derive(Clone, Copy, Debug, PartialEq, Eq)]
pub enum Stop {
    /// The first bad byte has so many bytes from it on, itself counted; where bytes are missing there are none.
    Bad { left: usize },
    /// Memory ran out.
    Memory,
}

impl From<AllocError> for Stop {
    ghost use Rattle.packet_codec.specs.declared.fields.stop.Stop.TheVariants.{Memory};

    ghost from_gives = { λ _ e. e ≡ Memory };

    fn from(_: AllocError) -> Stop {
        Stop::Memory
    }
}

/// Why no field was taken.
#[derive(Clone, Copy, Debug, PartialEq, Eq)]
pub enum FieldFault {
    /// No spelling begins what is left. The longest front of it that begins a spelling has so many bytes.
    BadField { at: u64 },
    /// Memory ran out.
    Memory,
}
