// Kinds of field.
ghost use Rattle.std.specs.Prelude.{◌≡◌, ℕ, List, ◌++◌, IfOk, IfErr, OnOk, OnErr, MatchResult};
ghost use Rattle.packet_codec.specs.Bad.{Spelled};
ghost use Rattle.packet_codec.specs.Stops.{Stops, IsFault, IsMemory};

use crate::fields::{FieldFault, Stop};
use std::alloc::AllocError;
use wire_core::{Bytes, Origin, Reader};

/// A kind of value that is spelled in bytes: one spelling for each value that has one, and none begins another.
pub trait Field: Drop {
    /// The spelling.
    ghost spelled: { Self → List ℕ };

    /// Whether the value has a spelling.
    ghost has_spelling: { Self → Type 0 };

    /// Puts the spelling behind the other bytes. The only memory taken is that of the list, where it has no room left.
    fn put(&self, to: &mut Bytes) -> Result<(), AllocError>
        requires { has_spelling self.now }
        ensures ok { OnOk result (to.new ≡ to.old ++ spelled self.now) }
        ensures err { OnErr result (to.new ≡ to.old) };

    /// The value whose spelling the bytes begin with, and the bytes behind it. Linear in the spelling.
    fn read<'a>(origin: Origin, bytes: &'a [u8]) -> Result<(Self, &'a [u8]), Stop>
        ensures found { IfOk result (λ p. has_spelling p.0 × (bytes.now ≡ spelled p.0 ++ p.1.now)) }
        ensures bad { IfErr result (Stops (Spelled spelled has_spelling) bytes.now) };

    /// One spelling for each value, and none begins another. It does nothing.
    fn told_apart()
        ensures { (v w : Self) (s t : List ℕ) → has_spelling v → has_spelling w → spelled v ++ s ≡ spelled w ++ t → v ≡ w };

    /// Some value has a spelling. It does nothing.
    fn some_value()
        ensures { (v : Self) × has_spelling v };

    /// Takes the value whose spelling what is left begins with. Linear in the spelling.
    final fn take(origin: Origin, from: &mut Reader) -> Result<Self, FieldFault>
        // The reader stands behind the spelling.
        ensures found { IfOk result (λ v. has_spelling v × (from.old ≡ spelled v ++ from.new)) }
        // What is spelled so is taken, unless memory runs out.
        ensures only { (v : Self) (tail : List ℕ) → has_spelling v → from.old ≡ spelled v ++ tail → MatchResult result (λ w. w ≡ v) IsMemory }
        // Where the first bad byte is.
        ensures bad { IfErr result (IsFault (Spelled spelled has_spelling) from.old) }
        ensures err { OnErr result (from.new ≡ from.old) }
    {
        Self::told_apart();
        let bytes = from.rest();
        match Self::read(origin, bytes) {
            Ok((field, rest)) => {
                *from = Reader::new(rest);
                Ok(field)
            }
            Err(Stop::Bad { left }) => Err(FieldFault::BadField {
                at: (bytes.len() - left) as u64,
            }),
            Err(Stop::Memory) => Err(FieldFault::Memory),
        }
    }
}
