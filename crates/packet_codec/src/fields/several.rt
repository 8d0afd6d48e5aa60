// Fields one behind the other, and tags before them.
ghost use Rattle.std.specs.Prelude.{◌≡◌, ◌≤◌, ◌∷◌, ◌++◌, IfOk, IfErr, OnOk};
ghost use Rattle.packet_codec.specs.Bad.{Spelled, Followed};
ghost use Rattle.packet_codec.specs.Cells.{Run};
ghost use Rattle.packet_codec.specs.Stops.{Stops};

use crate::fields::Stop;
use crate::fields::field::Field;
use crate::fields::parts::run;
use std::alloc::AllocError;
use wire_core::{Bytes, Origin};

/// The tag, which is a byte from `first` to `last`, and the bytes behind it.
pub fn read_tag(bytes: &[u8], first: u8, last: u8) -> Result<(u8, &[u8]), Stop>
    requires { first ≤ last }
    ensures low { IfOk result (λ p. first ≤ p.0) }
    ensures high { IfOk result (λ p. p.0 ≤ last) }
    ensures found { IfOk result (λ p. bytes.now ≡ p.0 ∷ p.1.now) }
    ensures bad { IfErr result (Stops (Run 1 first last) bytes.now) }
{
    let (tag, rest) = run(bytes, 1, first, last)?;
    Ok((tag[0], rest))
}

#[tactic(auto, using(crate::proofs::PartLaws::two_first, crate::proofs::PartLaws::next_bad))]
/// Two values, and the bytes behind their spellings. Linear in the spellings.
pub fn read_two<'a, A: Field, B: Field>(
    origin: Origin,
    bytes: &'a [u8],
) -> Result<(A, B, &'a [u8]), Stop>
    ensures first { IfOk result (λ p. A.has_spelling p.0) }
    ensures second { IfOk result (λ p. B.has_spelling p.1) }
    ensures found { IfOk result (λ p. bytes.now ≡ A.spelled p.0 ++ (B.spelled p.1 ++ p.2.now)) }
    ensures bad { IfErr result (Stops (Followed A.spelled A.has_spelling (Spelled B.spelled B.has_spelling)) bytes.now) }
{
    A::told_apart();
    B::some_value();
    let (first, rest) = A::read(origin, bytes)?;
    let (second, rest) = B::read(origin, rest)?;
    Ok((first, second, rest))
}

#[tactic(auto, using(crate::proofs::PartLaws::three_first, crate::proofs::PartLaws::next_bad))]
/// Three values, and the bytes behind their spellings. Linear in the spellings.
pub fn read_three<'a, A: Field, B: Field, C: Field>(
    origin: Origin,
    bytes: &'a [u8],
) -> Result<(A, B, C, &'a [u8]), Stop>
    ensures first { IfOk result (λ p. A.has_spelling p.0) }
    ensures second { IfOk result (λ p. B.has_spelling p.1) }
    ensures third { IfOk result (λ p. C.has_spelling p.2) }
    ensures found { IfOk result (λ p. bytes.now ≡ A.spelled p.0 ++ (B.spelled p.1 ++ (C.spelled p.2 ++ p.3.now))) }
    ensures bad { IfErr result (Stops (Followed A.spelled A.has_spelling (Followed B.spelled B.has_spelling (Spelled C.spelled C.has_spelling))) bytes.now) }
{
    A::told_apart();
    B::some_value();
    C::some_value();
    let (first, rest) = A::read(origin, bytes)?;
    let (second, third, rest) = read_two::<B, C>(origin, rest)?;
    Ok((first, second, third, rest))
}

/// Puts both spellings, one behind the other. After an `Err` the first may stand there.
pub fn put_two<A: Field, B: Field>(first: &A, second: &B, to: &mut Bytes) -> Result<(), AllocError>
    requires first { A.has_spelling first.now }
    requires second { B.has_spelling second.now }
    ensures { OnOk result (to.new ≡ to.old ++ (A.spelled first.now ++ B.spelled second.now)) }
{
    first.put(to)?;
    second.put(to)
}

/// Puts the three spellings, one behind the other. After an `Err` some of them may stand there.
pub fn put_three<A: Field, B: Field, C: Field>(
    first: &A,
    second: &B,
    third: &C,
    to: &mut Bytes,
) -> Result<(), AllocError>
    requires first { A.has_spelling first.now }
    requires second { B.has_spelling second.now }
    requires third { C.has_spelling third.now }
    ensures { OnOk result (to.new ≡ to.old ++ (A.spelled first.now ++ (B.spelled second.now ++ C.spelled third.now))) }
{
    first.put(to)?;
    put_two(second, third, to)
}
