// Answers.
ghost use Rattle.std.specs.Prelude.{◌≡◌, ◌≤◌, take};
ghost use Rattle.turn_defs.specs.Spellings.{answer, IsAnswer};

use crate::fields::Stop;
use crate::fields::field::Field;
use crate::fields::ids::token_bytes;
use crate::fields::parts::write;
use crate::fields::several::read_tag;
use registry_state::{Answer, Token};
use std::alloc::AllocError;
use wire_core::{Bytes, Origin};

/// A tag, 0 for Granted, 1 for Duplicate with the token behind it, 2 for TooOld with the bound behind it. Reading takes
/// no memory.
#[tactic(auto, using(crate::proofs::Tagged::answer_apart, crate::proofs::Tagged::some_answer))]
impl Field for Answer {
    ghost spelled = { answer };

    ghost has_spelling = { IsAnswer };

    fn put(&self, to: &mut Bytes) -> Result<(), AllocError> {
        let mut bytes = [0; 15];
        let end = write_answer(self, &mut bytes);
        to.put_bytes(&bytes[..end])
    }

    fn read<'a>(origin: Origin, bytes: &'a [u8]) -> Result<(Answer, &'a [u8]), Stop> {
        let (tag, rest) = read_tag(bytes, 0, 2)?;
        match tag {
            0 => Ok((Answer::Granted, rest)),
            1 => {
                let (token, rest) = Token::read(origin, rest)?;
                Ok((Answer::Duplicate(token), rest))
            }
            _ => {
                let (bound, rest) = u64::read(origin, rest)?;
                Ok((Answer::TooOld(bound), rest))
            }
        }
    }

    fn told_apart() {}

    fn some_value() {}
}

// Writes the spelling to the front, and answers its length.
fn write_answer(a: &Answer, buf: &mut [u8; 15]) -> usize
    ensures within { result ≤ 15 }
    ensures text { take result buf.new ≡ answer a.now }
{
    match a {
        Answer::Granted => write(buf, 0, &[0]),
        Answer::Duplicate(token) => {
            let at = write(buf, 0, &[1]);
            write(buf, at, &token_bytes(token))
        }
        Answer::TooOld(bound) => {
            let at = write(buf, 0, &[2]);
            write(buf, at, &bound.to_be_bytes())
        }
    }
}
