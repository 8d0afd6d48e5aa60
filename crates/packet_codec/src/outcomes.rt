// Outcomes of joins.
ghost use Rattle.std.specs.Prelude.{◌≡◌, ◌≤◌, take};
ghost use Rattle.turn_defs.specs.Packets.{outcome, IsOutcome};

use crate::Field;
use crate::fields::{Stop, read_tag, token_bytes, write};
use registry_state::Token;
use std::alloc::AllocError;
use turn_defs::Outcome;
use wire_core::{Bytes, Origin};

const WRITTEN: u8 = 0;

const ALREADY: u8 = 1;

const TOO_OLD: u8 = 2;

const NO_QUERY: u8 = 3;

const BUSY: u8 = 4;

// The longest spelling.
const LONGEST: usize = 15;

/// A tag, 0 for Written, 1 for Already with the token behind it, 2 for TooOld with the bound, 3 for NoQuery with the count
/// of lines, 4 for Busy. Reading takes no memory.
#[tactic(auto, using(crate::proofs::Tagged::outcome_apart, crate::proofs::Tagged::some_outcome))]
impl Field for Outcome {
    ghost spelled = { outcome };

    ghost has_spelling = { IsOutcome };

    fn put(&self, to: &mut Bytes) -> Result<(), AllocError> {
        let mut bytes = [0; LONGEST];
        let end = write_outcome(self, &mut bytes);
        to.put_bytes(&bytes[..end])
    }

    fn read<'a>(origin: Origin, bytes: &'a [u8]) -> Result<(Outcome, &'a [u8]), Stop> {
        let (tag, rest) = read_tag(bytes, WRITTEN, BUSY)?;
        match tag {
            WRITTEN => Ok((Outcome::Written, rest)),
            ALREADY => {
                let (token, rest) = Token::read(origin, rest)?;
                Ok((Outcome::Already(token), rest))
            }
            TOO_OLD => {
                let (bound, rest) = u64::read(origin, rest)?;
                Ok((Outcome::TooOld(bound), rest))
            }
            NO_QUERY => {
                let (lines, rest) = u64::read(origin, rest)?;
                Ok((Outcome::NoQuery(lines), rest))
            }
            _ => Ok((Outcome::Busy, rest)),
        }
    }

    fn told_apart() {}

    fn some_value() {}
}

// Writes the spelling to the front, and answers its length.
fn write_outcome(o: &Outcome, buf: &mut [u8; LONGEST]) -> usize
    ensures within { result ≤ 15 }
    ensures text { take result buf.new ≡ outcome o.now }
{
    match o {
        Outcome::Written => write(buf, 0, &[WRITTEN]),
        Outcome::Already(token) => {
            let at = write(buf, 0, &[ALREADY]);
            write(buf, at, &token_bytes(token))
        }
        Outcome::TooOld(bound) => {
            let at = write(buf, 0, &[TOO_OLD]);
            write(buf, at, &bound.to_be_bytes())
        }
        Outcome::NoQuery(lines) => {
            let at = write(buf, 0, &[NO_QUERY]);
            write(buf, at, &lines.to_be_bytes())
        }
        Outcome::Busy => write(buf, 0, &[BUSY]),
    }
}
