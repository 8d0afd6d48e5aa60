// Numbers, high byte first.
ghost use Rattle.std.specs.Prelude.{◌≡◌, length};
ghost use Rattle.packet_codec.specs.Numbers.{half, IsHalf, word, IsWord, small, IsSmall, capped, IsCapped};
ghost use Rattle.turn_defs.specs.Spellings.{number, IsNumber};

use crate::fields::Stop;
use crate::fields::field::Field;
use crate::fields::parts::{any, up_to};
use crate::fields::several::read_tag;
use std::alloc::AllocError;
use wire_core::{Bytes, Origin};

/// 2 bytes. Reading takes no memory.
#[tactic(auto, using(crate::proofs::Numbers::half_bad, crate::proofs::Numbers::half_apart, crate::proofs::Made::some_half))]
impl Field for u16 {
    ghost spelled = { half };

    ghost has_spelling = { IsHalf };

    fn put(&self, to: &mut Bytes) -> Result<(), AllocError> {
        to.put_u16(*self)
    }

    fn read<'a>(_origin: Origin, bytes: &'a [u8]) -> Result<(u16, &'a [u8]), Stop> {
        let (front, rest) = any(bytes, 2)?;
        Ok((u16::from_be_bytes([front[0], front[1]]), rest))
    }

    fn told_apart() {}

    fn some_value() {}
}

/// 4 bytes. Reading takes no memory.
#[tactic(auto, using(crate::proofs::Numbers::word_bad, crate::proofs::Numbers::word_apart, crate::proofs::Made::some_word))]
impl Field for u32 {
    ghost spelled = { word };

    ghost has_spelling = { IsWord };

    fn put(&self, to: &mut Bytes) -> Result<(), AllocError> {
        to.put_u32(*self)
    }

    fn read<'a>(_origin: Origin, bytes: &'a [u8]) -> Result<(u32, &'a [u8]), Stop> {
        let (front, rest) = any(bytes, 4)?;
        Ok((
            u32::from_be_bytes([front[0], front[1], front[2], front[3]]),
            rest,
        ))
    }

    fn told_apart() {}

    fn some_value() {}
}

/// 8 bytes. Reading takes no memory.
#[tactic(auto, using(crate::proofs::Numbers::number_bad, crate::proofs::Numbers::number_apart, crate::proofs::Made::some_number))]
impl Field for u64 {
    ghost spelled = { number };

    ghost has_spelling = { IsNumber };

    fn put(&self, to: &mut Bytes) -> Result<(), AllocError> {
        to.put_u64(*self)
    }

    fn read<'a>(_origin: Origin, bytes: &'a [u8]) -> Result<(u64, &'a [u8]), Stop> {
        let (front, rest) = any(bytes, 8)?;
        Ok((u64_of(front), rest))
    }

    fn told_apart() {}

    fn some_value() {}
}

/// A number below 2^48.
#[derive(Drop)]
pub(crate) struct Small {
    pub number: u64,
}

/// 8 bytes, of which the first two are 0. Reading takes no memory.
#[tactic(auto, using(crate::proofs::Numbers::small_bad, crate::proofs::Numbers::small_apart, crate::proofs::Made::some_small))]
impl Field for Small {
    ghost spelled = { small };

    ghost has_spelling = { IsSmall };

    fn put(&self, to: &mut Bytes) -> Result<(), AllocError> {
        to.put_u64(self.number)
    }

    fn read<'a>(_origin: Origin, bytes: &'a [u8]) -> Result<(Small, &'a [u8]), Stop> {
        let (front, rest) = up_to(bytes, &[0, 0, 255, 255, 255, 255, 255, 255])?;
        let number = u64_of(front);
        Ok((Small { number }, rest))
    }

    fn told_apart() {}

    fn some_value() {}
}

/// A byte that is at most `MOST`.
#[derive(Drop)]
pub(crate) struct Capped<const MOST: u8> {
    pub byte: u8,
}

/// The byte. Reading takes no memory.
#[tactic(auto, using(crate::proofs::Numbers::capped_bad, crate::proofs::Numbers::capped_apart))]
impl<const MOST: u8> Field for Capped<MOST> {
    ghost spelled = { capped MOST };

    ghost has_spelling = { IsCapped MOST };

    fn put(&self, to: &mut Bytes) -> Result<(), AllocError> {
        to.put_u8(self.byte)
    }

    fn read<'a>(_origin: Origin, bytes: &'a [u8]) -> Result<(Capped<MOST>, &'a [u8]), Stop> {
        let (byte, rest) = read_tag(bytes, 0, MOST)?;
        Ok((Capped { byte }, rest))
    }

    fn told_apart() {}

    fn some_value() {}
}

fn u64_of(bytes: &[u8]) -> u64
    requires { length bytes.now ≡ 8 }
    ensures { bytes.now ≡ number result }
{
    u64::from_be_bytes([
        bytes[0], bytes[1], bytes[2], bytes[3], bytes[4], bytes[5], bytes[6], bytes[7],
    ])
}
