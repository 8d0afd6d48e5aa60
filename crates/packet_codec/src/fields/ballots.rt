// Ballots and places.
ghost use Rattle.std.specs.Prelude.{◌≡◌};
ghost use Rattle.turn_defs.specs.Spellings.{ballot, IsBallot, place, IsPlace};

use crate::fields::Stop;
use crate::fields::field::Field;
use crate::fields::numbers::{Capped, Small};
use crate::fields::several::{read_three, read_two};
use ballot_core::Ballot;
use paxos_defs::Place;
use std::alloc::AllocError;
use wire_core::{Bytes, Origin};

/// 13 bytes: the round, the epoch and the site. The round is below 2^48, the site 0 or 1. Reading takes no memory.
#[tactic(auto, using(crate::proofs::Made::ballot_bad, crate::proofs::Made::ballot_apart, crate::proofs::Made::some_ballot))]
impl Field for Ballot {
    ghost spelled = { ballot };

    ghost has_spelling = { IsBallot };

    fn put(&self, to: &mut Bytes) -> Result<(), AllocError> {
        to.put_bytes(&ballot_bytes(self))
    }

    fn read<'a>(origin: Origin, bytes: &'a [u8]) -> Result<(Ballot, &'a [u8]), Stop> {
        let (round, epoch, site, rest) = read_three::<Small, u32, Capped<1>>(origin, bytes)?;
        let ballot = Ballot {
            round: round.number,
            epoch,
            site: site.byte,
        };
        Ok((ballot, rest))
    }

    fn told_apart() {}

    fn some_value() {}
}

/// 9 bytes: the shard and the slot. The shard is below 16, the slot below 2^48. Reading takes no memory.
#[tactic(auto, using(crate::proofs::Made::place_bad, crate::proofs::Made::place_apart, crate::proofs::Made::some_place))]
impl Field for Place {
    ghost spelled = { place };

    ghost has_spelling = { IsPlace };

    fn put(&self, to: &mut Bytes) -> Result<(), AllocError> {
        to.put_bytes(&place_bytes(self))
    }

    fn read<'a>(origin: Origin, bytes: &'a [u8]) -> Result<(Place, &'a [u8]), Stop> {
        let (shard, slot, rest) = read_two::<Capped<15>, Small>(origin, bytes)?;
        let place = Place {
            shard: shard.byte,
            slot: slot.number,
        };
        Ok((place, rest))
    }

    fn told_apart() {}

    fn some_value() {}
}

pub(crate) fn ballot_bytes(b: &Ballot) -> [u8; 13]
    ensures { result ≡ ballot b.now }
{
    let mut bytes = [0; 13];
    bytes[..8].copy_from_slice(&b.round.to_be_bytes());
    bytes[8..12].copy_from_slice(&b.epoch.to_be_bytes());
    bytes[12] = b.site;
    bytes
}

pub(crate) fn place_bytes(p: &Place) -> [u8; 9]
    ensures { result ≡ place p.now }
{
    let mut bytes = [0; 9];
    bytes[0] = p.shard;
    bytes[1..].copy_from_slice(&p.slot.to_be_bytes());
    bytes
}
