// What a replica accepted before.
ghost use Rattle.std.specs.Prelude.{◌≡◌, ◌∷◌, ◌++◌, take, OnOk, OnErr};
ghost use Rattle.turn_defs.specs.Spellings.{ballot, IsBallot, batch, IsBatch, prior, IsPrior};

use crate::fields::Stop;
use crate::fields::ballots::ballot_bytes;
use crate::fields::batches::write_batch;
use crate::fields::field::Field;
use crate::fields::parts::write;
use crate::fields::several::{read_tag, read_two};
use ballot_core::Ballot;
use registry_state::Batch;
use std::alloc::AllocError;
use wire_core::{Bytes, Origin};

// The longest spelling.
const LONGEST: usize = 14 + 1929;

/// A byte 0 where nothing was accepted, else a byte 1, the ballot and the batch. Reading allocates the batch's list of
/// inserts.
#[tactic(auto, using(crate::proofs::Tagged::prior_apart, crate::proofs::Tagged::some_prior))]
impl Field for Option<(Ballot, Batch)> {
    ghost spelled = { prior };

    ghost has_spelling = { IsPrior };

    fn put(&self, to: &mut Bytes) -> Result<(), AllocError> {
        match self {
            None => to.put_u8(0),
            Some((ballot, batch)) => put_accepted(ballot, batch, to),
        }
    }

    fn read<'a>(
        origin: Origin,
        bytes: &'a [u8],
    ) -> Result<(Option<(Ballot, Batch)>, &'a [u8]), Stop> {
        let (flag, rest) = read_tag(bytes, 0, 1)?;
        if flag == 0 {
            return Ok((None, rest));
        }
        let (ballot, batch, rest) = read_two::<Ballot, Batch>(origin, rest)?;
        Ok((Some((ballot, batch)), rest))
    }

    fn told_apart() {}

    fn some_value() {}
}

#[tactic(auto, using(crate::proofs::Tagged::prior_apart, crate::proofs::Tagged::some_prior, crate::proofs::Counts::batch_room))]
fn put_accepted(at: &Ballot, value: &Batch, to: &mut Bytes) -> Result<(), AllocError>
    requires is_ballot { IsBallot at.now }
    requires is_batch { IsBatch value.now }
    ensures ok { OnOk result (to.new ≡ to.old ++ 1 ∷ (ballot at.now ++ batch value.now)) }
    ensures err { OnErr result (to.new ≡ to.old) }
{
    let mut bytes = [0; LONGEST];
    let end = write_head(at, &mut bytes);
    let end = write_batch(value, &mut bytes, end);
    to.put_bytes(&bytes[..end])
}

fn write_head(at: &Ballot, buf: &mut [u8; LONGEST]) -> usize
    ensures end { result ≡ 14 }
    ensures text { take 14 buf.new ≡ 1 ∷ ballot at.now }
{
    let end = write(buf, 0, &[1]);
    write(buf, end, &ballot_bytes(at))
}
