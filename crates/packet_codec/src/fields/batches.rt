// Batches.
ghost use Rattle.std.specs.Prelude.{◌≡◌, ◌+◌, ◌≤◌, ◌++◌, length, take};
ghost use Rattle.packet_codec.specs.Counted.{counted, AreCounted};
ghost use Rattle.turn_defs.specs.Spellings.{inserts, batch, IsBatch};

use crate::fields::Stop;
use crate::fields::field::Field;
use crate::fields::ids::insert_bytes;
use crate::fields::parts::write;
use crate::fields::several::{read_tag, read_two};
use registry_state::{Batch, Insert, Inserts, MOST_INSERTS};
use std::alloc::AllocError;
use wire_core::{Bytes, Origin};

// The longest spelling.
const LONGEST: usize = 9 + MOST_INSERTS * 30;

/// The bound, the count of inserts in a byte, up to `MOST_INSERTS`, and the inserts. Reading allocates the list of inserts.
#[tactic(auto, using(crate::proofs::Made::batch_bad, crate::proofs::Made::batch_apart, crate::proofs::Made::some_batch))]
impl Field for Batch {
    ghost spelled = { batch };

    ghost has_spelling = { IsBatch };

    #[tactic(auto, using(crate::proofs::Made::batch_bad, crate::proofs::Made::batch_apart, crate::proofs::Made::some_batch, crate::proofs::Counts::batch_room))]
    fn put(&self, to: &mut Bytes) -> Result<(), AllocError> {
        let mut bytes = [0; LONGEST];
        let end = write_batch(self, &mut bytes, 0);
        to.put_bytes(&bytes[..end])
    }

    fn read<'a>(origin: Origin, bytes: &'a [u8]) -> Result<(Batch, &'a [u8]), Stop> {
        let (bound, inserts, rest) = read_two::<u64, Inserts>(origin, bytes)?;
        Ok((Batch { bound, inserts }, rest))
    }

    fn told_apart() {}

    fn some_value() {}
}

/// The count in a byte, up to `MOST_INSERTS`, and the inserts. Reading allocates the list.
#[tactic(auto, using(crate::proofs::Made::counted_tag, crate::proofs::Made::counted_bad, crate::proofs::Made::inserts_apart, crate::proofs::Made::some_counted))]
impl Field for Inserts {
    ghost spelled = { counted };

    ghost has_spelling = { AreCounted };

    fn put(&self, to: &mut Bytes) -> Result<(), AllocError> {
        let list = self.as_slice();
        let mut bytes = [0; LONGEST];
        let at = write(&mut bytes, 0, &[list.len() as u8]);
        let end = write_inserts(list, &mut bytes, at);
        to.put_bytes(&bytes[..end])
    }

    fn read<'a>(origin: Origin, bytes: &'a [u8]) -> Result<(Inserts, &'a [u8]), Stop> {
        let (count, mut rest) = read_tag(bytes, 0, MOST_INSERTS as u8)?;
        let mut list = Inserts::with_capacity(origin.alloc, usize::from(count))?;
        for _ in 0..count {
            let (insert, behind) = Insert::read(origin, rest)?;
            list.push(insert)?;
            rest = behind;
        }
        Ok((list, rest))
    }

    fn told_apart() {}

    fn some_value() {}
}

// Writes the spelling from `at` on, and answers the place behind it.
pub(crate) fn write_batch(b: &Batch, buf: &mut [u8], at: usize) -> usize
    requires is_batch { IsBatch b.now }
    requires room { at + length (batch b.now) ≤ length buf.old }
    ensures end { result ≡ at + length (batch b.now) }
    ensures text { take result buf.new ≡ take at buf.old ++ batch b.now }
{
    let list = b.inserts.as_slice();
    let at = write(buf, at, &b.bound.to_be_bytes());
    let at = write(buf, at, &[list.len() as u8]);
    write_inserts(list, buf, at)
}

fn write_inserts(list: &[Insert], buf: &mut [u8], from: usize) -> usize
    requires { from + length (inserts list.now) ≤ length buf.old }
    ensures end { result ≡ from + length (inserts list.now) }
    ensures text { take result buf.new ≡ take from buf.old ++ inserts list.now }
{
    let mut at = from;
    for x in list {
        at = write(buf, at, &insert_bytes(x));
    }
    at
}
