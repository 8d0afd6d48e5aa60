// A replica's notes.
ghost use Rattle.std.specs.Prelude.{◌≡◌, ◌≤◌, ◌∷◌, ◌++◌, take};
ghost use Rattle.paxos_acceptor.specs.Cells.{place_of};
ghost use Rattle.turn_defs.specs.Spellings.{place, ballot};
ghost use Rattle.packet_codec.specs.Notes.{note, IsNote};

use crate::fields::Stop;
use crate::fields::ballots::{ballot_bytes, place_bytes};
use crate::fields::batches::write_batch;
use crate::fields::field::Field;
use crate::fields::parts::write;
use crate::fields::several::{read_tag, read_three, read_two};
use ballot_core::Ballot;
use paxos_acceptor::ReplicaNote;
use paxos_defs::Place;
use registry_state::Batch;
use std::alloc::AllocError;
use wire_core::{Bytes, Origin};

const PROMISED: u8 = 7;

const ACCEPTED: u8 = 8;

// The longest spelling.
const LONGEST: usize = 23 + 1929;

/// A tag, 7 for Promised and 8 for Accepted, the place, the ballot, and of an accepted note the batch. Reading allocates
/// the batch's list of inserts.
#[tactic(auto, using(crate::proofs::NoteParts::note_apart, crate::proofs::NoteParts::some_note))]
impl Field for ReplicaNote {
    ghost spelled = { note };

    ghost has_spelling = { IsNote };

    fn put(&self, to: &mut Bytes) -> Result<(), AllocError> {
        let mut bytes = [0; LONGEST];
        let end = write_note(self, &mut bytes);
        to.put_bytes(&bytes[..end])
    }

    fn read<'a>(origin: Origin, bytes: &'a [u8]) -> Result<(ReplicaNote, &'a [u8]), Stop> {
        let (tag, rest) = read_tag(bytes, PROMISED, ACCEPTED)?;
        if tag == PROMISED {
            let (Place { shard, slot }, ballot, rest) = read_two::<Place, Ballot>(origin, rest)?;
            let note = ReplicaNote::Promised {
                shard,
                slot,
                ballot,
            };
            return Ok((note, rest));
        }
        let (Place { shard, slot }, ballot, batch, rest) = read_three::<Place, Ballot, Batch>(
            origin, rest,
        )?;
        let note = ReplicaNote::Accepted {
            shard,
            slot,
            ballot,
            batch,
        };
        Ok((note, rest))
    }

    fn told_apart() {}

    fn some_value() {}
}

// Writes the spelling to the front, and answers its length.
#[tactic(auto, using(crate::proofs::NoteParts::note_apart, crate::proofs::NoteParts::some_note, crate::proofs::NoteParts::note_room))]
fn write_note(n: &ReplicaNote, buf: &mut [u8; LONGEST]) -> usize
    requires { IsNote n.now }
    ensures within { result ≤ 1952 }
    ensures text { take result buf.new ≡ note n.now }
{
    match n {
        ReplicaNote::Promised {
            shard,
            slot,
            ballot,
        } => write_head(PROMISED, *shard, *slot, ballot, buf),
        ReplicaNote::Accepted {
            shard,
            slot,
            ballot,
            batch,
        } => {
            let at = write_head(ACCEPTED, *shard, *slot, ballot, buf);
            write_batch(batch, buf, at)
        }
    }
}

fn write_head(tag: u8, shard: u8, slot: u64, b: &Ballot, buf: &mut [u8; LONGEST]) -> usize
    ensures end { result ≡ 23 }
    ensures text { take 23 buf.new ≡ tag ∷ place (place_of shard slot) ++ ballot b.now }
{
    let at = write(buf, 0, &[tag]);
    let at = write(buf, at, &place_bytes(&Place { shard, slot }));
    write(buf, at, &ballot_bytes(b))
}
