// What a replica keeps on its disk.
ghost use Rattle.std.specs.Prelude.{◌≡◌, IfOk, List, ℕ, length, true};
ghost use Rattle.replica_node.specs.Terms.{Continues, IsNote, OnDisk, Ready, Voted, note as note_spelled, note_view, of_two};
ghost use Rattle.output_log.specs.VoteLaws.{OneNote, one_note};

use crate::voter::{Voter, VotesKept};
use air_bus::Payload;
use gate_journal::Journal;
use output_log::{VoteJournal, Votes};
use outside::Disk;
use packet_codec::Field;
use paxos_acceptor::ReplicaNote;
use site_node::{NodeDisk, NodeFault, Records, fault_of};
use std::alloc::{AllocError, Global};
use wire_core::Bytes;

/// A replica's journal. The notes that it holds aren't in memory while the replica is up.
#[derive(Drop)]
pub struct VoteRecords<D: Disk> {
    pub(crate) journal: Journal<D>,
    // How many notes the journal holds.
    pub(crate) kept: u64,
}

/// The record of a note.
#[derive(Drop)]
pub struct FramedVote {
    bytes: Payload,
    // No other note is spelled so.
    ghost of_note: { OneNote bytes } by { one_note bytes },
}

impl<D: Disk> Records<VotesKept, Voter> for VoteRecords<D> {
    ghost use Rattle.gate_journal.specs.Disk.{HasRoom};
    ghost use Rattle.outside.specs.Plans.{AtMost};
    ghost use Rattle.replica_node.specs.Kept.{Doubts, Holds, IsCalm, doubted_images, held_images, is_ready, still_calm};

    type Framed = FramedVote;

    ghost tells = { D.tells };

    ghost planned = { D.planned };

    ghost disk_count = { 1 };

    ghost Contents = { List ℕ };

    ghost keeps = { OnDisk };

    ghost ready = { λ r. is_ready r.journal.state };

    ghost holds = { Holds };

    ghost doubts = { Doubts };

    ghost can_take = { λ r n. true };

    ghost note_in = { λ f. Voted (note_view f.of_note.0) };

    ghost has_room = { λ r f. (r.journal.state ≡ Ready) × HasRoom (D.calls_left r.journal.disk) (D.bytes_left r.journal.disk) (length f.bytes) };

    ghost image = { λ r. D.image r.journal.disk };

    ghost since = { λ old new. D.since old.journal.disk new.journal.disk };

    ghost grown = { λ old new. (c : List ℕ) → D.image new.journal.disk c → Continues (D.image old.journal.disk) c };

    ghost calm = { IsCalm };

    ghost faults = { λ r. D.faults r.journal.disk };

    ghost disk_faults = { λ r. of_two (D.faults r.journal.disk) 0 };

    ghost stops_left = { λ r. AtMost (D.stops r.journal.disk) (D.made r.journal.disk) };

    ghost held = { held_images };

    ghost doubted = { λ r k with tells. doubted_images r k with };

    ghost still = { λ r tells. still_calm r tells (λ c. D.starts r.journal.disk c tells) };

    ghost stays = { λ old new k tells calm. calm k };

    fn takes(&self, note: &ReplicaNote) -> bool {
        true
    }

    fn frame(&mut self, alloc: Global, note: &ReplicaNote) -> Result<FramedVote, AllocError> {
        let bytes = vote_record(alloc, note)?;
        let len = bytes.as_slice().len() as u32;
        self.journal.make_room(alloc, len)?;
        Ok(FramedVote { bytes })
    }

    #[tactic(auto, using(crate::specs::Kept::view_record))]
    fn append(&mut self, framed: FramedVote) -> Result<Payload, Payload> {
        match self.journal.append(framed.bytes.as_slice()) {
            Ok(()) => {
                self.kept = self.kept.saturating_add(1);
                Ok(framed.bytes)
            }
            Err(_) => Err(framed.bytes),
        }
    }

    #[tactic(auto, using(crate::proofs::Standing::still_doubts))]
    fn reopen(&mut self, alloc: Global) -> Result<(Votes, bool), NodeFault> {
        match VoteJournal::reopen_bare(alloc, &mut self.journal) {
            Ok(votes) => {
                let count = votes.notes().len() as u64;
                let landed = count != self.kept;
                self.kept = count;
                Ok((votes, landed))
            }
            Err(fault) => Err(fault_of(NodeDisk::First, fault)),
        }
    }
}

// The record of a note, as the journal and the bus take it. Linear in the note.
fn vote_record(alloc: Global, note: &ReplicaNote) -> Result<Payload, AllocError>
    requires { IsNote note.now }
    ensures { IfOk result (λ r. r ≡ note_spelled note.now) }
{
    let mut bytes = Bytes::new(alloc);
    note.put(&mut bytes)?;
    Payload::from_slice(alloc, bytes.as_slice())
}
