// A replica's notes that are kept on a disk.
ghost use Rattle.std.specs.Prelude.{◌≡◌, All, IfOk, IfSome, IfNone, [], ◌++◌, ◌∷◌, List};
ghost use Rattle.std.specs.Coded.{Coded-set, coded_result, coded_list, coded_ℕ, ×_prop};
ghost use Rattle.packet_codec.specs.Notes.{IsNote, note as note_spelled};
ghost use Rattle.paxos_acceptor.specs.declared.notes.ReplicaNote.{ReplicaNote};
ghost use Rattle.output_log.specs.Votes.{IsNoVote};
ghost use Rattle.output_log.specs.VoteLaws.{notes_once};

use gate_journal::{Record, RecordJournal};
use packet_codec::{Field, FieldFault};
use paxos_acceptor::ReplicaNote;
use std::alloc::{AllocError, Global};
use wire_core::{Origin, Reader};

/// A replica's notes, in the order in which they were written.
///
/// A record is a note as packets have it: the byte 07 or 08, a place, a ballot and of an accepted note the batch, up to
/// 1952 bytes.
#[derive(Drop)]
pub struct Votes {
    notes: Vec<ReplicaNote>,
    ghost are_notes: { All IsNote notes.items } by { notes_once notes.items },
}

/// A replica's notes, as a disk keeps them.
pub type VoteJournal<D> = RecordJournal<D, Votes>;

impl Votes {
    /// No notes. It takes no memory.
    pub fn none(alloc: Global) -> Votes
        ensures { result.notes.items ≡ [] }
    {
        Votes {
            notes: Vec::new(alloc),
        }
    }

    /// The notes.
    pub fn notes(&self) -> &[ReplicaNote]
        ensures { result.now ≡ self.now.notes.items }
    {
        &self.notes
    }

    /// The notes, given away.
    pub fn into_notes(self) -> Vec<ReplicaNote>
        ensures { result ≡ self.notes }
    {
        self.notes
    }
}

impl Record for Votes {
    ghost use Rattle.std.proofs.Common.{inl, refl};
    ghost use Rattle.output_log.specs.Votes.{spells, is_damaged_at};
    ghost use Rattle.output_log.specs.VoteLaws.{notes_once};

    type One = ReplicaNote;

    ghost Kept = { List ReplicaNote };

    ghost keeps = { spells };

    ghost damaged = { is_damaged_at };

    ghost keeps_once = { λ notes read. ×_prop (notes_once notes) (Coded-set (coded_result (coded_list (coded_list coded_ℕ)) coded_ℕ) _ _) };

    ghost kept = { λ v. v.notes.items };

    ghost may_come = { λ _ note. IsNote note };

    ghost after = { λ notes note. notes ++ note ∷ [] };

    fn new(alloc: Global) -> Result<Votes, AllocError> {
        Ok(Votes::none(alloc))
    }

    #[tactic(auto, using(gate_journal::specs::Spelled::all_pushed, gate_journal::specs::Spelled::comes_as, gate_journal::specs::Spelled::comes_other))]
    fn take(&mut self, origin: Origin, payload: &[u8]) -> Result<bool, AllocError> {
        match read_vote(origin, payload)? {
            Some(note) => {
                self.notes.push(note)?;
                Ok(true)
            }
            None => Ok(false),
        }
    }

    ghost gates_first = { λ _. inl refl };
}

// The note of a record, or None where it is no note's. Linear in the record. It allocates the batch's inserts.
fn read_vote(origin: Origin, payload: &[u8]) -> Result<Option<ReplicaNote>, AllocError>
    ensures some { IfOk result (λ read. IfSome read (λ note. IsNote note × (payload.now ≡ note_spelled note))) }
    ensures none { IfOk result (λ read. IfNone read (IsNoVote payload.now)) }
{
    let mut from = Reader::new(payload);
    match ReplicaNote::take(origin, &mut from) {
        Ok(note) => {
            if from.rest().is_empty() {
                Ok(Some(note))
            } else {
                Ok(None)
            }
        }
        Err(FieldFault::BadField { .. }) => Ok(None),
        Err(FieldFault::Memory) => Err(AllocError),
    }
}
