// The records of the replicas' journals and of the output logs.
ghost use Rattle.std.specs.Prelude.{◌≡◌};

use paxos_acceptor::ReplicaNote;
use std::marker::Model;
use turn_defs::PairRec;

/// A replica's notes, in the order in which it wrote them.
#[derive(Debug, Drop)]
pub struct NoteList {
    items: Vec<ReplicaNote>,
}

impl Model for NoteList {
    ghost use Rattle.std.specs.Prelude.{List};
    ghost use Rattle.paxos_acceptor.specs.declared.notes.ReplicaNote.{ReplicaNote};

    ghost Value = { List ReplicaNote };

    ghost view = { λ a. a.items.items };
}

impl NoteList {
    /// The notes, borrowed.
    pub fn as_slice(&self) -> &[ReplicaNote]
        ensures { result.now ≡ self.now }
    {
        &self.items
    }
}

impl From<Vec<ReplicaNote>> for NoteList {
    ghost from_gives = { λ items notes. notes ≡ items.items };

    fn from(items: Vec<ReplicaNote>) -> NoteList {
        NoteList { items }
    }
}

/// The pairs of an output log, in the order in which they were written.
#[derive(Debug, Drop)]
pub struct PairList {
    items: Vec<PairRec>,
}

impl Model for PairList {
    ghost use Rattle.std.specs.Prelude.{List};
    ghost use Rattle.turn_defs.specs.declared.pair.PairRec.{PairRec};

    ghost Value = { List PairRec };

    ghost view = { λ a. a.items.items };
}

impl PairList {
    /// The pairs, borrowed.
    pub fn as_slice(&self) -> &[PairRec]
        ensures { result.now ≡ self.now }
    {
        &self.items
    }

    /// The pairs, given away.
    pub fn into_pairs(self) -> Vec<PairRec>
        ensures { result.items ≡ self }
    {
        self.items
    }
}

impl From<Vec<PairRec>> for PairList {
    ghost from_gives = { λ items pairs. pairs ≡ items.items };

    fn from(items: Vec<PairRec>) -> PairList {
        PairList { items }
    }
}

/// The records of the disks of a store: a list of notes for each replica, and a list of pairs for each joiner, both in
/// the order of the disks.
#[derive(Debug, Drop)]
pub struct Journals {
    pub notes: Vec<NoteList>,
    pub pairs: Vec<PairList>,
}
