// What a replica writes down, and what it answers.
ghost use Rattle.std.specs.Prelude.{◌≡◌, IfOk};

use ballot_core::Ballot;
use registry_state::Batch;
use std::alloc::AllocError;

/// A record of a replica's journal. The slot counts the values of the shard from 0.
#[derive(Debug, Drop)]
pub enum ReplicaNote {
    /// It accepts nothing below the ballot in this place from now on.
    Promised {
        shard: u8,
        slot: u64,
        ballot: Ballot,
    },
    /// It accepted the batch at the ballot, which also promises the ballot.
    Accepted {
        shard: u8,
        slot: u64,
        ballot: Ballot,
        batch: Batch,
    },
}

impl ReplicaNote {
    /// The same note, by one allocation where it has a batch.
    pub fn copy(&self) -> Result<ReplicaNote, AllocError>
        ensures { IfOk result (λ copy. copy ≡ self.now) }
    {
        match self {
            ReplicaNote::Promised {
                shard,
                slot,
                ballot,
            } => Ok(ReplicaNote::Promised {
                shard: *shard,
                slot: *slot,
                ballot: *ballot,
            }),
            ReplicaNote::Accepted {
                shard,
                slot,
                ballot,
                batch,
            } => Ok(ReplicaNote::Accepted {
                shard: *shard,
                slot: *slot,
                ballot: *ballot,
                batch: batch.copy()?,
            }),
        }
    }
}

/// What a Prepare is answered.
#[derive(Debug, Drop)]
pub enum Prepared {
    /// A promise, with what was accepted in the place before, and at which ballot.
    Promise(Option<(Ballot, Batch)>),
    /// A refusal, with the higher ballot that was promised.
    Nack(Ballot),
}

/// What an Accept is answered.
#[derive(Debug, Drop)]
pub enum Taken {
    /// The batch is accepted at the ballot.
    Accepted,
    /// A refusal, with the higher ballot that was promised.
    Nack(Ballot),
}
