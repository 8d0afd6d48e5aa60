// A replica that is up or down, and what it keeps has spellings.
ghost use Rattle.std.specs.Prelude.{[], ◌≡◌, false, Some, None, true, zero, ⊤};
ghost use Rattle.replica_node.specs.Terms.{ReplicaKept, IsNote, Setting, Voted, kept_of, note_view, replica_rows, replica_at_rest, replica_unfinished, replica_wants};

use crate::ReplicaCore;
use crate::turn::{Change, Turn, idle};
use output_log::Votes;
use paxos_acceptor::ReplicaNote;
use site_node::{Core, NodeFault};
use std::alloc::Global;
use std::marker::Model;
use turn_defs::Input;

/// What a replica keeps: the notes of its journal. There are no values of it.
#[derive(Drop)]
pub struct VotesKept;

impl Model for VotesKept {
    ghost Value = { ReplicaKept };

    ghost view = { λ v. record { notes = [] } };
}

/// The core, while the replica is up; while it is down, the notes that its start goes on from. What it kept has
/// spellings, so what it sends has them.
#[derive(Drop)]
pub struct Voter {
    core: ReplicaCore,
    votes: Votes,
    up: bool,
    alloc: Global,
}

impl Model for Voter {
    ghost use Rattle.replica_node.specs.Node.{VoterView, IsSpelledCore};
    ghost use Rattle.std.specs.Coded.{codes};
    ghost use Rattle.replica_node.specs.contracts.replica_core.ReplicaCore as core_row;

    ghost Value = { VoterView };

    ghost coded = { Prim.hlevel (codes, core_row.the_row.coded) };

    ghost view = { λ v. record { core = v.core; notes = v.votes.notes.items; up = v.up } };

    ghost invariant = { λ v. IsSpelledCore v.core };
}

impl Voter {
    // A replica that is down, over these notes.
    pub(crate) fn new(alloc: Global, votes: Votes) -> Voter
        ensures notes { result.notes ≡ votes.notes.items }
        ensures down { result.up ≡ false }
    {
        Voter {
            core: ReplicaCore::new(alloc),
            votes,
            up: false,
            alloc,
        }
    }
}

impl Core<VotesKept> for Voter {
    ghost use Rattle.replica_node.specs.Node.{Knows, CanKeep, Makes};

    type Note = ReplicaNote;

    type Change = Change;

    type Held = Votes;

    ghost tells = { true };

    ghost Live = { Unit {0} };

    ghost rows = { replica_rows };

    ghost noted = { λ n. Voted (note_view n) };

    ghost spelled = { IsNote };

    ghost takes = { λ k n. true };

    ghost told = { λ held k. kept_of held.notes.items ≡ k };

    // A replica serves any notes.
    ghost serves = { λ v g k. ⊤ };

    ghost knows = { λ v g. Knows v };

    ghost can_keep = { λ v. CanKeep v.core };

    ghost goes_on = { λ v note change g k l. Makes v.core note change k };

    ghost spent = { λ k. None };

    ghost wants_as = { λ g k l. replica_wants k };

    ghost unfinished_as = { λ g k l. replica_unfinished k };

    ghost at_rest_as = { λ g k l. replica_at_rest k };

    ghost log_faults = { λ v. 0 };

    ghost serves_known = { λ v g k live knows. tt };

    fn wants(&self) -> bool {
        false
    }

    fn unfinished(&self) -> bool {
        false
    }

    fn at_rest(&self) -> bool {
        true
    }

    fn decide(&mut self, input: Input) -> Result<Turn, NodeFault> {
        match &input {
            Input::Start => Ok(self.core.start(self.votes.notes())?),
            Input::Own | Input::Tick => Ok(idle(self.alloc, Change::Stays)),
            Input::Deliver { from, packet } => Ok(self.core.gets(*from, packet)?),
        }
    }

    fn keep(&mut self, turn: Turn)
        requires { CanKeep self.old.core turn.note turn.change }
        ensures knows { (g : Setting) (k : ReplicaKept) (l : Unit {0}) → Makes self.old.core turn.note turn.change k → Knows self.new k (Some l) }
        ensures log_count { zero ≡ zero }
    {
        self.core.keep(turn);
        self.votes = Votes::none(self.alloc);
        self.up = true;
    }

    fn put_down(&mut self, held: Votes) {
        *self = Voter::new(self.alloc, held);
    }
}
