// The proposer: it asks for promises, then sends the highest prior, or its own batch where none came.
ghost use Rattle.std.specs.Prelude.{◌≡◌, ◌≤◌, ◌↔◌, List, Bool, Option, Some, None, option_map, is_some, IsTrue, IsSome};
ghost use Rattle.ballot_core.specs.declared.Ballot.{Ballot as Number};
ghost use Rattle.registry_state.specs.declared.Batch.{Batch as Value};
ghost use Rattle.paxos_defs.specs.Attempts.{nobody};
ghost use Rattle.paxos_defs.specs.Attempts.Phase.{Promising, Accepting, Ended};
ghost use Rattle.paxos_defs.specs.Turns.{value_for};
ghost use Rattle.paxos_defs.specs.declared.TheConstants.{MOST_REPLICAS};
ghost use Rattle.paxos_proposer.specs.Proposals.{slot_of, ballot_of, own_of, value_of, phase_of, prior_of, promise_turn, acceptance_turn, IsSameProposal, IsAccepting, IsLastPromise, IsLastAcceptance};

use crate::tally::Tally;
use ballot_core::Ballot;
use registry_state::Batch;

#[derive(Clone, Copy, Debug, PartialEq, Eq)]
enum Stage {
    Promising,
    Accepting,
    Ended,
}

/// A proposal of a batch for a slot. First the replicas promise its ballot; the promise that makes a majority begins
/// the second phase, in which they accept its value; the acceptance that makes a majority ends it.
/// Each call takes constant time and no memory.
#[derive(Debug, Drop)]
pub struct Proposer {
    slot: u64,
    ballot: Ballot,
    own: Batch,
    // the highest prior that a promise told
    best: Option<(Ballot, Batch)>,
    // which replicas have answered in this stage
    heard: Tally,
    stage: Stage,
}

impl Proposer {
    /// Begins the first phase, among so many replicas, numbered from 0. No two proposals may have one ballot.
    pub fn start(replicas: u8, slot: u64, ballot: Ballot, own: Batch) -> Proposer
        requires { replicas ≤ MOST_REPLICAS }
        ensures slot { slot_of result ≡ slot }
        ensures ballot { ballot_of result ≡ ballot }
        ensures own { own_of result ≡ own }
        ensures phase { phase_of result ≡ Promising (nobody replicas) None }
    {
        Proposer {
            slot,
            ballot,
            own,
            best: None,
            heard: Tally::new(replicas),
            stage: Stage::Promising,
        }
    }

    /// The value to send to all replicas, where this promise makes the majority. The prior is what the replica accepted
    /// before.
    pub fn on_promise<'a>(
        &'a self,
        from: u8,
        ballot: Ballot,
        prior: Option<(Ballot, &'a Batch)>,
    ) -> Option<&'a Batch>
        ensures turn { option_map (λ r. r.now) result ≡ (promise_turn self.now from ballot (prior_of prior.entry)).1 }
        ensures majority { IsSome result ↔ ((ballot ≡ ballot_of self.now) × IsLastPromise (phase_of self.now) from) }
    {
        if ballot != self.ballot
            || self.stage != Stage::Promising
            || !self.heard.is_new(from)
            || !self.heard.is_most_with(from)
        {
            return None;
        }
        match (&self.best, prior) {
            (None, None) => Some(&self.own),
            (None, Some((_, told))) => Some(told),
            (Some((_, kept)), None) => Some(kept),
            (Some((at, kept)), Some((higher, told))) => Some(if *at < higher {
                told
            } else {
                kept
            }),
        }
    }

    /// Counts this promise, and keeps its prior where it is the highest. The promise that makes the majority begins the
    /// second phase.
    pub fn keep_promise(&mut self, from: u8, ballot: Ballot, prior: Option<(Ballot, Batch)>)
        ensures phase { phase_of self.new ≡ (promise_turn self.old from ballot prior).0 }
        ensures proposal { IsSameProposal self.old self.new }
        ensures ended { phase_of self.old ≡ Ended → value_of self.new ≡ value_of self.old }
    {
        if ballot != self.ballot || self.stage != Stage::Promising || !self.heard.is_new(from) {
            return;
        }
        let most = self.heard.is_most_with(from);
        let replace = match (&self.best, &prior) {
            (_, None) => false,
            (None, Some(_)) => true,
            (Some((at, _)), Some((higher, _))) => *at < *higher,
        };
        if replace {
            self.best = prior;
        }
        if most {
            self.stage = Stage::Accepting;
            self.heard.clear();
        } else {
            self.heard.mark(from);
        }
    }

    /// Whether this acceptance makes the majority, so that the value is chosen.
    pub fn on_accepted(&self, from: u8, ballot: Ballot) -> bool
        ensures turn { result ≡ is_some (acceptance_turn self.now from ballot).1 }
        ensures majority { IsTrue result ↔ ((ballot ≡ ballot_of self.now) × IsLastAcceptance (phase_of self.now) from) }
    {
        ballot == self.ballot
            && self.stage == Stage::Accepting
            && self.heard.is_new(from)
            && self.heard.is_most_with(from)
    }

    /// Counts this acceptance. The one that makes the majority ends the proposal.
    pub fn keep_accepted(&mut self, from: u8, ballot: Ballot)
        ensures phase { phase_of self.new ≡ (acceptance_turn self.old from ballot).0 }
        ensures proposal { IsSameProposal self.old self.new }
        ensures value { value_of self.new ≡ value_of self.old }
    {
        if ballot != self.ballot || self.stage != Stage::Accepting || !self.heard.is_new(from) {
            return;
        }
        if self.heard.is_most_with(from) {
            self.stage = Stage::Ended;
        } else {
            self.heard.mark(from);
        }
    }

    /// Whether a refusal of this ballot is of this proposal, which it ends. The promised ballot tells the server which
    /// round to go above.
    pub fn on_nack(&self, ballot: Ballot, _promised: Ballot) -> bool
        ensures { IsTrue result ↔ (ballot ≡ ballot_of self.now) }
    {
        ballot == self.ballot
    }

    /// The slot that the proposal is for.
    pub fn slot(&self) -> u64
        ensures { result ≡ slot_of self.now }
    {
        self.slot
    }

    /// The ballot that the proposal was started with.
    pub fn ballot(&self) -> Ballot
        ensures { result ≡ ballot_of self.now }
    {
        self.ballot
    }

    /// Whether this is the second phase: the value was sent, and no majority has accepted it yet.
    pub fn is_accepting(&self) -> bool
        ensures { IsTrue result ↔ IsAccepting (phase_of self.now) }
    {
        self.stage == Stage::Accepting
    }

    /// The value: that of the highest prior so far, or its own where none came.
    pub fn value(&self) -> &Batch
        ensures value { result.now ≡ value_of self.now }
        ensures promising { (marks : List Bool) (best : Option (Number × Value)) → phase_of self.now ≡ Promising marks best →
            result.now ≡ value_for (own_of self.now) best }
        ensures accepting { (marks : List Bool) (v : Value) → phase_of self.now ≡ Accepting v marks → result.now ≡ v }
    {
        match &self.best {
            Some((_, batch)) => batch,
            None => &self.own,
        }
    }
}
