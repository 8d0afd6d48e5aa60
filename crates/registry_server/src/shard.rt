// One shard of a server, and what a kept turn does to it.
ghost use Rattle.std.specs.Prelude.{◌≡◌, ◌<◌, ◌≤◌, length, true, false};
ghost use Rattle.registry_server.specs.Terms.{LAST_SLOT, Setting, ShardState, empty_shard, room, places};
ghost use Rattle.registry_server.specs.Stations.{setting};
ghost use Rattle.registry_server.specs.ShardStates.{IsShard, FitsStep, IsUnknown, TellsAnswered, stepped, passes, says};

use crate::station::Station;
use ballot_core::Ballot;
use batch_queue::{Answered, BatchQueue};
use id_expiry::TimedRegistry;
use paxos_proposer::Proposer;
use registry_state::{Batch, Insert, MOST_WAITING};
use std::alloc::Global;
use turn_defs::LAST_SLOT;

/// What a turn does to a shard.
#[derive(Debug, Drop)]
pub enum Step {
    /// An insert goes to the queue, where there is a place for it and its token doesn't wait.
    Queue(Insert),
    /// A proposal begins.
    Propose(Proposer),
    /// This replica has promised the proposal's ballot, and told a prior.
    Promise(u8, Option<(Ballot, Batch)>),
    /// This replica has accepted the proposal's value, and more are needed.
    Accept(u8),
    /// The value is chosen at the next slot, and answers these of the inserts that wait.
    Learn(Batch, Answered),
    /// The proposal was refused.
    Hold,
}

/// What is asked of a shard.
#[derive(Clone, Copy, Debug, PartialEq, Eq)]
pub(crate) enum Test {
    /// A proposal may begin.
    MayPropose,
    /// Something waits.
    IsUnfinished,
    /// The bound is below the horizon.
    IsBelowHorizon,
}

/// One shard. The values learned are never looked over: the registry has their meaning, and `next` is their number.
#[derive(Debug, Drop)]
pub struct Shard {
    pub(crate) next: u64,
    pub(crate) registry: TimedRegistry,
    pub(crate) queue: BatchQueue,
    pub(crate) proposal: Option<Proposer>,
    pub(crate) held: bool,
}

impl Shard {
    // Nothing is learned. It takes no memory.
    pub(crate) fn new(alloc: Global) -> Shard
        ensures { IsShard result empty_shard }
    {
        Shard {
            next: 0,
            registry: TimedRegistry::new(alloc),
            queue: BatchQueue::new(alloc),
            proposal: None,
            held: false,
        }
    }

    // In constant time.
    #[tactic(auto, using(crate::proofs::Testing::passes_is, crate::proofs::Testing::low_is))]
    pub(crate) fn passes(&self, station: &Station, test: Test) -> bool
        ensures row { (g : Setting) (st : ShardState) → IsShard self.now st → result ≡ passes (setting station.now g) test st }
        ensures low { test ≡ Test.MayPropose → result ≡ true → self.now.next < LAST_SLOT }
    {
        let free = self.proposal.is_none();
        let empty = self.queue.is_empty();
        let below = self.registry.bound() < station.config.horizon;
        let low = self.next < LAST_SLOT;
        does_pass(test, free, self.held, empty, below, low)
    }

    /// Makes the step that a turn decided on. It takes no memory. A learned value takes logarithmic expected time for each
    /// insert of it, each that waits and is answered, and each id that expires; the others take constant expected time.
    pub(crate) fn keep(&mut self, step: Step)
        requires { FitsStep step self.old }
        ensures { (g : Setting) (site : _) (st : ShardState) → IsShard self.old st → IsShard self.new (stepped g site step st) }
    {
        match step {
            Step::Queue(insert) => self.put_last(insert),
            Step::Propose(proposer) => self.proposal = Some(proposer),
            Step::Promise(from, prior) => self.keep_promise(from, prior),
            Step::Accept(from) => self.keep_accepted(from),
            Step::Learn(batch, answered) => self.learn(&batch, &answered),
            Step::Hold => {
                self.proposal = None;
                self.held = true;
            }
        }
    }

    fn put_last(&mut self, insert: Insert)
        requires room { 0 < places self.old.queue }
        requires unknown { IsUnknown self.old insert }
        ensures { (g : Setting) (site : _) (st : ShardState) → IsShard self.old st → IsShard self.new (stepped g site (Step.Queue insert) st) }
    {
        let waiting = self.queue.len();
        prove!(waiting <= MOST_WAITING);
        let _ = self.queue.put(insert);
    }

    fn keep_promise(&mut self, from: u8, prior: Option<(Ballot, Batch)>)
        ensures { (g : Setting) (site : _) (st : ShardState) → IsShard self.old st → IsShard self.new (stepped g site (Step.Promise from prior) st) }
    {
        if let Some(proposal) = &mut self.proposal {
            let ballot = proposal.ballot();
            proposal.keep_promise(from, ballot, prior);
        }
    }

    fn keep_accepted(&mut self, from: u8)
        requires { FitsStep (Step.Accept from) self.old }
        ensures { (g : Setting) (site : _) (st : ShardState) → IsShard self.old st → IsShard self.new (stepped g site (Step.Accept from) st) }
    {
        if let Some(proposal) = &mut self.proposal {
            let ballot = proposal.ballot();
            proposal.keep_accepted(from, ballot);
        }
    }

    // The value is applied, its proposal and the holding back end, and inserts that have an answer now wait no more.
    fn learn(&mut self, batch: &Batch, answered: &Answered)
        requires room { length batch.now.inserts ≤ room self.old.registry }
        requires low { self.old.next < LAST_SLOT }
        requires told { TellsAnswered self.old batch.now answered.now }
        ensures { (g : Setting) (site : _) (st : ShardState) → IsShard self.old st → IsShard self.new (stepped g site (Step.Learn batch.now answered.now) st) }
    {
        self.registry.learn(batch);
        self.next += 1;
        self.queue.drop_answered(answered);
        self.proposal = None;
        self.held = false;
    }

    /// Holds back no more.
    pub(crate) fn release(&mut self)
        ensures { (st : ShardState) → IsShard self.old st → IsShard self.new (record st { held = false }) }
    {
        self.held = false;
    }
}

// A proposal may begin where there is none, the shard isn't held back, an insert waits or the bound is below the horizon,
// and the slot is below the limit.
fn does_pass(test: Test, free: bool, held: bool, empty: bool, below: bool, low: bool) -> bool
    ensures { result ≡ says test free held empty below low }
{
    match test {
        Test::MayPropose => free && !held && (!empty || below) && low,
        Test::IsUnfinished => !free || held || !empty || below,
        Test::IsBelowHorizon => below,
    }
}
