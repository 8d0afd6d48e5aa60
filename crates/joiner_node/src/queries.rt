// The query log, read as far as look-ups need.
ghost use Rattle.std.specs.Prelude.{◌≡◌, ℕ, List, IfOk, IfErr, IfSome, IsTrue, true};
ghost use Rattle.joiner_node.specs.Terms.{is_read_fault, Query, IsQueryLog, JoinerKept, JoinerLive, Setting, Deliver, IsInput, IsTaken, IsTold, CanStart, Carries, Stands, Tells, needs_look_up};

use event_id::EventId;
use event_store::{EventStore, LookFault, Lookup, Step};
use joiner_core::{JoinerCore, JoinerInput, Looked};
use log_records::ClickRec;
use outside::LogFile;
use std::alloc::{AllocError, Global};
use std::hash::RandomState;
use turn_defs::{Input, Node, Packet};

// How many queries are kept at hand.
const CACHE: u32 = 1_024;

/// The queries of a log, of which those at its front were read.
#[derive(Drop)]
pub(crate) struct Queries<L: LogFile> {
    store: EventStore<L>,
}

impl<L: LogFile> Queries<L> {
    ghost use Rattle.outside.specs.Faults.{tallied};
    ghost use Rattle.turn_defs.specs.Packets.{IsPacket};
    ghost use Rattle.joiner_node.specs.Joining.{MayRaise, StandsFor};
    ghost use Rattle.joiner_node.specs.Read.{HasRead, IsFirst};

    // Nothing is read yet.
    #[tactic(auto, using(crate::proofs::Reading::starts_at))]
    pub(crate) fn new(
        alloc: Global,
        keys: RandomState,
        log: L,
    ) -> Result<Queries<L>, (AllocError, L)>
        ensures log { IfOk result (λ queries. queries.store.tail.log ≡ log) }
        ensures reads { IfOk result (λ queries. (qs : List Query) → IsQueryLog (L.bytes log) qs → HasRead queries qs) }
        ensures most { IfOk result (λ queries. queries.store.recent.records.cap ≡ 1024) }
        ensures err { IfErr result (λ e. e.1 ≡ log) }
    {
        match EventStore::new(alloc, keys, log, CACHE) {
            Ok(store) => Ok(Queries { store }),
            Err(refused) => Err(refused),
        }
    }

    // Gives the log back.
    pub(crate) fn into_log(self) -> L
        ensures { result ≡ self.store.tail.log }
    {
        self.store.into_log()
    }

    // The input as the core takes it, over this kept epoch. A Join's query is looked up, where the core needs it.
    pub(crate) fn asked(
        &mut self,
        core: &JoinerCore,
        epoch: u32,
        input: Input,
    ) -> Result<JoinerInput, LookFault>
        requires start { MayRaise epoch input }
        requires input { IsInput input }
        ensures reads { IsTrue L.tells → (qs : List Query) → HasRead self.old qs → HasRead self.new qs }
        ensures carries { IsTrue L.tells → IfOk result (λ asked. (g : Setting) (n : ℕ) (k : JoinerKept) (l : JoinerLive) → HasRead self.old g.queries → epoch ≡ k.epoch → StandsFor core.now g n k l input → Carries g k l asked input) }
        ensures start { IfOk result CanStart }
        ensures spelled { IfOk result IsTaken }
        ensures tally { L.faults self.new.store.tail.log ≡ tallied (L.faults self.old.store.tail.log) (is_read_fault result) }
    {
        match input {
            Input::Start => Ok(JoinerInput::Start { epoch }),
            Input::Own => Ok(JoinerInput::Own),
            Input::Tick => Ok(JoinerInput::Tick),
            Input::Deliver { from, packet } => self.delivered(core, from, packet),
        }
    }

    fn delivered(
        &mut self,
        core: &JoinerCore,
        from: Node,
        packet: Packet,
    ) -> Result<JoinerInput, LookFault>
        requires { IsPacket packet }
        ensures reads { IsTrue L.tells → (qs : List Query) → HasRead self.old qs → HasRead self.new qs }
        ensures carries { IsTrue L.tells → IfOk result (λ asked. (g : Setting) (n : ℕ) (k : JoinerKept) (l : JoinerLive) → HasRead self.old g.queries → Stands core.now g n k l → Carries g k l asked (Deliver from packet)) }
        ensures start { IfOk result CanStart }
        ensures spelled { IfOk result IsTaken }
        ensures tally { L.faults self.new.store.tail.log ≡ tallied (L.faults self.old.store.tail.log) (is_read_fault result) }
    {
        match packet {
            Packet::Join { position, click } => {
                let looked = self.looked(core, &click)?;
                Ok(JoinerInput::Join {
                    position,
                    click,
                    looked,
                })
            }
            packet => Ok(JoinerInput::Packet { from, packet }),
        }
    }

    // What the log says of the click's query, where the core needs it.
    fn looked(&mut self, core: &JoinerCore, click: &ClickRec) -> Result<Looked, LookFault>
        ensures reads { IsTrue L.tells → (qs : List Query) → HasRead self.old qs → HasRead self.new qs }
        ensures tells { IsTrue L.tells → IfOk result (λ looked. (g : Setting) (n : ℕ) (k : JoinerKept) (l : JoinerLive) → HasRead self.old g.queries → Stands core.now g n k l → needs_look_up l click.now.id ≡ true → Tells g click.now looked) }
        ensures spelled { IfOk result IsTold }
        ensures tally { L.faults self.new.store.tail.log ≡ tallied (L.faults self.old.store.tail.log) (is_read_fault result) }
    {
        if !core.needs_look_up(click.id) {
            return Ok(Looked::Lines(0));
        }
        self.look_up(click.query)
    }

    // The first query of the log with the id, or how many lines the log has where there is none. Lines are read only until
    // it is found. A look between two lines takes constant time while the id is above all that were read of its process.
    fn look_up(&mut self, id: EventId) -> Result<Looked, LookFault>
        ensures reads { IsTrue L.tells → (qs : List Query) → HasRead self.old qs → HasRead self.new qs }
        ensures found { IsTrue L.tells → (qs : List Query) → HasRead self.old qs → IfOk result (IsFirst qs id) }
        ensures spelled { IfOk result IsTold }
        ensures tally { L.faults self.new.store.tail.log ≡ tallied (L.faults self.old.store.tail.log) (is_read_fault result) }
    {
        'lines: for _ in 0..u64::MAX {
            match self.step(id) {
                Ok(Some(looked)) => return Ok(looked),
                Ok(None) => {}
                Err(fault) => return Err(fault),
            }
        }
        Err(LookFault::Memory)
    }

    // Looks among the lines read, and reads one line more where none of them has the id.
    fn step(&mut self, id: EventId) -> Result<Option<Looked>, LookFault>
        ensures reads { IsTrue L.tells → (qs : List Query) → HasRead self.old qs → HasRead self.new qs }
        ensures found { IsTrue L.tells → (qs : List Query) → HasRead self.old qs → IfOk result (λ looked. IfSome looked (IsFirst qs id)) }
        ensures spelled { IfOk result (λ looked. IfSome looked IsTold) }
        ensures tally { L.faults self.new.store.tail.log ≡ tallied (L.faults self.old.store.tail.log) (is_read_fault result) }
    {
        let read = match self.store.lookup(id) {
            Ok(Lookup::Found(query)) => return Ok(Some(Looked::Found(query))),
            Ok(Lookup::NotYet { read }) => read,
            Err(fault) => return Err(fault),
        };
        match self.store.advance() {
            Ok(Step::Line) => Ok(None),
            Ok(Step::End) => Ok(Some(Looked::Lines(read))),
            Err(fault) => Err(fault),
        }
    }
}
