// A joiner that is up or down, and the query log.
ghost use Rattle.std.specs.Prelude.{◌≡◌, ◌≤◌, false, [], Option, None, IfOk, IfErr, Some};
ghost use Rattle.joiner_node.specs.Terms.{LAST_EPOCH, JoinerKept, Numbered, IsQueryLog, JoinerLive, Setting, site_of_joiner, joiner_at_rest, joiner_unfinished, joiner_wants, joiner_rows, numbered, spent_epoch, IsWritten, CanChange, note_of};
ghost use Rattle.joiner_node.specs.Joining.{MayRaise, is_spent_at};

use crate::held::HeldEpoch;
use crate::queries::Queries;
use ballot_core::LAST_EPOCH;
use event_store::LookFault;
use joiner_core::{Change, JoinerCore, JoinerNote, Turn};
use outside::LogFile;
use site_node::{Core, NodeFault};
use std::alloc::{AllocError, Global};
use std::hash::RandomState;
use std::marker::Model;
use turn_defs::Input;

/// What a joiner keeps: its number, and what its disks hold. There are no values of it.
#[derive(Drop)]
pub struct PairsKept;

impl Model for PairsKept {
    ghost Value = { Numbered JoinerKept };

    ghost view = { λ v. record { number = 0; disk = record { epoch = 0; pairs = [] } } };
}

/// The core, which counts while the joiner is up, and the query log.
#[derive(Drop)]
pub struct Joining<L: LogFile> {
    core: JoinerCore,
    queries: Queries<L>,
    // While it is down, the epoch on its disk.
    down: Option<HeldEpoch>,
}

impl<L: LogFile> Joining<L> {
    ghost use Rattle.joiner_node.specs.Joining.{Knows};

    // A joiner that is down, over this epoch, and has read nothing of the log.
    pub(crate) fn new(
        alloc: Global,
        number: u16,
        site: u8,
        held: HeldEpoch,
        keys: RandomState,
        log: L,
    ) -> Result<Joining<L>, (AllocError, L)>
        ensures knows { IfOk result (λ joining. (g : Setting) (k : JoinerKept) → site ≡ site_of_joiner g number → IsQueryLog (L.bytes log) g.queries → held.epoch ≡ k.epoch → Knows joining g (record { number = number; disk = k }) None) }
        ensures log { IfOk result (λ joining. joining.queries.store.tail.log ≡ log) }
        ensures err { IfErr result (λ e. e.1 ≡ log) }
    {
        match Queries::new(alloc, keys, log) {
            Ok(queries) => Ok(Joining {
                core: JoinerCore::new(alloc, number, site),
                queries,
                down: Some(held),
            }),
            Err(refused) => Err(refused),
        }
    }

    // Gives the log back.
    pub(crate) fn into_log(self) -> L
        ensures { result ≡ self.queries.store.tail.log }
    {
        self.queries.into_log()
    }

    // The kept epoch.
    fn epoch(&self) -> u32
        ensures kept { (g : Setting) (k : Numbered JoinerKept) (live : Option JoinerLive) → Knows self.now g k live → result ≡ k.disk.epoch }
        ensures limit { result ≤ LAST_EPOCH }
    {
        match self.down {
            Some(held) => held.epoch,
            None => self.core.epoch(),
        }
    }
}

impl<L: LogFile> Core<PairsKept> for Joining<L> {
    ghost use Rattle.joiner_node.specs.Joining.{GoesOn, Knows, ServesAs, takes_note};

    type Note = JoinerNote;

    type Change = Change;

    type Held = HeldEpoch;

    ghost tells = { L.tells };

    ghost Live = { JoinerLive };

    ghost rows = { numbered joiner_rows };

    ghost noted = { note_of };

    ghost spelled = { IsWritten };

    ghost takes = { λ k n. takes_note k.disk.epoch n };

    ghost told = { λ held k. held.epoch ≡ k.disk.epoch };

    ghost serves = { ServesAs };

    ghost knows = { Knows };

    ghost can_keep = { λ v note change. CanChange v.core change };

    ghost goes_on = { λ v note change. GoesOn v change };

    ghost spent = { λ k. spent_epoch k.disk.epoch };

    ghost wants_as = { λ g k l. joiner_wants l };

    ghost unfinished_as = { λ g k l. joiner_unfinished l };

    ghost at_rest_as = { λ g k l. joiner_at_rest l };

    ghost log_faults = { λ v. L.faults v.queries.store.tail.log };

    ghost serves_known = { λ core g k live knows. knows.serves };

    fn wants(&self) -> bool {
        self.core.wants()
    }

    fn unfinished(&self) -> bool {
        self.core.unfinished()
    }

    fn at_rest(&self) -> bool {
        self.core.at_rest()
    }

    fn decide(&mut self, input: Input) -> Result<Turn, NodeFault> {
        let epoch = self.epoch();
        if is_spent(epoch, &input) {
            return Err(NodeFault::Spent(epoch));
        }
        match self.queries.asked(&self.core, epoch, input) {
            Ok(asked) => {
                let turn = self.core.decide(asked)?;
                Ok(turn)
            }
            Err(LookFault::Read) => Err(NodeFault::Read),
            Err(LookFault::Memory) => Err(NodeFault::Memory),
        }
    }

    fn keep(&mut self, turn: Turn)
        requires { CanChange self.old.core turn.change }
        ensures knows { (g : Setting) (k : Numbered JoinerKept) (l : JoinerLive) → GoesOn self.old turn.change g k l → Knows self.new g k (Some l) }
        ensures log_count { L.faults self.new.queries.store.tail.log ≡ L.faults self.old.queries.store.tail.log }
    {
        self.core.keep(turn.change);
        self.down = None;
    }

    fn put_down(&mut self, held: HeldEpoch) {
        self.down = Some(held);
    }
}

// Whether a start has no epoch left.
fn is_spent(epoch: u32, input: &Input) -> bool
    ensures is { result ≡ is_spent_at epoch input.now }
    ensures low { epoch ≤ LAST_EPOCH → result ≡ false → MayRaise epoch input.now }
{
    match input {
        Input::Start => epoch == LAST_EPOCH,
        Input::Own | Input::Tick | Input::Deliver { .. } => false,
    }
}
