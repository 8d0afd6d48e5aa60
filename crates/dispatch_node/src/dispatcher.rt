// A dispatcher that is up or down, over the click log.
ghost use Rattle.std.specs.Prelude.{[], ◌≡◌, None, Some, ⊤};
ghost use Rattle.dispatch_node.specs.Terms.{DispatcherKept, Numbered, CanKeep, DispatcherLive, IsKept, Setting, dispatcher_at_rest, dispatcher_rows, dispatcher_unfinished, dispatcher_wants, numbered, told};

use crate::asking::look_up;
use crate::clicks::Clicks;
use dispatch_core::{DispatchCore, DispatchNote, Step};
use outside::LogFile;
use site_node::{Core, NodeFault, Turn};
use std::marker::Model;
use turn_defs::Input;

/// What a dispatcher keeps: its site, the offset, and the pending positions. There are no values of it.
#[derive(Drop)]
pub struct PlacesKept;

impl Model for PlacesKept {
    ghost Value = { Numbered DispatcherKept };

    ghost view = { λ _. record { number = 0; disk = record { offset = 0; pending = [] } } };
}

/// The offset and the pending positions on the disks, which a start goes on from.
#[derive(Drop)]
pub struct HeldPlaces {
    pub(crate) offset: u64,
    pub(crate) pending: Vec<u64>,
}

/// The core with the click log; while the dispatcher is down, what its disks hold.
#[derive(Drop)]
pub struct Dispatcher<L: LogFile> {
    pub(crate) core: DispatchCore,
    pub(crate) clicks: Clicks<L>,
    pub(crate) held: HeldPlaces,
}

impl<L: LogFile> Core<PlacesKept> for Dispatcher<L> {
    ghost use Rattle.dispatch_node.specs.Kept.{takes_note};
    ghost use Rattle.dispatch_node.specs.Dispatchers.{GoesOn, Knows, Serves};

    type Note = DispatchNote;

    type Change = Step;

    type Held = HeldPlaces;

    ghost tells = { L.tells };

    ghost Live = { DispatcherLive };

    ghost rows = { numbered dispatcher_rows };

    ghost noted = { told };

    // Each note has a record.
    ghost spelled = { λ note. ⊤ };

    ghost takes = { λ k n. takes_note k.disk n };

    ghost told = { λ held k. IsKept k.disk held.offset held.pending.items };

    ghost serves = { λ v. Serves v.core (L.bytes v.clicks.tail.log) };

    ghost knows = { λ v. Knows v.core (L.bytes v.clicks.tail.log) v.held };

    ghost can_keep = { λ v note step. CanKeep v.core step };

    ghost goes_on = { λ v note step. GoesOn v.core (L.bytes v.clicks.tail.log) step };

    // No disk of a dispatcher is ever beyond its last epoch.
    ghost spent = { λ k. None };

    ghost wants_as = { λ g k l. dispatcher_wants l };

    ghost unfinished_as = { λ g k l. dispatcher_unfinished l };

    ghost at_rest_as = { λ g k l. dispatcher_at_rest l };

    ghost log_faults = { λ v. L.faults v.clicks.tail.log };

    ghost serves_known = { λ v g k live knows. knows.serves };

    fn wants(&self) -> bool {
        self.core.wants()
    }

    fn unfinished(&self) -> bool {
        self.core.unfinished()
    }

    fn at_rest(&self) -> bool {
        self.core.at_rest()
    }

    fn decide(&mut self, input: Input) -> Result<Turn<DispatchNote, Step>, NodeFault> {
        let taken = look_up(&self.core, &self.held, &mut self.clicks, input)?;
        let turn = self.core.decide(taken)?;
        Ok(Turn {
            note: turn.step.note(),
            packets: turn.packets,
            change: turn.step,
        })
    }

    fn keep(&mut self, turn: Turn<DispatchNote, Step>)
        requires { CanKeep self.old.core turn.change }
        ensures knows { (g : Setting) (k : Numbered DispatcherKept) (l : DispatcherLive) → GoesOn self.old.core (L.bytes self.old.clicks.tail.log) turn.change g k l → Knows self.new.core (L.bytes self.new.clicks.tail.log) self.new.held g k (Some l) }
        ensures log_count { L.faults self.new.clicks.tail.log ≡ L.faults self.old.clicks.tail.log }
    {
        self.core.keep(turn.change);
        self.held.pending = Vec::new(self.clicks.alloc);
    }

    fn put_down(&mut self, held: HeldPlaces) {
        self.held = held;
    }
}
