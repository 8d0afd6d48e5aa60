//! The history of a run, and what waits between its nodes.
ghost use Rattle.std.specs.Prelude.{◌≡◌, ◌≢◌, ℕ, ◌+◌, ◌<◌, ◌≤◌, ◌^◌, ◌↔◌, false, [], ◌∷◌, ◌++◌, length, IfOk, IfSome, OnErr, IsTrue, MatchOption};
ghost use Rattle.std.specs.List.{list_any};
ghost use Rattle.air_bus.specs.declared.entry.Entry.TheVariants.{Begin, End, Stop};
ghost use Rattle.air_bus.specs.declared.entry.Phase.TheVariants.{Busy};
ghost use Rattle.air_bus.specs.History.{phase, input_of, adds, IsQuiet, IsAired};
ghost use Rattle.air_bus.specs.Kept.{is_stop_from};
ghost use Rattle.air_bus.specs.Waiting.{is_dead, LeftOut};

use crate::entry::{Entry, Input, Phase};
use crate::history::History;
use crate::inbox::Inbox;
use crate::links::Links;
use crate::nodes::{all_down, all_empty, all_idle, choose, empty_inboxes, leave};
use crate::payload::{Packets, Payload};
use crate::send::send;
use lossy_link::{Kind, Plan};
use std::alloc::{AllocError, Global};
use std::marker::Model;

// No history is longer.
const MOST_ENTRIES: usize = (1 << 63) - 1;

/// What is between the nodes of a run: the history of their turns, and the packets that wait. Contracts see the kinds of
/// the nodes, the plan and the history; the nodes have the numbers from 0 in the order of their kinds.
///
/// The history takes no memory, since contracts alone see it. A payload's bytes are stored once: inboxes and answers share
/// them. Each link from a node to a node takes 8 bytes for its count of packets.
#[derive(Drop)]
pub struct Air {
    links: Links,
    phases: Vec<Phase>,
    // How many turns are open. The history is short even where each is closed.
    busy: usize,
    inboxes: Vec<Inbox>,
    history: History,
}

impl Model for Air {
    ghost use Rattle.air_bus.specs.History.{Flight};
    ghost use Rattle.air_bus.specs.Airs.{Agrees};

    ghost Value = { Flight };

    ghost view = { λ a. record { kinds = a.links.kinds.items; plan = a.links.plan; history = a.history } };

    ghost invariant = { λ a. Agrees a.links.plan a.links.kinds.items a.phases.items a.busy a.inboxes.items a.history };
}

impl Air {
    /// An Air of nodes of these kinds, all down, without a turn yet. It takes memory for each node and each link.
    pub fn new(alloc: Global, nodes: &[Kind], plan: Plan) -> Result<Air, AllocError>
        ensures { IfOk result (λ a. a ≡ record { kinds = nodes.now; plan = plan; history = [] }) }
    {
        Air::over(alloc, nodes, plan, None)
    }

    /// As `new`, and it keeps a record of the entries, for tests and drills. The record takes memory for each entry with its
    /// payloads, and is given up where there is none.
    pub fn recorded(alloc: Global, nodes: &[Kind], plan: Plan) -> Result<Air, AllocError>
        ensures { IfOk result (λ a. a ≡ record { kinds = nodes.now; plan = plan; history = [] }) }
    {
        Air::over(alloc, nodes, plan, Some(Vec::new(alloc)))
    }

    fn over(
        alloc: Global,
        nodes: &[Kind],
        plan: Plan,
        entries: Option<Vec<Entry>>,
    ) -> Result<Air, AllocError>
        requires { IfSome entries (λ r. r.items ≡ []) }
        ensures { IfOk result (λ a. a ≡ record { kinds = nodes.now; plan = plan; history = [] }) }
    {
        let links = Links::new(alloc, nodes, plan)?;
        let phases = all_down(alloc, nodes.len())?;
        let inboxes = empty_inboxes(alloc, nodes.len())?;
        Ok(Air {
            links,
            phases,
            busy: 0,
            inboxes,
            history: History::new(entries),
        })
    }

    /// How many nodes there are, in constant time.
    pub fn nodes(&self) -> usize
        ensures { result ≡ length self.now.kinds }
    {
        self.phases.len()
    }

    /// The numbers of the nodes that take no turn: of the dead replica, if the plan has one. It looks at each node.
    pub fn left_out(&self, alloc: Global) -> Result<Vec<u16>, AllocError>
        requires { length self.now.kinds < 2 ^ 16 }
        ensures { IfOk result (λ numbers. LeftOut self.now.plan self.now.kinds numbers.items) }
    {
        self.links.left_out(alloc)
    }

    /// Where the node stands, in constant time. A turn is opened on a node that isn't `Busy`, and closed on one that is.
    pub fn phase(&self, node: u16) -> Phase
        requires { node < length self.now.kinds }
        ensures { result ≡ phase node self.now.history }
    {
        self.phases[usize::from(node)]
    }

    /// How many entries there are, one of each call that opened or closed a turn, in constant time.
    pub fn entries(&self) -> usize
        ensures { result ≡ length self.now.history }
    {
        self.history.len()
    }

    /// Whether a node from this number on has stopped, in constant time.
    pub fn has_stop_from(&self, first: u16) -> bool
        ensures { result ≡ list_any (is_stop_from first) self.now.history }
    {
        self.history.has_stop_from(first)
    }

    /// The entries, in constant time, of an Air that keeps a record of them.
    pub fn record(&self) -> Option<&[Entry]>
        ensures { IfSome result (λ r. r.now ≡ self.now.history) }
    {
        self.history.record()
    }

    /// Shows that each entry of the history may follow those before it.
    pub fn law(&self)
        ensures { IsAired self.now.plan self.now.kinds self.now.history }
    {
        let _ = &self.history;
    }

    /// Opens a turn of the node, which isn't a dead replica, where it has something to take: a node that is down starts; else it gets the first of the
    /// packets of least delay that wait for it; else a tick where `tick` is set; else its own work where it `wants`. Of
    /// the packets that are left each positive delay is then one less. Where there is nothing no turn opens.
    ///
    /// With an error nothing has changed. Of an inbox of n packets it takes one in O(log n), and moves each whose delay is
    /// over to those without delay, once for each packet, in O(log n).
    pub fn begin(&mut self, node: u16, wants: bool, tick: bool) -> Result<Option<Input>, AllocError>
        requires node { node < length self.old.kinds }
        requires live { is_dead self.old.plan.dead self.old.kinds node ≡ false }
        requires closed { phase node self.old.history ≢ Busy }
        ensures answer { IfOk result (λ input. input ≡ input_of self.old node tick wants) }
        ensures entry { IfOk result (λ input. MatchOption input (self.new ≡ self.old) (λ i. self.new ≡ adds self.old (Begin node i))) }
        ensures err { OnErr result (self.new ≡ self.old) }
        ensures short { length self.new.history < 2 ^ 63 }
    {
        // This entry comes, and later the one that closes the turn.
        if self.history.len() + self.busy + 2 > MOST_ENTRIES {
            return Err(AllocError);
        }
        let at = usize::from(node);
        let phase = self.phases[at];
        let chosen = choose(&mut self.inboxes, at, phase, wants, tick)?;
        let input = match chosen {
            Some(input) => input,
            None => return Ok(None),
        };
        let noted = input.share()?;
        leave(&mut self.inboxes, at, &input);
        self.history.add(Entry::Begin { node, input: noted });
        self.phases[at] = Phase::Busy;
        self.busy += 1;
        Ok(Some(input))
    }

    /// Closes the open turn of the node with the note that it wrote, and sends its packets, in order. What becomes of each
    /// is the plan's fate of its number among the packets of its link; none goes to a dead replica, or to a number that no
    /// node has. From the first packet on for which an inbox can't grow they are lost, and the entry tells the number of
    /// those before it; they count in their links all the same.
    ///
    /// A packet costs O(log n) in an inbox of n, and the bytes of none are copied.
    pub fn end(&mut self, node: u16, note: Option<Payload>, packets: Packets)
        requires node { node < length self.old.kinds }
        requires busy { phase node self.old.history ≡ Busy }
        ensures entry { (kept : ℕ) × (kept ≤ length packets) × (self.new ≡ adds self.old (End node note packets kept)) }
        ensures short { length self.new.history < 2 ^ 63 }
    {
        let kept = send(&mut self.inboxes, &self.links, node, packets.as_slice());
        self.history.add(Entry::End {
            node,
            note,
            packets,
            kept,
        });
        self.phases[usize::from(node)] = Phase::Idle;
        self.busy -= 1;
    }

    /// Closes the open turn of the node, which went down within it. Its note may have landed. It takes no memory, and
    /// constant time.
    pub fn stop(&mut self, node: u16, landed: Option<Payload>)
        requires node { node < length self.old.kinds }
        requires busy { phase node self.old.history ≡ Busy }
        ensures entry { self.new ≡ adds self.old (Stop node landed) }
        ensures short { length self.new.history < 2 ^ 63 }
    {
        self.history.add(Entry::Stop { node, landed });
        self.phases[usize::from(node)] = Phase::Down;
        self.busy -= 1;
    }

    /// Whether each node but a dead replica is up with no open turn, and no packet waits for any node. It looks at each
    /// node.
    pub fn quiet(&self) -> bool
        ensures { IsTrue result ↔ IsQuiet self.now }
    {
        all_idle(&self.phases, &self.links) && all_empty(&self.inboxes)
    }
}
