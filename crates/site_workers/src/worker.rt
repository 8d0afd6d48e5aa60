// A node with its seat.
ghost use Rattle.std.specs.Prelude.{◌≡◌, ◌<◌, true, false, nat_lt, if◌then◌else◌, Some, None, IsTrue};
ghost use Rattle.air_bus.specs.declared.entry.Phase.TheVariants.{Idle};
ghost use Rattle.air_bus.specs.History.{phase};
ghost use Rattle.bus_seat.specs.Seats.{TakesPart};
ghost use Rattle.site_workers.specs.Works.{IsIdle, IsCaused, HasMet, stop_count};

use air_bus::Input;
use bus_seat::{Bus, Seat};
use outside::{Gate, Point};
use site_node::{Done, NodeFault, SiteNode};
use std::alloc::AllocError;
use std::marker::Model;
use std::sync::Wait;

// How often a node may stop in one run. The last of these stops ends its work.
const STOPS: u32 = 8;

/// A node with its seat. It takes the node's turns until it has a fault, and then no more. Contracts see the node, what was seen
/// and made with the seat, and the fault.
#[derive(Drop)]
pub struct Worker<N: SiteNode> {
    node: N,
    number: u16,
    seat: Seat,
    // Whether it asks for a Tick where no packet waits.
    tick: bool,
    // How often the node has stopped.
    stops: u32,
    // Whether its node is up.
    up: bool,
    fault: Option<NodeFault>,
    ghost whose: { seat.number ≡ Some (N.number node) },
    ghost idle: { fault ≡ None → IsIdle (N.number node) (N.waits node) seat },
    ghost is_up: { fault ≡ None → up ≡ true → phase (N.number node) seat.mine ≡ Idle },
    ghost caused: { IsCaused N.disk_faults N.log_faults node fault },
    ghost counted: { fault ≡ None → (stops ≡ stop_count seat.mine) × (stops < 8) },
    ghost met: { HasMet N.faults N.waits node fault seat.mine },
}

impl<N: SiteNode> Model for Worker<N> {
    ghost use Rattle.site_workers.specs.Works.{WorkerView};

    ghost Value = { WorkerView N };

    ghost view = { λ w. record { node = w.node; seat = w.seat; fault = w.fault } };
}

impl<N: SiteNode> Worker<N> {
    ghost use Rattle.std.specs.Prelude.{◌≡◌, [], None, IsTrue};
    ghost use Rattle.site_workers.specs.Works.{IsCaused, HasMet};
    ghost use Rattle.site_workers.specs.Rounds.{WentOn};

    /// A worker of a node that was just opened.
    pub fn new(node: N, number: u16, seat: Seat) -> Worker<N>
        requires number { N.number node ≡ number }
        requires whose { seat.number ≡ Some number }
        requires fresh { seat.mine ≡ [] }
        requires up { N.waits node ≡ false }
        ensures node { result.node ≡ node }
        ensures seat { result.seat ≡ seat }
        ensures fault { result.fault ≡ None }
    {
        Worker {
            node,
            number,
            seat,
            tick: false,
            stops: 0,
            up: false,
            fault: None,
        }
    }

    /// The node, its seat, and the fault that ended its work, if one did.
    pub fn into_parts(self) -> (N, Seat, Option<NodeFault>)
        ensures node { result.0 ≡ self.node }
        ensures seat { result.1 ≡ self.seat }
        ensures fault { result.2 ≡ self.fault }
        ensures caused { IsCaused N.disk_faults N.log_faults result.0 result.2 }
        ensures met { HasMet N.faults N.waits result.0 result.2 result.1.mine }
    {
        let Worker {
            node,
            seat,
            fault,
            ..
        } = self;
        (node, seat, fault)
    }

    /// The fault that ended its work, if one did.
    pub fn fault(&self) -> Option<NodeFault>
        ensures { result ≡ self.now.fault }
    {
        self.fault
    }

    /// Whether its node takes no part, or is up and has nothing left to do.
    pub fn at_rest(&self, bus: &Bus) -> bool
        requires bus { self.now.seat.bus ≡ bus.now }
        requires fault { self.now.fault ≡ None }
        ensures up { IsTrue result → TakesPart self.now.seat → phase (N.number self.now.node) self.now.seat.mine ≡ Idle }
        ensures rests { IsTrue result → TakesPart self.now.seat → (s : N.State) → N.stands self.now.node s → N.at_rest_as s true }
    {
        !bus.takes_part(&self.seat) || self.up && self.node.at_rest()
    }

    /// Where a Tick is due it asks for one, if the node waits for answers: it gets it where no packet waits.
    pub fn ask_tick(&mut self, is_due: bool)
        ensures { self.new ≡ self.old }
    {
        if is_due {
            self.tick = self.node.unfinished();
        }
    }

    /// Takes a turn of the node, if it takes part and there is one to take, and says whether another may follow. Where its disks tell what they
    /// hold, the entries that it adds lead on from where the node stood.
    pub fn step<R: Wait, G: Gate>(&mut self, rt: &R, bus: &Bus, gate: &G) -> bool
        requires { self.old.seat.bus ≡ bus.now }
        ensures { WentOn N.SiteNode self.old self.new }
    {
        if self.fault.is_some() {
            return false;
        }
        if !bus.takes_part(&self.seat) {
            return false;
        }
        let wants = self.node.wants();
        let input = match bus.begin(rt, &mut self.seat, wants, self.tick) {
            Ok(Some(input)) => input,
            Ok(None) => return false,
            Err(AllocError) => {
                self.fault = Some(NodeFault::Memory);
                return false;
            }
        };
        if matches!(input, Input::Tick) {
            self.tick = false;
        }
        match self.node.turn(&input, gate) {
            Ok(Done { note, packets }) => {
                bus.end(rt, &mut self.seat, note, packets);
                self.up = true;
                gate.pass(Point::AfterEnd, self.number);
                true
            }
            Err(NodeFault::Stopped) => match self.node.restart() {
                Ok(landed) => {
                    bus.stop(rt, &mut self.seat, landed);
                    self.up = false;
                    self.stops = self.stops.saturating_add(1);
                    self.fault = too_often(self.stops);
                    true
                }
                Err(fault) => {
                    self.fault = Some(fault);
                    false
                }
            },
            Err(fault) => {
                self.fault = Some(fault);
                false
            }
        }
    }
}

// The fault of a node that stopped so often, if that was too often.
fn too_often(stops: u32) -> Option<NodeFault>
    ensures { result ≡ if nat_lt stops 8 then None else Some NodeFault.Stopped }
{
    if stops < STOPS {
        None
    } else {
        Some(NodeFault::Stopped)
    }
}
