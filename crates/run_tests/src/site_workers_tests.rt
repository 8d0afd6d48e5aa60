// Workers whose nodes do what a test tells them.
ghost use Rattle.std.specs.Prelude.{◌≡◌, ◌+◌, false, Some, IfSome, IfOk, IfErr, OnOk, length};
ghost use Rattle.bus_seat.specs.Views.{count};
ghost use Rattle.bus_seat.specs.Seats.{BusId, fresh, fresh_seats};
ghost use Rattle.run_tests.specs.Puppets.{AreReady};

use air_bus::{Air, Input, Packets, Payload};
use bus_seat::{Bus, Seat};
use lossy_link::{Kind, Plan};
use outside::{Gate, OpenGate};
use site_node::{Done, NodeFault, SiteNode};
use site_workers::{OneOf, Ran, Worker, run};
use std::alloc::Global;
use std::sync::Wait;
use std::test::Fail;
use std::thread::Threads;

// When the node stops.
#[derive(Clone, Copy, PartialEq, Eq)]
enum Stops {
    Never,
    At(u32),
    Always,
}

// A node that wants some turns, stops in some, and has memory for so many. To each packet it sends one on, so often; node 0 sends
// one at its start, too.
#[derive(Drop)]
struct Puppet {
    number: u16,
    wanted: u32,
    stops: Stops,
    memory: u32,
    next: u16,
    sends: u32,
    turns: u32,
    starts: u32,
    waits: bool,
    faults: u64,
    alloc: Global,
}

impl Puppet {
    fn new(alloc: Global, number: u16, wanted: u32, stops: Stops, memory: u32) -> Puppet
        ensures number { result.number ≡ number }
        ensures up { result.waits ≡ false }
    {
        Puppet {
            number,
            wanted,
            stops,
            memory,
            next: 0,
            sends: 0,
            turns: 0,
            starts: 0,
            waits: false,
            faults: 0,
            alloc,
        }
    }

    // What it sends in a turn.
    fn packets(&self, is_start: bool) -> Result<Packets, NodeFault>
        ensures { IfErr result (λ e. e ≡ NodeFault.Memory) }
    {
        let mut packets = Packets::new(self.alloc);
        if self.sends > 0 && (self.number == 0 || !is_start) {
            let bytes = Payload::new(Vec::new(self.alloc)).map_err(|_| NodeFault::Memory)?;
            packets
                .push(self.next, bytes)
                .map_err(|_| NodeFault::Memory)?;
        }
        Ok(packets)
    }
}

impl SiteNode for Puppet {
    ghost use Rattle.std.specs.Prelude.{◌≡◌, true, false, None};
    ghost use Rattle.run_tests.specs.Puppets.{moves, begins_so, phases_so};
    ghost use Rattle.air_bus.specs.declared.entry.Phase.{Phase};

    ghost tells = { true };

    ghost planned = { false };

    ghost State = { Phase };

    ghost leads = { moves };

    ghost phase_of = { λ s. s };

    ghost wants_as = { λ s b. Unit {0} };

    ghost unfinished_as = { λ s b. Unit {0} };

    ghost at_rest_as = { λ s b. Unit {0} };

    ghost spends = { λ s i. None };

    ghost Contents = { Unit {0} };

    ghost keeps = { λ s c. Unit {0} };

    ghost number = { λ node. node.number };

    ghost disk_count = { λ _. 0 };

    ghost waits = { λ node. node.waits };

    ghost stands = { λ node s. Unit {0} };

    ghost image = { λ node c. Unit {0} };

    ghost since = { λ old new c. Unit {0} };

    ghost grown = { λ old new. Unit {0} };

    ghost faults = { λ node. node.faults };

    ghost disk_faults = { λ node _. node.faults };

    ghost stops_left = { λ node most. Unit {0} };

    ghost log_faults = { λ node. 0 };

    ghost begins = { begins_so };

    ghost phases = { phases_so };

    ghost images = { λ node s tells at c here. tt };

    fn wants(&self) -> bool {
        self.wanted > 0
    }

    fn unfinished(&self) -> bool {
        false
    }

    fn at_rest(&self) -> bool {
        self.wanted == 0
    }

    fn turn<G: Gate>(&mut self, input: &Input, _gate: &G) -> Result<Done, NodeFault> {
        if self.memory == 0 {
            return Err(NodeFault::Memory);
        }
        self.memory = self.memory.saturating_sub(1);
        self.turns = self.turns.saturating_add(1);
        if self.stops == Stops::Always || self.stops == Stops::At(self.turns) {
            self.waits = true;
            self.faults = self.faults.saturating_add(1);
            return Err(NodeFault::Stopped);
        }
        let is_start = matches!(input, Input::Start);
        let packets = self.packets(is_start)?;
        if !packets.as_slice().is_empty() {
            self.sends = self.sends.saturating_sub(1);
        }
        if is_start {
            self.starts = self.starts.saturating_add(1);
        } else {
            self.wanted = self.wanted.saturating_sub(1);
        }
        Ok(Done {
            note: None,
            packets,
        })
    }

    fn restart(&mut self) -> Result<Option<Payload>, NodeFault> {
        self.waits = false;
        Ok(None)
    }
}

// The seat of a bus's only node.
fn only_seat(seats: Vec<Seat>) -> Option<Seat>
    ensures { (bus : BusId) → seats.items ≡ fresh_seats bus → count bus.base ≡ 1 → IfSome result (λ seat. seat ≡ fresh bus (Some 0)) }
{
    let mut seats = seats;
    seats.pop()?;
    seats.pop()
}

// The seat of the second of two nodes.
fn second_seat(seats: Vec<Seat>) -> Option<Seat>
    ensures { (bus : BusId) → seats.items ≡ fresh_seats bus → count bus.base ≡ 2 → IfSome result (λ seat. seat ≡ fresh bus (Some 1)) }
{
    let mut seats = seats;
    seats.pop()?;
    seats.pop()
}

// Takes turns until there is none to take.
fn work<R: Wait>(rt: &R, bus: &Bus, worker: &mut Worker<Puppet>)
    requires { worker.old.seat.bus ≡ bus.now }
    ensures { worker.new.seat.bus ≡ worker.old.seat.bus }
{
    for _ in rt.forever() {
        if !worker.step(rt, bus, &OpenGate) {
            return;
        }
    }
}

// How many turns and starts the node took, and its fault, where it wants three turns.
fn worked<R: Wait>(
    rt: &R,
    alloc: Global,
    stops: Stops,
    memory: u32,
) -> Result<(u32, u32, Option<NodeFault>), Fail> {
    let air = Air::new(alloc, &[Kind::Joiner], Plan::empty(alloc))?;
    let (bus, seats) = Bus::new(alloc, air)?;
    let Some(seat) = only_seat(seats) else {
        return Err("seat".into());
    };
    let mut worker = Worker::new(Puppet::new(alloc, 0, 3, stops, memory), 0, seat);
    worker.ask_tick(true);
    work(rt, &bus, &mut worker);
    let (node, _, fault) = worker.into_parts();
    Ok((node.turns, node.starts, fault))
}

#[test]
fn a_worker_takes_turns_until_there_is_none(rt: HostRuntime) -> Result<(), Fail> {
    let alloc = rt.alloc();
    // A start and three turns; where one of these stops, it starts again and takes it again.
    assert!(rt; worked(&rt, alloc, Stops::Never, 99)? == (4, 1, None));
    assert!(rt; worked(&rt, alloc, Stops::At(1), 99)? == (5, 1, None));
    assert!(rt; worked(&rt, alloc, Stops::At(3), 99)? == (6, 2, None));
    // The eighth stop is one too many.
    assert!(rt; worked(&rt, alloc, Stops::Always, 99)? == (8, 0, Some(NodeFault::Stopped)));
    assert!(rt; worked(&rt, alloc, Stops::Never, 0)? == (0, 0, Some(NodeFault::Memory)));
    Ok(())
}

// One node more, with the next number.
fn add<N: SiteNode + Drop>(nodes: &mut Vec<N>, node: N) -> Result<(), Fail>
    requires number { N.number node ≡ length nodes.old.items }
    requires up { N.waits node ≡ false }
    requires ready { AreReady N.number N.waits nodes.old.items }
    ensures ready { OnOk result (AreReady N.number N.waits nodes.new.items) }
    ensures count { OnOk result (length nodes.new.items ≡ length nodes.old.items + 1) }
{
    nodes.push(node)?;
    Ok(())
}

type Node = OneOf<Puppet, Puppet, Puppet, Puppet>;

// How many turns and starts each of two nodes took, with its fault.
type Told = [(u32, u32, Option<NodeFault>); 2];

fn told(ran: &Ran<Node>) -> Told {
    let mut told = [(0, 0, None); 2];
    let mut at = 0;
    for (node, fault) in &ran.nodes {
        let puppet = match node {
            OneOf::First(puppet) => puppet,
            OneOf::Second(puppet) => puppet,
            OneOf::Third(puppet) => puppet,
            OneOf::Fourth(puppet) => puppet,
        };
        if at < 2 {
            told[at] = (puppet.turns, puppet.starts, *fault);
            at += 1;
        }
    }
    told
}

// Whether two nodes, of the first kind and of the second, came to rest, how many seats were seen, and what they took. The first wants
// three turns.
fn ran_two<R: Threads + Wait + Sync>(
    rt: &R,
    alloc: Global,
    second: Puppet,
) -> Result<(bool, usize, Told), Fail>
    requires number { second.number ≡ 1 }
    requires up { second.waits ≡ false }
{
    let mut nodes: Vec<Node> = Vec::new(alloc);
    add(
        &mut nodes,
        OneOf::First(Puppet::new(alloc, 0, 3, Stops::Never, 99)),
    )?;
    add(&mut nodes, OneOf::Second(second))?;
    let kinds = [Kind::Joiner, Kind::Server];
    match run(
        rt,
        alloc,
        &kinds,
        Plan::empty(alloc),
        nodes,
        &OpenGate,
        false,
    ) {
        Ok(ran) => Ok((ran.rest, ran.seen.len(), told(&ran))),
        Err(_) => Err("memory".into()),
    }
}

#[test]
fn nodes_run_on_threads_until_all_rest(rt: HostRuntime) -> Result<(), Fail> {
    let second = Puppet::new(rt.alloc(), 1, 5, Stops::At(3), 99);
    let (rest, seats, told) = ran_two(&rt, rt.alloc(), second)?;
    assert!(rt; rest && seats == 3 && told == [(4, 1, None), (8, 2, None)]);
    Ok(())
}

#[test]
fn a_fault_ends_the_rounds(rt: HostRuntime) -> Result<(), Fail> {
    let second = Puppet::new(rt.alloc(), 1, 5, Stops::Never, 0);
    let (rest, seats, told) = ran_two(&rt, rt.alloc(), second)?;
    assert!(rt; !rest && seats == 3 && told == [(4, 1, None), (0, 0, Some(NodeFault::Memory))]);
    Ok(())
}

// The second node is a dead replica, and the others hand a packet round.
const KINDS: [Kind; 4] = [Kind::Joiner, Kind::Replica, Kind::Joiner, Kind::Joiner];

const NEXT: [u16; 4] = [2, 0, 3, 0];

// Nodes that hand a packet on so often each, one packet more than node 0 takes. Then they have no memory, where they fail.
fn round(alloc: Global, hops: u32, fails: bool) -> Result<Vec<Puppet>, Fail>
    ensures ready { IfOk result (λ nodes. AreReady (λ (n : _). n.number) (λ n. n.waits) nodes.items) }
    ensures count { IfOk result (λ nodes. length nodes.items ≡ 4) }
{
    let memory = if fails {
        hops.saturating_add(1)
    } else {
        u32::MAX
    };
    let mut nodes = Vec::new(alloc);
    for number in 0..4u16 {
        let mut node = Puppet::new(alloc, number, 0, Stops::Never, memory);
        node.next = NEXT[usize::from(number)];
        node.sends = hops.saturating_add(u32::from(number == 0));
        add(&mut nodes, node)?;
    }
    Ok(nodes)
}

// Whether a run in which each node hands the packet on so often came to rest, and how many turns its nodes took.
fn went<R: Threads + Wait + Sync>(
    rt: &R,
    alloc: Global,
    hops: u32,
    fails: bool,
) -> Result<(bool, u32), Fail> {
    let Ok(plan) = Plan::read(alloc, b"{\"dead\":[0]}") else {
        return Err("plan".into());
    };
    let nodes = round(alloc, hops, fails)?;
    let Ok(ran) = run(rt, alloc, &KINDS, plan, nodes, &OpenGate, false) else {
        return Err("memory".into());
    };
    let mut turns = 0u32;
    for (node, _) in &ran.nodes {
        turns = turns.saturating_add(node.turns);
    }
    Ok((ran.rest, turns))
}

// Three nodes start. Each hands the packet on so often, and one more turn takes it and sends nothing, or fails.
#[test]
fn a_packet_goes_round(rt: HostRuntime) -> Result<(), Fail> {
    let alloc = rt.alloc();
    assert!(rt; went(&rt, alloc, 2_000, false)? == (true, 6_004));
    // Many short runs, since a wake would be missed where a round begins or ends.
    for times in 0..200u32 {
        let hops = times % 8;
        assert!(rt;
            went(&rt, alloc, hops, false)? == (true, 4 + 3 * hops),
            "{hops}"
        );
        assert!(rt;
            went(&rt, alloc, hops, true)? == (false, 3 + 3 * hops),
            "{hops}"
        );
    }
    Ok(())
}

// A thread that can't be made is like one that never comes.
#[test]
fn a_round_to_which_not_all_come_ends(rt: HostRuntime) -> Result<(), Fail> {
    let alloc = rt.alloc();
    let air = Air::new(alloc, &[Kind::Joiner, Kind::Joiner], Plan::empty(alloc))?;
    let (bus, seats) = Bus::new(alloc, air)?;
    let Some(seat) = second_seat(seats) else {
        return Err("seat".into());
    };
    let mut worker = Worker::new(Puppet::new(alloc, 1, 0, Stops::Never, 99), 1, seat);
    bus.round().open();
    bus.round().enter();
    work(&rt, &bus, &mut worker);
    assert!(rt; worker.fault().is_none() && worker.at_rest(&bus));
    Ok(())
}
