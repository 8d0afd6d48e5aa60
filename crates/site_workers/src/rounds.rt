// Rounds of workers over one bus, a thread each.
ghost use Rattle.std.specs.Prelude.{◌≡◌, ◌<◌, ◌≤◌, ◌+◌, ◌^◌, ℕ, true, false, None, Some, [], ◌∷◌, ◌++◌, map, length, slice_index_or, vec_capacity, vec_len, IsTrue, IfOk, IfErr};
ghost use Rattle.std.specs.List.{All};
ghost use Rattle.bus_seat.specs.Views.{made_by};
ghost use Rattle.air_bus.specs.Waiting.{is_dead};
ghost use Rattle.bus_seat.specs.Seats.{fresh, fresh_seats, TakesPart};
ghost use Rattle.site_workers.specs.Heard.{IsHeard};
ghost use Rattle.site_workers.specs.Works.{WorkerView, HasMet, KeepsPlan};
ghost use Rattle.site_workers.specs.Rounds.{WentOn, AllWentOn, Walked, WentFar, Rests, AreCaused, OneHasFault, HasFault};

use crate::Worker;
use air_bus::Air;
use bus_seat::{Bus, Seat, Seen};
use lossy_link::{Kind, Plan};
use outside::Gate;
use site_node::{NodeFault, SiteNode};
use std::alloc::{AllocError, Global};
use std::sync::Wait;
use std::thread;
use std::thread::Threads;

/// What a run leaves.
#[derive(Drop)]
pub struct Ran<N: SiteNode> {
    /// The history, with the plan by which packets went.
    pub air: Air,
    /// What was seen and made with each node's seat, and with the run's, which is the last.
    pub seen: Vec<Seen>,
    /// The nodes in their order, each with the fault that ended its work, if one did.
    pub nodes: Vec<(N, Option<NodeFault>)>,
    /// Whether all nodes are at rest. Else a node has a fault.
    pub rest: bool,
}

// The memory that a run takes beside the bus.
#[derive(Drop)]
struct Room<N: SiteNode> {
    workers: Vec<Worker<N>>,
    seats: Vec<Seat>,
    nodes: Vec<(N, Option<NodeFault>)>,
    seen: Vec<Seen>,
}

/// Runs the nodes, whose numbers are their places in the list, until all are at rest or one has a fault. A dead replica takes no
/// turn, and isn't asked whether it rests. In a round each node takes its turns on a thread of its own, and sleeps where there is
/// none to take, until all sleep or one has a fault. Where a round ends quiet, each node that waits for an answer takes one Tick in
/// the next.
///
/// It takes memory for the bus and the lists before the first round, and hands the nodes back where that is wanting; in a round
/// the bus and the nodes take theirs. A run that is recorded keeps the entries of its history too.
pub fn run<R: Threads + Wait + Sync, N: SiteNode + Send + Drop, G: Gate>(
    rt: &R,
    alloc: Global,
    kinds: &[Kind],
    plan: Plan,
    nodes: Vec<N>,
    gate: &G,
    is_recorded: bool,
) -> Result<Ran<N>, (AllocError, Vec<N>)>
    requires count { length nodes.items ≡ length kinds.now }
    requires few { length kinds.now < 2 ^ 16 }
    requires numbers { (i : ℕ) (d : N) → i < length nodes.items → N.number (slice_index_or nodes.items i d) ≡ i }
    requires up { All (λ n. N.waits n ≡ false) nodes.items }
    ensures heard { IfOk result (λ r. IsHeard plan kinds.now r.air r.seen.items) }
    ensures count { IfOk result (λ r. length r.nodes.items ≡ length nodes.items) }
    // Each node's entries have led it from where it stood to where it stands.
    ensures walked { IsTrue N.tells → IfOk result (λ r. (i : ℕ) (a : N) (b : _) → i < length nodes.items →
        Walked N.leads N.phase_of N.stands N.number N.spends (slice_index_or nodes.items i a) (slice_index_or r.nodes.items i b) i r.air.history) }
    // And its disks, whatever a stop leaves of them, have gone on from where they were.
    ensures grown { IsTrue N.tells → IfOk result (λ r. (i : ℕ) (a : N) (b : _) → i < length nodes.items →
        WentFar N.leads N.phase_of N.stands N.number N.spends N.grown (slice_index_or nodes.items i a) (slice_index_or r.nodes.items i b)) }
    // It has as many disks as it had.
    ensures disks { IfOk result (λ r. (i : ℕ) (a : N) (b : _) → i < length nodes.items → N.disk_count (slice_index_or r.nodes.items i b).0 ≡ N.disk_count (slice_index_or nodes.items i a)) }
    // And they have met the stops that are planned, and no others.
    ensures plan { IsTrue N.planned → IfOk result (λ r. (i : ℕ) (a : N) (b : _) → i < length nodes.items →
        KeepsPlan N.stops_left N.faults N.waits (slice_index_or nodes.items i a) None [] (slice_index_or r.nodes.items i b).0 (slice_index_or r.nodes.items i b).1 (made_by i r.air.history)) }
    // A node has a fault where not all are at rest. Its cause is met where it is one of disks or of a log.
    ensures fault { IfOk result (λ r. r.rest ≡ false → HasFault r.nodes.items) }
    ensures caused { IfOk result (λ r. AreCaused N.disk_faults N.log_faults r.nodes.items) }
    // A node that stopped within a turn has met a fault of its disks.
    ensures met { IfOk result (λ r. (i : ℕ) (b : _) → i < length nodes.items →
        HasMet N.faults N.waits (slice_index_or r.nodes.items i b).0 (slice_index_or r.nodes.items i b).1 (made_by i r.air.history)) }
    // Where all are at rest, each that isn't a dead replica is.
    ensures rest { IfOk result (λ r. IsTrue r.rest → (i : ℕ) (b : _) → i < length nodes.items → is_dead plan.dead kinds.now i ≡ false →
        Rests N.number N.stands N.at_rest_as (slice_index_or r.nodes.items i b) (made_by i r.air.history)) }
    ensures back { IfErr result (λ e. e.1 ≡ nodes) }
{
    let (bus, mut seats, room) = match set_up(alloc, kinds, plan, is_recorded) {
        Ok(made) => made,
        Err(error) => return Err((error, nodes)),
    };
    let Room {
        workers,
        seats: mut ended,
        nodes: mut left,
        seen,
    } = room;
    let Some(mut last) = seats.pop() else {
        unreachable!()
    };
    let mut workers = hire(nodes, seats, workers);
    let rest = rounds(rt, &bus, &mut last, gate, workers.as_mut_slice());
    dismiss(workers, &mut ended, &mut left);
    ended.push_reserved(last);
    let (air, seen) = bus.close(ended, seen);
    Ok(Ran {
        air,
        seen,
        nodes: left,
        rest,
    })
}

// The bus, its seats, and the room for the lists.
fn set_up<N: SiteNode + Drop>(
    alloc: Global,
    kinds: &[Kind],
    plan: Plan,
    is_recorded: bool,
) -> Result<(Bus, Vec<Seat>, Room<N>), AllocError>
    requires few { length kinds.now < 2 ^ 16 }
    ensures air { IfOk result (λ r. r.0.base ≡ record { kinds = kinds.now; plan = plan; history = [] }) }
    ensures seats { IfOk result (λ r. r.1.items ≡ fresh_seats r.0) }
    ensures workers { IfOk result (λ r. (r.2.workers.items ≡ []) × (length kinds.now ≤ vec_capacity r.2.workers)) }
    ensures room { IfOk result (λ r. (r.2.seats.items ≡ []) × (length kinds.now + 1 ≤ vec_capacity r.2.seats)) }
    ensures nodes { IfOk result (λ r. (r.2.nodes.items ≡ []) × (length kinds.now ≤ vec_capacity r.2.nodes)) }
    ensures seen { IfOk result (λ r. (r.2.seen.items ≡ []) × (length kinds.now + 1 ≤ vec_capacity r.2.seen)) }
{
    let count = kinds.len();
    let room = Room {
        workers: Vec::with_capacity(alloc, count)?,
        seats: Vec::with_capacity(alloc, count + 1)?,
        nodes: Vec::with_capacity(alloc, count)?,
        seen: Vec::with_capacity(alloc, count + 1)?,
    };
    let air = if is_recorded {
        Air::recorded(alloc, kinds, plan)?
    } else {
        Air::new(alloc, kinds, plan)?
    };
    let (bus, seats) = Bus::new(alloc, air)?;
    Ok((bus, seats, room))
}

// A worker for each node, with its seat.
fn hire<N: SiteNode + Drop>(nodes: Vec<N>, seats: Vec<Seat>, room: Vec<Worker<N>>) -> Vec<Worker<N>>
    requires empty { room.items ≡ [] }
    requires room { length nodes.items ≤ vec_capacity room }
    requires few { length nodes.items < 2 ^ 16 }
    requires count { length seats.items ≡ length nodes.items }
    requires numbers { (i : ℕ) (d : N) → i < length nodes.items → N.number (slice_index_or nodes.items i d) ≡ i }
    requires up { All (λ n. N.waits n ≡ false) nodes.items }
    requires seats { (i : ℕ) (d : _) → i < length nodes.items → (bus : _) × (slice_index_or seats.items i d ≡ fresh bus (Some i)) }
    ensures nodes { map (λ (w : WorkerView N). w.node) result.items ≡ nodes.items }
    ensures seats { map (λ (w : WorkerView N). w.seat) result.items ≡ seats.items }
    ensures faults { All (λ (w : WorkerView N). w.fault ≡ None) result.items }
{
    let mut workers = room;
    let mut number = 0u16;
    let mut seats = seats.into_iter();
    for node in nodes {
        let Some(seat) = seats.next() else {
            unreachable!()
        };
        workers.push_reserved(Worker::new(node, number, seat));
        number += 1;
    }
    workers
}

// What workers leave.
fn dismiss<N: SiteNode + Drop>(
    workers: Vec<Worker<N>>,
    seats: &mut Vec<Seat>,
    nodes: &mut Vec<(N, Option<NodeFault>)>,
)
    requires seats { (seats.old.items ≡ []) × (length workers.items < vec_capacity seats.old) }
    requires nodes { (nodes.old.items ≡ []) × (length workers.items ≤ vec_capacity nodes.old) }
    ensures seats { (seats.new.items ≡ map (λ (w : WorkerView N). w.seat) workers.items) × (length workers.items < vec_capacity seats.new) }
    ensures nodes { nodes.new.items ≡ map (λ (w : WorkerView N). (w.node, w.fault)) workers.items }
    ensures caused { AreCaused N.disk_faults N.log_faults nodes.new.items }
    ensures met { All (λ (w : WorkerView N). HasMet N.faults N.waits w.node w.fault w.seat.mine) workers.items }
{
    for worker in workers {
        dismiss_one(worker, seats, nodes);
    }
}

fn dismiss_one<N: SiteNode + Drop>(
    worker: Worker<N>,
    seats: &mut Vec<Seat>,
    nodes: &mut Vec<(N, Option<NodeFault>)>,
)
    requires seats { vec_len seats.old < vec_capacity seats.old }
    requires nodes { vec_len nodes.old < vec_capacity nodes.old }
    ensures seats { seats.new.items ≡ seats.old.items ++ worker.seat ∷ [] }
    ensures nodes { nodes.new.items ≡ nodes.old.items ++ (worker.node, worker.fault) ∷ [] }
    ensures room { (vec_capacity seats.new ≡ vec_capacity seats.old) × (vec_capacity nodes.new ≡ vec_capacity nodes.old) }
    ensures lens { (vec_len seats.new ≡ vec_len seats.old + 1) × (vec_len nodes.new ≡ vec_len nodes.old + 1) }
    ensures caused { AreCaused N.disk_faults N.log_faults nodes.old.items → AreCaused N.disk_faults N.log_faults nodes.new.items }
    ensures met { HasMet N.faults N.waits worker.node worker.fault worker.seat.mine }
{
    let (node, seat, fault) = worker.into_parts();
    seats.push_reserved(seat);
    nodes.push_reserved((node, fault));
}

// Rounds until all are at rest, which it tells, or one has a fault. In a round all workers take turns at the same time, a thread each,
// and one with a fault ends the round for all.
fn rounds<R: Threads + Wait + Sync, N: SiteNode + Send, G: Gate>(
    rt: &R,
    bus: &Bus,
    last: &mut Seat,
    gate: &G,
    workers: &mut [Worker<N>],
) -> bool
    requires buses { All (λ (w : WorkerView N). w.seat.bus ≡ bus.now) workers.old }
    requires last { last.old.bus ≡ bus.now }
    ensures last { (last.new.bus ≡ last.old.bus) × (last.new.number ≡ last.old.number) }
    ensures went { AllWentOn N.SiteNode workers.old workers.new }
    ensures rest { IsTrue result → All (λ (w : WorkerView N). TakesPart w.seat → Rests N.number N.stands N.at_rest_as (w.node, w.fault) w.seat.mine) workers.new }
    ensures fault { result ≡ false → OneHasFault workers.new }
{
    let threads = workers.len().max(1);
    let mut tick = false;
    for _ in rt.forever() {
        bus.round().open();
        thread::for_each_mut(
            rt,
            workers,
            threads,
            &|_, one: &mut Worker<N>|
                requires { one.old.seat.bus ≡ bus.now }
                ensures { WentOn N.SiteNode one.old one.new }
            {
                bus.round().enter();
                one.ask_tick(tick);
                for _ in rt.forever() {
                    if !one.step(rt, bus, gate) {
                        break;
                    }
                }
                if one.fault().is_some() {
                    bus.round().close();
                }
            },
        );
        if has_fault(workers) {
            return false;
        }
        tick = bus.quiet(rt, last);
        if tick && all_rest(bus, workers) {
            return true;
        }
    }
    unreachable!()
}

// Whether a worker has a fault.
fn has_fault<N: SiteNode>(workers: &[Worker<N>]) -> bool
    ensures none { result ≡ false → All (λ (w : WorkerView N). w.fault ≡ None) workers.now }
    ensures one { result ≡ true → OneHasFault workers.now }
{
    for worker in workers {
        if worker.fault().is_some() {
            return true;
        }
    }
    false
}

// Whether each worker's node that takes part has nothing left to do.
fn all_rest<N: SiteNode>(bus: &Bus, workers: &[Worker<N>]) -> bool
    requires buses { All (λ (w : WorkerView N). w.seat.bus ≡ bus.now) workers.now }
    requires whole { All (λ (w : WorkerView N). w.fault ≡ None) workers.now }
    ensures { IsTrue result → All (λ (w : WorkerView N). TakesPart w.seat → Rests N.number N.stands N.at_rest_as (w.node, w.fault) w.seat.mine) workers.now }
{
    for worker in workers {
        if !worker.at_rest(bus) {
            return false;
        }
    }
    true
}
