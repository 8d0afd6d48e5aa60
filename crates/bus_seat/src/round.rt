// The round in which the nodes' threads take turns, and in which those that have none sleep.
//
// Each node has a bell. A node that finds nothing to take lies down: its bell becomes ASLEEP. Who sends rings for the
// receivers that are ASLEEP: their bells become RUNG. Both are done under the turn. Once the turn is given back, who sent
// wakes each thread whose bell is RUNG. So no wake is lost:
//
// - Of two turns one is the earlier. What was sent before the node looked was found, and who sends later finds it ASLEEP.
// - A thread parks only while its bell is ASLEEP, and the kernel looks at the bell as it lets the thread sleep. Who wakes it
//   has changed the bell before. So the wake ends the sleep, or there is none.
// - Who ends the round first says so, and then goes over the bells. A node looks whether the round has ended after its bell
//   became ASLEEP. So the node sees the end, or its bell is seen.
// - A node that lies down has no open turn and wants none. So where all lie nothing waits for any of them, and nobody is left
//   to ring. The last to lie down ends the round.
// - Where no thread can be made for a node, it comes only once another node's thread has left. So a node that lies down before
//   all have come sleeps for a while only, and then ends the round.
use air_bus::Packets;
use std::alloc::{AllocError, Global};
use std::sync::Wait;
use std::sync::atomic::{AtomicBool, AtomicU64, Ordering};
use std::time::Duration;

// What a bell says of its node.
const AWAKE: u64 = 0;

const ASLEEP: u64 = 1;

const RUNG: u64 = 2;

// How many milliseconds a node sleeps for nodes that haven't come.
const PATIENCE: u64 = 100;

/// In a round each node's thread takes turns, and sleeps where there is none to take, until all sleep.
#[derive(Drop)]
pub struct Round {
    bells: Vec<AtomicU64>,
    // How many nodes take no part in the run.
    left_out: u64,
    // How many nodes are asleep, with those that take no part.
    asleep: AtomicU64,
    // How many threads have come.
    come: AtomicU64,
    open: AtomicBool,
}

impl Round {
    /// No round is open yet.
    pub(crate) fn new(alloc: Global, nodes: usize, left_out: usize) -> Result<Round, AllocError> {
        let mut bells = Vec::with_capacity(alloc, nodes)?;
        for _ in 0..nodes {
            bells.push(AtomicU64::new(AWAKE))?;
        }
        Ok(Round {
            bells,
            left_out: left_out as u64,
            asleep: AtomicU64::new(0),
            come: AtomicU64::new(0),
            open: AtomicBool::new(false),
        })
    }

    /// Opens a round, when no thread is in one. Each node's thread is to come by `enter`.
    pub fn open(&self) {
        for bell in &self.bells {
            bell.store(AWAKE, Ordering::SeqCst);
        }
        self.asleep.store(self.left_out, Ordering::SeqCst);
        self.come.store(0, Ordering::SeqCst);
        self.open.store(true, Ordering::SeqCst);
    }

    /// A node's thread comes to the round, also where the node takes no part.
    pub fn enter(&self) {
        self.come.fetch_add(1, Ordering::SeqCst);
    }

    /// Ends the round, and wakes all who sleep.
    pub fn close(&self) {
        self.open.store(false, Ordering::SeqCst);
        for bell in &self.bells {
            if change(bell, ASLEEP, AWAKE) {
                bell.wake_one();
            }
        }
    }

    /// The node lies down: it found nothing to take. Its thread has the turn.
    pub(crate) fn lie_down(&self, node: u16) {
        let Some(bell) = self.bells.get(usize::from(node)) else {
            return;
        };
        bell.store(ASLEEP, Ordering::SeqCst);
        self.asleep.fetch_add(1, Ordering::SeqCst);
        if self.is_all(&self.asleep) {
            self.close();
        }
    }

    /// Rings for those of the packets' receivers who sleep. The thread has the turn.
    pub(crate) fn ring(&self, packets: &Packets) {
        for (receiver, _) in packets.as_slice() {
            if let Some(bell) = self.bells.get(usize::from(*receiver)) {
                if change(bell, ASLEEP, RUNG) {
                    self.asleep.fetch_sub(1, Ordering::SeqCst);
                }
            }
        }
    }

    /// Wakes each node that was rung for.
    pub(crate) fn wake_rung(&self) {
        for bell in &self.bells {
            if bell.load(Ordering::SeqCst) == RUNG && change(bell, RUNG, AWAKE) {
                bell.wake_one();
            }
        }
    }

    /// Sleeps until the node is rung for, or the round has ended. Says whether the node is to look again.
    pub(crate) fn sleep<R: Wait>(&self, rt: &R, node: u16) -> bool {
        let Some(bell) = self.bells.get(usize::from(node)) else {
            return false;
        };
        for _ in rt.forever() {
            if !self.open.load(Ordering::SeqCst) {
                return false;
            }
            if bell.load(Ordering::SeqCst) != ASLEEP {
                return true;
            }
            self.park(rt, bell);
        }
        unreachable!()
    }

    fn park<R: Wait>(&self, rt: &R, bell: &AtomicU64) {
        if self.is_all(&self.come) {
            bell.park(rt, ASLEEP as u32);
            return;
        }
        bell.park_timeout(rt, ASLEEP as u32, Duration::from_millis(PATIENCE));
        if bell.load(Ordering::SeqCst) == ASLEEP && !self.is_all(&self.come) {
            self.close();
        }
    }

    fn is_all(&self, count: &AtomicU64) -> bool {
        count.load(Ordering::SeqCst) == self.bells.len() as u64
    }
}

fn change(bell: &AtomicU64, from: u64, to: u64) -> bool {
    bell.compare_exchange(from, to, Ordering::SeqCst, Ordering::SeqCst)
        .is_ok()
}
