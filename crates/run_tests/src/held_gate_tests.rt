// Threads that pass the gate as nodes.
use mem_outside::{HeldGate, Hold, LOOKS};
use outside::Gate;
use outside::Point::{AfterEnd, BeforeAppend};
use std::sync::atomic::AtomicBool;
use std::sync::atomic::Ordering::SeqCst;
use std::test::Fail;
use std::thread;
use std::thread::Threads;

// Node 8 waits at its append until node 7 has come to its own, which waits there until node 8 has ended its turn.
const CROSSING: [Hold; 2] = [
    Hold {
        node: 8,
        point: BeforeAppend,
        until_node: 7,
        until_point: BeforeAppend,
    },
    Hold {
        node: 7,
        point: BeforeAppend,
        until_node: 8,
        until_point: AfterEnd,
    },
];

// A node with what its thread saw.
#[derive(Drop)]
struct Puppet {
    number: u16,
    // Whether the other node had come before this one went on from its append.
    met: bool,
}

const PUPPETS: [Puppet; 2] = [
    Puppet {
        number: 7,
        met: false,
    },
    Puppet {
        number: 8,
        met: false,
    },
];

// How far the nodes have come, as they tell it themselves.
#[derive(Drop)]
struct Told {
    seven_came: AtomicBool,
    eight_ends: AtomicBool,
}

// Takes two turns as the node.
fn turns<G: Gate>(gate: &G, told: &Told, puppet: &mut Puppet) {
    if puppet.number == 7 {
        told.seven_came.store(true, SeqCst);
        gate.pass(BeforeAppend, 7);
        puppet.met = told.eight_ends.load(SeqCst);
        gate.pass(AfterEnd, 7);
    } else {
        gate.pass(BeforeAppend, 8);
        puppet.met = told.seven_came.load(SeqCst);
        told.eight_ends.store(true, SeqCst);
        gate.pass(AfterEnd, 8);
    }
    gate.pass(BeforeAppend, puppet.number);
    gate.pass(AfterEnd, puppet.number);
}

// Runs both nodes, a thread each, and says whether each met the other.
fn cross<R: Threads + Sync, G: Gate>(rt: &R, gate: &G) -> bool {
    let told = Told {
        seven_came: AtomicBool::new(false),
        eight_ends: AtomicBool::new(false),
    };
    let mut puppets = PUPPETS;
    thread::for_each_mut(rt, &mut puppets, 2, &|_, puppet| turns(gate, &told, puppet));
    puppets[0].met && puppets[1].met
}

#[test]
fn nodes_on_two_threads_meet(rt: HostRuntime) -> Result<(), Fail> {
    for _ in 0..20 {
        let gate = HeldGate::new(CROSSING, LOOKS);
        assert!(rt; cross(&rt, &gate));
        assert!(rt; !gate.reached_limit());
    }
    Ok(())
}
