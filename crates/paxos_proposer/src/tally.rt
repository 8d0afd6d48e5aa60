// Which replicas have answered.

ghost use Rattle.std.specs.Prelude.{◌≡◌, ◌≤◌, true, IsTrue, length, set, count_by};
ghost use Rattle.paxos_defs.specs.Attempts.{nobody, is_most};
ghost use Rattle.paxos_defs.specs.Attempts as attempts;
ghost use Rattle.paxos_defs.specs.declared.TheConstants.{MOST_REPLICAS};

use ballot_core::is_majority;
use paxos_defs::MOST_REPLICAS;
use std::marker::Model;

// A mark for each of the replicas.
#[derive(Debug, Drop)]
pub struct Tally {
    replicas: u8,
    heard: [bool; MOST_REPLICAS as usize],
}

impl Model for Tally {
    ghost use Rattle.std.specs.Prelude.{◌≤◌, List, Bool, take};
    ghost use Rattle.paxos_defs.specs.declared.TheConstants.{MOST_REPLICAS};

    ghost Value = { List Bool };

    ghost view = { λ t. take t.replicas t.heard };

    ghost invariant = { λ t. t.replicas ≤ MOST_REPLICAS };
}

impl Tally {
    // Nobody has answered.
    pub fn new(replicas: u8) -> Tally
        requires { replicas ≤ MOST_REPLICAS }
        ensures { result ≡ nobody replicas }
    {
        Tally {
            replicas,
            heard: [false; MOST_REPLICAS as usize],
        }
    }

    // Whether the replica is a member that hasn't answered.
    pub fn is_new(&self, from: u8) -> bool
        ensures { result ≡ attempts.is_new self.now from }
    {
        from < self.replicas && !self.heard[from as usize]
    }

    // Whether with this replica more than half have answered.
    pub fn is_most_with(&self, from: u8) -> bool
        requires { IsTrue (attempts.is_new self.now from) }
        ensures { result ≡ is_most (set self.now from true) }
    {
        let mut answered = self.heard;
        answered[from as usize] = true;
        let count = count_marked(&answered[..self.replicas as usize]);
        is_majority(count as u32, self.replicas as u32)
    }

    // This replica has answered.
    pub fn mark(&mut self, from: u8)
        requires { IsTrue (attempts.is_new self.old from) }
        ensures { self.new ≡ set self.old from true }
    {
        self.heard[from as usize] = true;
    }

    // Nobody has answered any more.
    pub fn clear(&mut self)
        ensures { self.new ≡ nobody (length self.old) }
    {
        self.heard = [false; MOST_REPLICAS as usize];
    }
}

fn count_marked(marks: &[bool]) -> usize
    ensures counted { result ≡ count_by (λ m. m) marks.now }
    ensures bound { result ≤ length marks.now }
{
    marks.iter().filter(|m| **m).count()
}
