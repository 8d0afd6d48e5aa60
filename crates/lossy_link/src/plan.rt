//! A plan, and what it does to a packet.
ghost use Rattle.std.specs.Prelude.{◌≡◌, ◌<◌, [], None, find};
ghost use Rattle.std.specs.List.{All};
ghost use Rattle.std.specs.Option.{option_copied};
ghost use Rattle.lossy_link.specs.Fates.{fate_of, fits, kind_fits, ordinal_fits};

use outside::Image;
use std::alloc::Global;
use std::marker::Model;

/// The kind of a node.
#[derive(Clone, Copy, Debug, PartialEq, Eq)]
pub enum Kind {
    Dispatcher,
    Joiner,
    Server,
    Replica,
}

/// What becomes of a packet. Of the packets that wait for it a node takes the first of least delay, and each that it takes
/// lessens the positive delays of the others by one.
#[derive(Clone, Copy, Debug, PartialEq, Eq)]
pub enum Fate {
    /// It arrives once, without delay.
    Deliver,
    /// It never arrives.
    Drop,
    /// It arrives without delay, and again with this one.
    Twice(u32),
    /// It arrives once, with this delay.
    Late(u32),
}

/// The kind of a disk, by the journal on it.
#[derive(Clone, Copy, Debug, PartialEq, Eq)]
pub enum DiskKind {
    Offset,
    Retry,
    Server,
    Replica,
    Epoch,
    Output,
}

/// The fate of some packets of the links between two kinds of node. The packets of one link, from a sender to a receiver,
/// have ordinals from 0 in the order in which they were sent.
#[derive(Clone, Copy, Debug, PartialEq, Eq)]
pub struct Rule {
    /// The kind of the sender; None fits any.
    pub from: Option<Kind>,
    /// The kind of the receiver; None fits any.
    pub to: Option<Kind>,
    /// The ordinal of the first packet that the rule fits.
    pub first: u64,
    /// How many packets of each link it fits.
    pub count: u32,
    /// From one of them to the next, in ordinals. A plan has no rule with 0 here.
    pub every: u32,
    /// What becomes of them.
    pub fate: Fate,
}

/// A changing call, a write or a sync, at which a disk fails.
#[derive(Clone, Copy, Debug, PartialEq, Eq)]
pub struct PlanStop {
    /// The kind of the disk.
    pub disk: DiskKind,
    /// The number of the disk among those of its kind, those of the first site before those of the second. None means
    /// all. A disk that a run doesn't have never stops.
    pub which: Option<u8>,
    /// The number of the call, from 0 over the run.
    pub call: u64,
    /// What the disk holds afterwards.
    pub image: Image,
}

/// What a drill does to packets, disks and replicas: at most 64 rules and 64 stops where it was read.
#[derive(Debug, Drop)]
pub struct Plan {
    rules: Vec<Rule>,
    stops: Vec<PlanStop>,
    dead: Option<u8>,
}

impl Model for Plan {
    ghost use Rattle.std.specs.Prelude.{◌<◌};
    ghost use Rattle.std.specs.List.{All};
    ghost use Rattle.lossy_link.specs.Fates.{PlanView};

    ghost Value = { PlanView };

    ghost view = { λ p. record { rules = p.rules.items; stops = p.stops.items; dead = p.dead } };

    ghost invariant = { λ p. All (λ r. 0 < r.every) p.rules.items };
}

impl Plan {
    /// A plan that leaves all packets, disks and replicas alone. It takes no memory.
    pub fn empty(alloc: Global) -> Plan
        ensures { result ≡ record { rules = []; stops = []; dead = None } }
    {
        Plan {
            rules: Vec::new(alloc),
            stops: Vec::new(alloc),
            dead: None,
        }
    }

    /// The plan of these rules and stops, in which this replica is dead, if any. It takes no memory.
    pub fn new(rules: Vec<Rule>, stops: Vec<PlanStop>, dead: Option<u8>) -> Plan
        requires { All (λ r. 0 < r.every) rules.items }
        ensures { result ≡ record { rules = rules.items; stops = stops.items; dead = dead } }
    {
        Plan { rules, stops, dead }
    }

    /// What becomes of the packet of this ordinal on a link between nodes of these kinds. It looks at each rule up to the
    /// first that fits, in constant time each, and takes no memory.
    pub fn fate(&self, from: Kind, to: Kind, ordinal: u64) -> Fate
        ensures { result ≡ fate_of self.now.rules from to ordinal }
    {
        match first_rule(&self.rules, from, to, ordinal) {
            Some(rule) => rule.fate,
            None => Fate::Deliver,
        }
    }

    /// The stops, in the plan's order. Where two name one call the first decides. Constant time, no memory.
    pub fn stops(&self) -> &[PlanStop]
        ensures { result.now ≡ self.now.stops }
    {
        &self.stops
    }

    /// The replica that takes no turn, if there is one. Constant time, no memory.
    pub fn dead(&self) -> Option<u8>
        ensures { result ≡ self.now.dead }
    {
        self.dead
    }
}

// The first rule that fits.
fn first_rule(rules: &[Rule], from: Kind, to: Kind, ordinal: u64) -> Option<&Rule>
    requires { All (λ r. 0 < r.every) rules.now }
    ensures { option_copied result ≡ find (λ r. fits r from to ordinal) rules.now }
{
    rules.iter().find(|rule| rule.fits(from, to, ordinal))
}

impl Rule {
    fn fits(&self, from: Kind, to: Kind, ordinal: u64) -> bool
        requires { 0 < self.now.every }
        ensures { result ≡ fits self.now from to ordinal }
    {
        kind_fits(self.from, from) && kind_fits(self.to, to) && self.ordinal_fits(ordinal)
    }

    fn ordinal_fits(&self, ordinal: u64) -> bool
        requires { 0 < self.now.every }
        ensures { result ≡ ordinal_fits self.now ordinal }
    {
        if ordinal < self.first {
            return false;
        }
        let after = ordinal - self.first;
        let every = u64::from(self.every);
        after % every == 0 && after / every < u64::from(self.count)
    }
}

fn kind_fits(wanted: Option<Kind>, kind: Kind) -> bool
    ensures { result ≡ kind_fits wanted kind }
{
    match wanted {
        Some(wanted) => wanted == kind,
        None => true,
    }
}
