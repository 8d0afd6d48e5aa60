// A kind of node.
ghost use Rattle.std.specs.Prelude.{IsTrue, ◌≡◌, ◌≢◌, ◌≤◌, length, if◌then◌else◌, IsErrOf, ℕ, Bool, true, false, Option, Some, None, IfOk, IfErr, OnOk, OnErr};
ghost use Rattle.outside.specs.Faults.{Rose, tallied};
ghost use Rattle.air_bus.specs.declared.entry.Entry.{Entry};
ghost use Rattle.air_bus.specs.declared.entry.Entry.TheVariants.{Begin, End, Stop};
ghost use Rattle.air_bus.specs.declared.entry.Phase.{Phase};
ghost use Rattle.air_bus.specs.declared.entry.Phase.TheVariants.{Busy};
ghost use Rattle.air_bus.specs.declared.entry.Input.{Input};
ghost use Rattle.air_bus.specs.Copies.{Copy};
ghost use Rattle.air_bus.specs.History.{next_input, phase_after};
ghost use Rattle.gate_journal.specs.Fault.{is_of_disk};
ghost use Rattle.gate_journal.specs.declared.reading.JournalFault.TheVariants as journal;
ghost use Rattle.site_node.specs.declared.kind.NodeDisk.{NodeDisk as Which};
ghost use Rattle.site_node.specs.Faults.{was_stopped, was_shut_out, is_read_fault, fault_told, refused_as, MeetsStops, HasFailed, IsOfTurn, IsOfRestart, IsUndamaged, IsWhole};

use air_bus::{Input, Packets, Payload};
use gate_journal::JournalFault;
use outside::Gate;
use std::alloc::AllocError;

/// One of a node's disks, of which it has one or two.
#[derive(Clone, Copy, Debug, PartialEq, Eq)]
pub enum NodeDisk {
    First,
    Second,
}

/// Why a turn isn't done, or a node isn't up again. After `Read`, `Spent` and `Memory` of a turn the node and its disks are
/// as they were, and its turn is open still.
#[derive(Clone, Copy, Debug, PartialEq, Eq)]
pub enum NodeFault {
    /// A disk failed in this turn: never from `restart`. The node is down and waits for `restart`.
    Stopped,
    /// This disk couldn't be opened again after a stop: from `restart` alone.
    Disk(NodeDisk),
    /// A disk doesn't hold what this node's journals are: from `restart` alone.
    Damaged { disk: NodeDisk, at: u64 },
    /// A log couldn't be read.
    Read,
    /// The node is in its last epoch, which is this one.
    Spent(u32),
    /// There was no memory. No clause says when.
    Memory,
}

impl From<AllocError> for NodeFault {
    ghost use Rattle.std.specs.Prelude.{◌≡◌};
    ghost use Rattle.site_node.specs.declared.kind.NodeFault.TheVariants.{Memory};

    ghost from_gives = { λ _ e. e ≡ Memory };

    fn from(_: AllocError) -> NodeFault {
        NodeFault::Memory
    }
}

/// A turn that is done: the record that it wrote, which is on its disk, and the packets to send.
#[derive(Drop)]
pub struct Done {
    pub note: Option<Payload>,
    pub packets: Packets,
}

/// What a restart tells of the note that was in doubt: the note, where it landed.
pub fn told_note(landed: bool, note: Option<Payload>) -> Option<Payload>
    ensures { result ≡ (if landed then note else None) }
{
    if landed { note } else { None }
}

/// Why a journal of this disk isn't opened again.
pub fn fault_of(disk: NodeDisk, fault: JournalFault) -> NodeFault
    ensures told { result ≡ fault_told disk fault }
    ensures kind { IsOfRestart result }
    ensures whole { IsUndamaged fault → IsWhole result }
    ensures shut { is_of_disk fault ≡ was_shut_out (refused_as result) }
    ensures failed { (before after : Which → ℕ) → (fault ≡ journal.Disk → Rose (before disk) (after disk)) → HasFailed before after result }
{
    match fault {
        JournalFault::Damaged { at } => NodeFault::Damaged { disk, at },
        JournalFault::Disk => NodeFault::Disk(disk),
        JournalFault::Memory => NodeFault::Memory,
    }
}

/// A kind of node. What its entries on the bus say is what its node is.
///
/// What is said of the records, and of bytes, is said where its disks and its log tell what they hold.
pub trait SiteNode {
    /// Whether its disks and its log tell what they hold.
    ghost tells: { Bool };

    /// Whether its disks meet the stops that are planned for them, and no other faults.
    ghost planned: { Bool };

    /// A state that its entries lead through: the records on its disks, what it knows, and its open turn.
    ghost State: { Type 0 };

    /// Whether the entry may lead from one state to another.
    ghost leads: { State → Entry → State → Type 0 };

    /// Where a state stands on the bus.
    ghost phase_of: { State → Phase };

    /// What a node that is up and stands at the state answers to each of its three questions.
    ghost wants_as: { State → Bool → Type 0 };

    ghost unfinished_as: { State → Bool → Type 0 };

    ghost at_rest_as: { State → Bool → Type 0 };

    /// The kept epoch where the input would raise it past the last one.
    ghost spends: { State → Input → Option ℕ };

    /// The bytes of its disks.
    ghost Contents: { Type 0 };

    /// Whether disks with these bytes hold the records of the state, or those and the note of its open turn.
    ghost keeps: { State → Contents → Type 0 };

    /// Its number on the bus.
    ghost number: { Self → ℕ };

    /// How many disks it has.
    ghost disk_count: { Self → ℕ };

    /// Whether it waits for `restart`.
    ghost waits: { Self → Bool };

    /// Whether the node and its disks stand at the state.
    ghost stands: { Self → State → Type 0 };

    /// What a stop now may leave of its disks.
    ghost image: { Self → Contents → Type 0 };

    /// What a stop may have left of its disks at some moment from the first on, up to the second.
    ghost since: { Self → Self → Contents → Type 0 };

    /// Whether each disk's records, whatever a stop leaves of it, begin with those of what a stop might have left before.
    ghost grown: { Self → Self → Type 0 };

    /// How many faults its disks have met, all in all.
    ghost faults: { Self → ℕ };

    /// How many one of them has met.
    ghost disk_faults: { Self → Which → ℕ };

    /// Whether at most so many of the changing calls to come of its disks are planned to fail.
    ghost stops_left: { Self → ℕ → Type 0 };

    /// How many faults its log has met.
    ghost log_faults: { Self → ℕ };

    /// What the bus gives a node that has no open turn leads on.
    ghost begins: { (s : State) (n : ℕ) (next : Option Copy) (tick wants : Bool) (i : Input) → phase_of s ≢ Busy → next_input (phase_of s) next tick wants ≡ Some i → (t : State) × leads s (Begin n i) t };

    /// An entry leaves a state where the entry says.
    ghost phases: { (s t : State) (e : Entry) → leads s e t → phase_of t ≡ phase_after e };

    /// Whatever a stop leaves of its disks is what its state keeps.
    ghost images: { (node : Self) (s : State) → IsTrue tells → stands node s → (c : Contents) → image node c → keeps s c };

    /// Whether it has something to do by itself.
    fn wants(&self) -> bool
        ensures { waits self.now ≡ false → (s : State) → stands self.now s → wants_as s result };

    /// Whether it waits for an answer, so that it takes a Tick.
    fn unfinished(&self) -> bool
        ensures { waits self.now ≡ false → (s : State) → stands self.now s → unfinished_as s result };

    /// Whether nothing is left to do.
    fn at_rest(&self) -> bool
        ensures { waits self.now ≡ false → (s : State) → stands self.now s → at_rest_as s result };

    /// Takes one turn: it decides, passes the gate, appends the note where there is one, and keeps.
    fn turn<G: Gate>(&mut self, input: &Input, gate: &G) -> Result<Done, NodeFault>
        requires up { waits self.old ≡ false }
        ensures number { number self.new ≡ number self.old }
        ensures disks { disk_count self.new ≡ disk_count self.old }
        ensures waits { waits self.new ≡ was_stopped result }
        // A turn that is done is one that may end so, however many of its packets found room.
        ensures done { IsTrue tells → (s t : State) → stands self.old s → leads s (Begin (number self.old) input.now) t → IfOk result (λ d. (kept : ℕ) → kept ≤ length d.packets → (u : State) × leads t (End (number self.old) d.note d.packets kept) u × stands self.new u) }
        // Else it is open still.
        ensures open { IsTrue tells → (s t : State) → stands self.old s → leads s (Begin (number self.old) input.now) t → OnErr result (stands self.new t) }
        // At each moment of the call each image holds the kept records, or those and the turn's note.
        ensures moments { IsTrue tells → (s t : State) → stands self.old s → leads s (Begin (number self.old) input.now) t → (c : Contents) → since self.old self.new c → keeps t c }
        ensures grown { IsTrue tells → (s : State) → stands self.old s → grown self.old self.new }
        // Why it isn't done.
        ensures kind { IfErr result IsOfTurn }
        ensures fault { IsErrOf result NodeFault.Stopped → Rose (faults self.old) (faults self.new) }
        ensures plan { IsTrue planned → MeetsStops (was_stopped result) (stops_left self.old) (stops_left self.new) (faults self.old) (faults self.new) }
        ensures spent { (s : State) → stands self.old s → (epoch : ℕ) → IsErrOf result (NodeFault.Spent epoch) → spends s input.now ≡ Some epoch }
        ensures spends { (s : State) → stands self.old s → (epoch : ℕ) → spends s input.now ≡ Some epoch → OnOk result ⊥ }
        ensures count { faults self.old ≤ faults self.new }
        ensures log_tally { log_faults self.new ≡ tallied (log_faults self.old) (is_read_fault result) };

    /// Reopens the disks as the stop left them, and tells the open turn's note where it landed. The node is down then, and
    /// its next input is a Start. Where it is refused the node still waits.
    fn restart(&mut self) -> Result<Option<Payload>, NodeFault>
        requires { waits self.old ≡ true }
        ensures number { number self.new ≡ number self.old }
        ensures disks { disk_count self.new ≡ disk_count self.old }
        ensures up { OnOk result (waits self.new ≡ false) }
        ensures refused { OnErr result (waits self.new ≡ true) }
        ensures stopped { IsTrue tells → (s : State) → stands self.old s → IfOk result (λ landed. (t : State) × leads s (Stop (number self.old) landed) t × stands self.new t) }
        ensures open { IsTrue tells → (s : State) → stands self.old s → OnErr result (stands self.new s) }
        ensures moments { IsTrue tells → (s : State) → stands self.old s → (c : Contents) → since self.old self.new c → keeps s c }
        ensures grown { IsTrue tells → (s : State) → stands self.old s → grown self.old self.new }
        // Why it isn't up again.
        ensures kind { IfErr result IsOfRestart }
        ensures fault { IfErr result (HasFailed (disk_faults self.old) (disk_faults self.new)) }
        ensures plan { IsTrue planned → MeetsStops (was_shut_out result) (stops_left self.old) (stops_left self.new) (faults self.old) (faults self.new) }
        ensures whole { IsTrue tells → (s : State) → stands self.old s → IfErr result IsWhole }
        ensures count { faults self.old ≤ faults self.new }
        ensures log_count { log_faults self.new ≡ log_faults self.old };
}
