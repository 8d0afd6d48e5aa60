// What a node keeps on its disks.
ghost use Rattle.std.specs.Prelude.{◌≡◌, ◌⊎◌, ◌≤◌, ℕ, Bool, true, false, if◌then◌else◌, is_err, IsTrue, IfOk, IfErr, OnOk, OnErr};
ghost use Rattle.outside.specs.Faults.{Rose};
ghost use Rattle.turn_defs.specs.Turns.{Note};
ghost use Rattle.site_node.specs.Bytes.{record_of};
ghost use Rattle.site_node.specs.declared.kind.NodeDisk.{NodeDisk as Which};
ghost use Rattle.site_node.specs.Faults.{HasFailed, IsOfRestart, IsWhole, MeetsStops, was_shut_out};

use crate::{Core, NodeFault};
use air_bus::Payload;
use std::alloc::{AllocError, Global};

/// What a node keeps on its disks: one journal, or two.
///
/// What is said of the records, and of bytes, is said where the disks tell what they hold.
pub trait Records<K, C: Core<K>> {
    /// A note with its record, ready to be appended.
    type Framed: Drop;

    /// Whether its disks tell what they hold.
    ghost tells: { Bool };

    /// Whether its disks meet the stops that are planned for them, and no other faults.
    ghost planned: { Bool };

    /// How many disks it has.
    ghost disk_count: { ℕ };

    /// The bytes of its disks.
    ghost Contents: { Type 0 };

    /// Whether disks with these bytes hold these records.
    ghost keeps: { K → Contents → Type 0 };

    /// Whether a note can be appended.
    ghost ready: { Self → Bool };

    /// Whether these are the records.
    ghost holds: { Self → K → Type 0 };

    /// Whether, after an append that failed, these or those are the records.
    ghost doubts: { Self → K → K → Type 0 };

    /// Whether the note can come next.
    ghost can_take: { Self → Note → Bool };

    /// The note that is ready.
    ghost note_in: { Self.Framed → Note };

    /// Whether it can be appended, and there is room for it.
    ghost has_room: { Self → Self.Framed → Type 0 };

    /// What a stop now may leave of the disks.
    ghost image: { Self → Contents → Type 0 };

    /// What a stop may have left at some moment from the first on, up to the second.
    ghost since: { Self → Self → Contents → Type 0 };

    /// Whether each disk's records, whatever a stop leaves of it, begin with those of what a stop might have left before.
    ghost grown: { Self → Self → Type 0 };

    /// Whether nothing but room was made from the first to the second.
    ghost calm: { Self → Self → Type 0 };

    /// How many faults the disks have met, all in all.
    ghost faults: { Self → ℕ };

    /// How many one of them has met.
    ghost disk_faults: { Self → Which → ℕ };

    /// Whether at most so many of the changing calls to come of the disks are planned to fail.
    ghost stops_left: { Self → ℕ → Type 0 };

    /// Whatever a stop leaves is the records.
    ghost held: { (r : Self) (k : K) → IsTrue tells → holds r k → (c : Contents) → image r c → keeps k c };

    /// And in doubt one or the other.
    ghost doubted: { (r : Self) (k with : K) → IsTrue tells → doubts r k with → (c : Contents) → image r c → keeps k c ⊎ keeps with c };

    /// Whether the note can come next.
    fn takes(&self, note: &C::Note) -> bool
        ensures is { result ≡ can_take self.now (C.noted note.now) }
        ensures takes { (k : K) → holds self.now k → result ≡ C.takes k (C.noted note.now) };

    /// Readies a note, and makes the disk's room for it. Nothing changes but that room.
    fn frame(&mut self, alloc: Global, note: &C::Note) -> Result<Self::Framed, AllocError>
        requires ready { ready self.old ≡ true }
        requires spelled { C.spelled note.now }
        requires takes { can_take self.old (C.noted note.now) ≡ true }
        ensures ready { ready self.new ≡ true }
        ensures note { IfOk result (λ f. note_in f ≡ C.noted note.now) }
        ensures room { IfOk result (has_room self.new) }
        ensures calm { IsTrue tells → calm self.old self.new }
        ensures plan { IsTrue planned → MeetsStops false (stops_left self.old) (stops_left self.new) (faults self.old) (faults self.new) }
        ensures count { faults self.new ≡ faults self.old };

    /// Appends the note, and gives its record. At `Ok` it is on its disk, else it is in doubt: a disk failed.
    fn append(&mut self, framed: Self::Framed) -> Result<Payload, Payload>
        requires { has_room self.old framed }
        ensures ready { OnOk result (ready self.new ≡ true) }
        ensures record { IfOk result (λ r. r ≡ record_of (note_in framed)) }
        ensures in_doubt { IfErr result (λ r. r ≡ record_of (note_in framed)) }
        ensures holds { IsTrue tells → (k : K) → holds self.old k → OnOk result (holds self.new (C.rows.lands (note_in framed) k)) }
        ensures doubts { IsTrue tells → (k : K) → holds self.old k → OnErr result (doubts self.new k (C.rows.lands (note_in framed) k)) }
        ensures moments { IsTrue tells → (r : Self) (k : K) → calm r self.old → holds r k → (c : Contents) → since r self.new c → keeps k c ⊎ keeps (C.rows.lands (note_in framed) k) c }
        ensures grown { IsTrue tells → (r : Self) (k : K) → calm r self.old → holds r k → grown r self.new }
        ensures fault { OnErr result (Rose (faults self.old) (faults self.new)) }
        ensures plan { IsTrue planned → MeetsStops (is_err result) (stops_left self.old) (stops_left self.new) (faults self.old) (faults self.new) }
        ensures count { faults self.old ≤ faults self.new };

    /// Reopens the disks as a stop left them: what they hold, and whether the note in doubt is among it.
    fn reopen(&mut self, alloc: Global) -> Result<(C::Held, bool), NodeFault>
        ensures ready { OnOk result (ready self.new ≡ true) }
        ensures left { IsTrue tells → (k with : K) → doubts self.old k with → IfOk result (λ r. C.told r.0 (if r.1 then with else k) × holds self.new (if r.1 then with else k)) }
        ensures open { IsTrue tells → (k with : K) → doubts self.old k with → OnErr result (doubts self.new k with) }
        ensures moments { IsTrue tells → (k with : K) → doubts self.old k with → (c : Contents) → since self.old self.new c → keeps k c ⊎ keeps with c }
        ensures grown { IsTrue tells → (k with : K) → doubts self.old k with → grown self.old self.new }
        ensures kind { IfErr result IsOfRestart }
        ensures fault { IfErr result (HasFailed (disk_faults self.old) (disk_faults self.new)) }
        ensures plan { IsTrue planned → MeetsStops (was_shut_out result) (stops_left self.old) (stops_left self.new) (faults self.old) (faults self.new) }
        ensures whole { IsTrue tells → (k with : K) → doubts self.old k with → IfErr result IsWhole }
        ensures count { faults self.old ≤ faults self.new };

    /// Where nothing is called, nothing changes.
    ghost still: { (r : Self) → IsTrue tells → calm r r };

    /// Room changes nothing of the records, nor of what a stop leaves.
    ghost stays: { (old new : Self) (k : K) → IsTrue tells → calm old new → holds old k → holds new k × ((c : Contents) → since old new c → keeps k c) × grown old new };
}
