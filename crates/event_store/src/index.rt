// A sparse index of the lines with a record, which knows no log.
ghost use Rattle.std.specs.Prelude.{◌≡◌, ◌≤◌, ◌<◌, ◌≢◌, ◌+◌, ◌∷◌, [], ℕ, List, true, false, IsTrue, Option, Some, None, IfSome, IfNone, IfOk, OnOk, OnErr};
ghost use Rattle.event_id.specs.declared.id.EventId.{EventId as Id};

use crate::puts::{count, put_back, put_entry, put_stray};
use event_id::EventId;
use std::alloc::{AllocError, Global};
use std::collections::BTreeMap;

/// Every so many in-order lines of a process one is indexed.
pub(crate) const STRIDE: u64 = 16;

/// The part of an id that is the same for all lines of a process. Ordered by the address, then by the process id.
#[derive(Clone, Copy, Debug, PartialEq, Eq, PartialOrd, Ord)]
pub struct Process {
    pub ip: u32,
    pub pid: u32,
}

/// How many in-order lines a process has, and the micros of the last of them, which are above those of all the others.
#[derive(Clone, Copy, Debug)]
pub struct Progress {
    pub lines: u64,
    pub last: u64,
}

/// Of each process every 16th in-order line, the first included, by its id; of each id of a line that isn't in order the
/// first such line.
///
/// The maps are ordered ones: whoever writes the log chooses the ids, so a hash of them could be made to collide.
#[derive(Drop)]
pub struct Index {
    processes: BTreeMap<Process, Progress>,
    entries: BTreeMap<EventId, u64>,
    strays: BTreeMap<EventId, u64>,
}

/// Where to look for an in-order line: from an entry up to the next one of its process, if there is one.
#[derive(Clone, Copy, Debug)]
pub struct Segment {
    pub start: u64,
    pub end: Option<u64>,
}

impl Process {
    ghost use Rattle.event_store.specs.Marks.{key_of};

    fn of(id: EventId) -> Process
        ensures { result ≡ key_of id }
    {
        Process {
            ip: id.ip,
            pid: id.pid,
        }
    }
}

impl Progress {
    ghost use Rattle.event_store.specs.Marks.{admits};

    /// Whether a line with these micros would be in order.
    pub(crate) fn admits(self, micros: u64) -> bool
        ensures { result ≡ admits self micros }
    {
        self.lines == 0 || self.last < micros
    }

    // One line more, if it is in order; and what was before it.
    pub(crate) fn step(&mut self, micros: u64) -> Result<Option<Progress>, AllocError>
        ensures counted { IfOk result (λ o. IfSome o (λ was. (was ≡ self.old) × (admits self.old micros ≡ true) × (self.new ≡ record { lines = self.old.lines + 1; last = micros }))) }
        ensures stray { IfOk result (λ o. IfNone o ((admits self.old micros ≡ false) × (self.new ≡ self.old))) }
        ensures err { OnErr result (self.new ≡ self.old) }
    {
        if !self.admits(micros) {
            return Ok(None);
        }
        let was = *self;
        let lines = was.lines.checked_add(1).ok_or(AllocError)?;
        *self = Progress {
            lines,
            last: micros,
        };
        Ok(Some(was))
    }
}

impl Index {
    ghost use Rattle.std.specs.Prelude.{if◌then◌else◌, ◌&&◌};
    ghost use Rattle.std.specs.BTreeMap as tree;
    ghost use Rattle.event_id.specs.EventId.{id_cmp};
    ghost use Rattle.event_store.specs.Order.{is_in_order, same_process, entries_among};
    ghost use Rattle.event_store.specs.Marks.{Mark as Seen, Keeps, first_of, stray_of, ids_of, progress_at, key_of, Falls, IsStray, IsSegment};

    /// Of no lines. It takes no memory.
    pub(crate) fn new(alloc: Global) -> Index
        ensures { Keeps result [] }
    {
        Index {
            processes: BTreeMap::new(alloc),
            entries: BTreeMap::new(alloc),
            strays: BTreeMap::new(alloc),
        }
    }

    fn progress(&self, process: Process) -> Progress
        ensures { result ≡ progress_at self.now.processes process }
    {
        match self.processes.get(&process) {
            Some(progress) => *progress,
            None => Progress { lines: 0, last: 0 },
        }
    }

    /// Whether a line with the id would be in order; then no line has the id. Logarithmic time.
    #[tactic(auto, using(crate::proofs::Orders::admitted, crate::proofs::Marking::no_first))]
    pub(crate) fn is_next(&self, id: EventId) -> bool
        ensures order { (marks : List Seen) → Keeps self.now marks → result ≡ is_in_order (ids_of marks) id }
        ensures none { (marks : List Seen) → Keeps self.now marks → IsTrue result → first_of marks id ≡ None }
    {
        self.progress(Process::of(id)).admits(id.micros)
    }

    // The last entry of the id's process that isn't above the id. Logarithmic time.
    fn floor(&self, id: EventId) -> Option<u64>
        ensures some { IfSome result (λ s. (k : Id) × (same_process k id ≡ true) × (k.micros ≤ id.micros) × (tree.get id_cmp self.now.entries k ≡ Some s)) }
        ensures none { IfNone result ((k : Id) → same_process k id ≡ true → k.micros ≤ id.micros → tree.get id_cmp self.now.entries k ≡ None) }
    {
        let first = EventId { micros: 0, ..id };
        let (_, place) = self.entries.range(first..=id).next_back()?;
        Some(*place)
    }

    // The first entry of the id's process that is above the id. Logarithmic time.
    fn ceiling(&self, id: EventId) -> Option<u64>
        ensures { IfSome result (λ s. (k : Id) × (same_process k id ≡ true) × (id.micros < k.micros) × (tree.get id_cmp self.now.entries k ≡ Some s)) }
    {
        let first = EventId {
            micros: id.micros.checked_add(1)?,
            ..id
        };
        let last = EventId {
            micros: u64::MAX,
            ..id
        };
        let (_, place) = self.entries.range(first..=last).next()?;
        Some(*place)
    }

    /// Where an in-order line with the id is to be looked for, if there may be one. Logarithmic time.
    #[tactic(auto, using(crate::proofs::Segments::segment_none))]
    pub(crate) fn segment(&self, id: EventId) -> Option<Segment>
        ensures some { (marks : List Seen) (place : ℕ) → Keeps self.now marks → Falls place marks → IfSome result (λ s. IsSegment marks id s.start s.end) }
        ensures none { (marks : List Seen) → Keeps self.now marks → IfNone result (IsStray marks id) }
    {
        let start = self.floor(id)?;
        Some(Segment {
            start,
            end: self.ceiling(id),
        })
    }

    /// Where the first stray line with the id begins. Logarithmic time.
    pub(crate) fn stray(&self, id: EventId) -> Option<u64>
        ensures { (marks : List Seen) → Keeps self.now marks → result ≡ stray_of marks id }
    {
        self.strays.get(&id).copied()
    }

    /// One line with a record more, and whether it is in order; then it is the first with its id. Logarithmic time: the process
    /// is looked for once.
    ///
    /// Where there is no memory for its entry the process goes back to where it was, which takes none.
    #[tactic(auto, using(crate::proofs::Orders::admitted, crate::proofs::Marking::no_first))]
    pub(crate) fn see(&mut self, id: EventId, place: u64) -> Result<bool, AllocError>
        ensures ok { OnOk result ((marks : List Seen) → Keeps self.old marks → Keeps self.new (record { place = place; id = id } ∷ marks)) }
        ensures first { IfOk result (λ ordered. (marks : List Seen) → Keeps self.old marks → IsTrue ordered → first_of marks id ≡ None) }
        ensures err { OnErr result ((marks : List Seen) → Keeps self.old marks → Keeps self.new marks) }
    {
        let process = Process::of(id);
        let Some(was) = count(&mut self.processes, process, id.micros)? else {
            put_stray(&mut self.strays, id, place)?;
            return Ok(false);
        };
        let begins = was.lines % STRIDE == 0;
        if put_entry(&mut self.entries, begins, id, place).is_err() {
            put_back(&mut self.processes, process, was);
            return Err(AllocError);
        }
        Ok(true)
    }

    /// How many entries it has.
    pub(crate) fn len(&self) -> u64
        ensures { (marks : List Seen) → Keeps self.now marks → result ≡ entries_among (ids_of marks) }
    {
        self.entries.len() as u64 + self.strays.len() as u64
    }
}
