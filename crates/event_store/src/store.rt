// The store, which keeps a sparse index of the lines that it has read, and a few records.
ghost use Rattle.std.specs.Prelude.{◌<◌, ◌^◌, IsTrue};
ghost use Rattle.event_store.specs.Held.{Holds};

use crate::index::Index;
use crate::read::next_record;
use crate::recent::Recent;
use crate::search::look;
use crate::take::take_in;
use event_id::EventId;
use log_records::QueryRec;
use outside::LogFile;
use std::alloc::{AllocError, Global};
use std::hash::RandomState;
use tail_reader::Tail;

/// What `advance` came to.
#[derive(Clone, Copy, Debug, PartialEq, Eq)]
pub enum Step {
    /// A line more was read.
    Line,
    /// No line feed follows the lines read.
    End,
}

/// What `lookup` found.
#[derive(Debug, Drop)]
pub enum Lookup {
    /// The first record with the id.
    Found(QueryRec),
    /// None of the lines read so far has the id. So many were read.
    NotYet { read: u64 },
}

/// Why a call is refused. The lines read stay as they are.
#[derive(Clone, Copy, Debug, PartialEq, Eq)]
pub enum LookFault {
    /// The log couldn't be read.
    Read,
    /// There was no memory. No clause says when.
    Memory,
}

/// The queries of a log that were read so far. A refused line counts as one without an id.
///
/// An id is of a process, by its address and process id. A line is in order where its micros are above those of each
/// earlier line of its process. Of each process every 16th in-order line is indexed, by its id and its place; of each id
/// that other lines have, the first of them. So an in-order log takes a few bytes a line, and no record but those of the
/// cache.
#[derive(Drop)]
pub struct EventStore<L: LogFile> {
    tail: Tail<L>,
    read: u64,
    index: Index,
    recent: Recent,
    alloc: Global,
    ghost small: { read < 2 ^ 64 },
    ghost held: { ∥ (IsTrue L.tells → Holds (L.bytes tail.log) tail.place read index recent.records.entries) ∥₁ },
}

impl<L: LogFile> EventStore<L> {
    ghost use Rattle.log_records.specs.declared.records.QueryRec.{QueryRec as Query};
    ghost use Rattle.std.specs.Prelude.{◌≡◌, ◌≤◌, Option, List, IfOk, IfErr, OnErr, Ok};
    ghost use Rattle.outside.specs.Faults.{tallied};
    ghost use Rattle.event_store.specs.declared.store.Step.TheVariants as step;
    ghost use Rattle.event_store.specs.Read.{ReadsNext, AreRead, IsAtEnd, is_read_fault};
    ghost use Rattle.event_store.specs.Found.{IsLookup, IsSpelled};
    ghost use Rattle.event_store.specs.Order.{entries_of};

    /// A store of the log's queries, of which nothing is read yet. `cache` is how many records are kept at hand at most, by a
    /// hash with these keys, since whoever writes the log chooses the ids.
    pub fn new(
        alloc: Global,
        keys: RandomState,
        log: L,
        cache: u32,
    ) -> Result<EventStore<L>, (AllocError, L)>
        requires { 1 ≤ cache }
        ensures log { IfOk result (λ store. store.tail.log ≡ log) }
        ensures place { IfOk result (λ store. store.tail.place ≡ 0) }
        ensures most { IfOk result (λ store. store.recent.records.cap ≡ cache) }
        ensures err { IfErr result (λ e. e.1 ≡ log) }
    {
        match Recent::new(alloc, keys, cache) {
            Ok(recent) => Ok(EventStore {
                tail: Tail::new(log, 0),
                read: 0,
                index: Index::new(alloc),
                recent,
                alloc,
            }),
            Err(error) => Err((error, log)),
        }
    }

    /// Gives the log back.
    pub fn into_log(self) -> L
        ensures { result ≡ self.tail.log }
    {
        let EventStore {
            tail,
            read: _,
            index: _,
            recent: _,
            alloc: _,
        } = self;
        tail.into_log()
    }

    /// How many entries the index has: of each process one for every 16 in-order lines, and one for each id of the other
    /// lines.
    pub fn entries(&self) -> u64
        ensures entries { IsTrue L.tells → (lines : List (Option Query)) → AreRead (L.bytes self.now.tail.log) self.now.tail.place lines → result ≡ entries_of lines }
    {
        self.index.len()
    }

    /// Reads the next line. A block of 4 KiB is read at a time. Logarithmic time beside that, and memory for an
    /// entry at every 16th in-order line of a process and at each line that is out of order.
    ///
    /// A record that is in order is kept at hand, so a look-up of its id that follows reads nothing.
    pub fn advance(&mut self) -> Result<Step, LookFault>
        ensures line { IsTrue L.tells → result ≡ Ok step.Line → (read : Option Query) × ReadsNext (L.bytes self.old.tail.log) self.old.tail.place self.new.tail.place read }
        ensures end { IsTrue L.tells → result ≡ Ok step.End → IsAtEnd (L.bytes self.old.tail.log) self.old.tail.place }
        ensures end_stays { result ≡ Ok step.End → self.new.tail.place ≡ self.old.tail.place }
        ensures err { OnErr result (self.new.tail.place ≡ self.old.tail.place) }
        ensures same { IsTrue L.tells → L.bytes self.new.tail.log ≡ L.bytes self.old.tail.log }
        ensures most { self.new.recent.records.cap ≡ self.old.recent.records.cap }
        ensures tally { L.faults self.new.tail.log ≡ tallied (L.faults self.old.tail.log) (is_read_fault result) }
    {
        let place = self.tail.place();
        let line = next_record(self.alloc, &mut self.tail)?;
        let read = match line {
            Some(read) => read,
            None => return Ok(Step::End),
        };
        if take_in(&mut self.index, &mut self.recent, place, read).is_err() {
            self.tail.seek(place);
            return Err(LookFault::Memory);
        }
        self.read = self.read.saturating_add(1);
        Ok(Step::Line)
    }

    /// The first record with the id among the lines read.
    ///
    /// Logarithmic time, and nothing is read, where the id's micros are above those of all lines of its process, or
    /// its process has none, or the record is at hand. Else it reads again the lines between two entries of the process, found
    /// in logarithmic time, and keeps the record at hand. Where that line is near the one that was found so before, it keeps
    /// the records of up to 32 lines from there on too: who asks nearly in the log's order finds most of them at hand.
    pub fn lookup(&mut self, id: EventId) -> Result<Lookup, LookFault>
        ensures found { IsTrue L.tells → (lines : List (Option Query)) → AreRead (L.bytes self.old.tail.log) self.old.tail.place lines → IfOk result (IsLookup lines id) }
        ensures spelled { IfOk result IsSpelled }
        ensures place { self.new.tail.place ≡ self.old.tail.place }
        ensures same { IsTrue L.tells → L.bytes self.new.tail.log ≡ L.bytes self.old.tail.log }
        ensures most { self.new.recent.records.cap ≡ self.old.recent.records.cap }
        ensures tally { L.faults self.new.tail.log ≡ tallied (L.faults self.old.tail.log) (is_read_fault result) }
    {
        let read = self.read;
        if self.index.is_next(id) {
            return Ok(Lookup::NotYet { read });
        }
        let place = self.tail.place();
        let found = look(
            self.alloc,
            &mut self.tail,
            &self.index,
            &mut self.recent,
            place,
            id,
        );
        self.tail.seek(place);
        match found? {
            Some(query) => Ok(Lookup::Found(query)),
            None => Ok(Lookup::NotYet { read }),
        }
    }
}
