// Looks for an id among the records at hand and by the index.
ghost use Rattle.std.specs.Prelude.{◌≡◌, List, ℕ, Option, Some, MatchOption, IfOk, IfSome, IsTrue};
ghost use Rattle.outside.specs.Faults.{tallied};
ghost use Rattle.log_records.specs.declared.records.QueryRec.{QueryRec as Query};
ghost use Rattle.log_records.specs.Line.{IsQuery};
ghost use Rattle.event_store.specs.Found.{found};
ghost use Rattle.event_store.specs.Read.{ReadsNext, AreRead, is_read_fault};
ghost use Rattle.event_store.specs.Marks.{Mark as Seen, place_of, IsStray};
ghost use Rattle.event_store.specs.Held.{Knows, IsCache};

use crate::LookFault;
use crate::index::Index;
use crate::read::next_record;
use crate::recent::Recent;
use crate::scan::scan;
use event_id::EventId;
use log_records::QueryRec;
use outside::LogFile;
use std::alloc::Global;
use tail_reader::Tail;

// Of how many lines from one that was found by the index the records are kept at hand, where the line found before is near.
const AHEAD: u32 = 32;

/// The first record with the id among the lines that end at or before the place. The tail stands anywhere afterwards.
#[tactic(auto, using(crate::proofs::Firsts::nowhere))]
pub(crate) fn look<L: LogFile>(
    alloc: Global,
    tail: &mut Tail<L>,
    index: &Index,
    recent: &mut Recent,
    place: u64,
    id: EventId,
) -> Result<Option<QueryRec>, LookFault>
    ensures found { IsTrue L.tells → (lines : List (Option Query)) (marks : List Seen) → Knows (L.bytes tail.old.log) place index.now lines marks → IsCache recent.old.records.entries lines → IfOk result (λ q. q ≡ found lines id) }
    ensures cached { IsTrue L.tells → (lines : List (Option Query)) (marks : List Seen) → Knows (L.bytes tail.old.log) place index.now lines marks → IsCache recent.old.records.entries lines → IsCache recent.new.records.entries lines }
    ensures most { recent.new.records.cap ≡ recent.old.records.cap }
    ensures spelled { IfOk result (λ q. IfSome q IsQuery) }
    ensures same { IsTrue L.tells → L.bytes tail.new.log ≡ L.bytes tail.old.log }
    ensures tally { L.faults tail.new.log ≡ tallied (L.faults tail.old.log) (is_read_fault result) }
{
    if let Some(query) = recent.recall(id)? {
        return Ok(Some(query));
    }
    let Some(start) = find(tail, index, place, id)? else {
        return Ok(None);
    };
    let found = record_at(alloc, tail, start)?;
    if recent.is_behind(start) {
        read_ahead(alloc, tail, index, recent, start, place)?;
    } else {
        hold(recent, &found);
    }
    recent.reach(tail.place());
    Ok(found)
}

// Keeps the record at hand, which is the first with its id.
fn hold(recent: &mut Recent, read: &Option<QueryRec>)
    requires { IfSome read.now IsQuery }
    ensures kept { (lines : List (Option Query)) → IsCache recent.old.records.entries lines → IfSome read.now (λ q. found lines q.id ≡ Some q) → IsCache recent.new.records.entries lines }
    ensures most { recent.new.records.cap ≡ recent.old.records.cap }
{
    if let Some(query) = read {
        if let Ok(shared) = query.share() {
            recent.remember(true, shared);
        }
    }
}

// The record of the line that begins at the place. The tail stands anywhere afterwards.
fn record_at<L: LogFile>(
    alloc: Global,
    tail: &mut Tail<L>,
    place: u64,
) -> Result<Option<QueryRec>, LookFault>
    ensures line { IsTrue L.tells → (next : ℕ) (read : Option Query) → ReadsNext (L.bytes tail.old.log) place next read → IfOk result (λ q. q ≡ read) }
    ensures spelled { IfOk result (λ q. IfSome q IsQuery) }
    ensures same { IsTrue L.tells → L.bytes tail.new.log ≡ L.bytes tail.old.log }
    ensures tally { L.faults tail.new.log ≡ tallied (L.faults tail.old.log) (is_read_fault result) }
{
    tail.seek(place);
    match next_record(alloc, tail)? {
        Some(read) => Ok(read),
        None => Ok(None),
    }
}

// Where the first record with the id begins, among the lines that end at or before the place. The tail stands anywhere
// afterwards.
fn find<L: LogFile>(
    tail: &mut Tail<L>,
    index: &Index,
    place: u64,
    id: EventId,
) -> Result<Option<u64>, LookFault>
    ensures found { IsTrue L.tells → (lines : List (Option Query)) (marks : List Seen) → Knows (L.bytes tail.old.log) place index.now lines marks → IfOk result (λ at. at ≡ place_of marks id) }
    ensures same { IsTrue L.tells → L.bytes tail.new.log ≡ L.bytes tail.old.log }
    ensures tally { L.faults tail.new.log ≡ tallied (L.faults tail.old.log) (is_read_fault result) }
{
    match in_order(tail, index, place, id)? {
        Some(start) => Ok(Some(start)),
        None => Ok(index.stray(id)),
    }
}

// Where the first record with the id begins, if its line is in order; it may be found otherwise too. Scans from an entry to the
// next one of the process, which are sixteen of its in-order lines and what stands between them.
fn in_order<L: LogFile>(
    tail: &mut Tail<L>,
    index: &Index,
    place: u64,
    id: EventId,
) -> Result<Option<u64>, LookFault>
    ensures found { IsTrue L.tells → (lines : List (Option Query)) (marks : List Seen) → Knows (L.bytes tail.old.log) place index.now lines marks → IfOk result (λ at. MatchOption at (IsStray marks id) (λ s. place_of marks id ≡ Some s)) }
    ensures same { IsTrue L.tells → L.bytes tail.new.log ≡ L.bytes tail.old.log }
    ensures tally { L.faults tail.new.log ≡ tallied (L.faults tail.old.log) (is_read_fault result) }
{
    let Some(segment) = index.segment(id) else {
        return Ok(None);
    };
    scan(tail, segment.start, segment.end.unwrap_or(place), id)
}

// Keeps the records of the lines from the start on at hand, of those before the end and of no more than `AHEAD`. A record whose
// id a stray has may not be the first with it.
fn read_ahead<L: LogFile>(
    alloc: Global,
    tail: &mut Tail<L>,
    index: &Index,
    recent: &mut Recent,
    start: u64,
    end: u64,
) -> Result<(), LookFault>
    ensures cached { IsTrue L.tells → (front lines : List (Option Query)) (marks : List Seen) → AreRead (L.bytes tail.old.log) start front → Knows (L.bytes tail.old.log) end index.now lines marks → IsCache recent.old.records.entries lines → IsCache recent.new.records.entries lines }
    ensures same { IsTrue L.tells → L.bytes tail.new.log ≡ L.bytes tail.old.log }
    ensures most { recent.new.records.cap ≡ recent.old.records.cap }
    ensures tally { L.faults tail.new.log ≡ tallied (L.faults tail.old.log) (is_read_fault result) }
{
    tail.seek(start);
    'lines: for _ in 0..AHEAD {
        let place = tail.place();
        if place >= end {
            return Ok(());
        }
        let Some(read) = next_record(alloc, tail)? else {
            return Ok(());
        };
        if let Some(query) = read {
            recent.remember(index.stray(query.id).is_none(), query);
        }
    }
    Ok(())
}
