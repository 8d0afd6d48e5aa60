// The next line of the log.
ghost use Rattle.std.specs.Prelude.{◌≡◌, ◌≢◌, ℕ, Option, IfOk, IfErr, IfSome, IfNone, OnErr, IsTrue};
ghost use Rattle.log_records.specs.declared.records.QueryRec.{QueryRec as Query};
ghost use Rattle.log_records.specs.Line.{IsQuery};
ghost use Rattle.outside.specs.Faults.{tallied};
ghost use Rattle.event_store.specs.declared.store.LookFault.TheVariants as fault;
ghost use Rattle.event_store.specs.Read.{ReadsAs, ReadsNext, TellsId, IsAtEnd, is_read_fault};

use crate::LookFault;
use event_id::EventId;
use log_records::{QueryRec, Record, Why, read_query};
use outside::LogFile;
use std::alloc::Global;
use tail_reader::{Next, Tail};

/// Reads the next line, if there is one: its record, or none where it is refused.
pub fn next_record<L: LogFile>(
    alloc: Global,
    tail: &mut Tail<L>,
) -> Result<Option<Option<QueryRec>>, LookFault>
    ensures line { IsTrue L.tells → IfOk result (λ line. IfSome line (λ read. ReadsNext (L.bytes tail.old.log) tail.old.place tail.new.place read)) }
    ensures end { IsTrue L.tells → IfOk result (λ line. IfNone line (IsAtEnd (L.bytes tail.old.log) tail.old.place)) }
    ensures spelled { IfOk result (λ line. IfSome line (λ read. IfSome read IsQuery)) }
    ensures end_stays { IfOk result (λ line. IfNone line (tail.new.place ≡ tail.old.place)) }
    ensures err { OnErr result (tail.new.place ≡ tail.old.place) }
    ensures same { IsTrue L.tells → L.bytes tail.new.log ≡ L.bytes tail.old.log }
    ensures tally { L.faults tail.new.log ≡ tallied (L.faults tail.old.log) (is_read_fault result) }
{
    let place = tail.place();
    let next = match tail.next() {
        Ok(next) => next,
        Err(_) => return Err(LookFault::Read),
    };
    match next {
        Next::End { .. } => {
            tail.seek(place);
            Ok(None)
        }
        Next::Long { .. } => Ok(Some(None)),
        Next::Line { .. } => match read_line(alloc, tail.line()) {
            Ok(read) => Ok(Some(read)),
            Err(fault) => {
                tail.seek(place);
                Err(fault)
            }
        },
    }
}

/// The record that the line is, or none.
pub fn read_line(alloc: Global, line: &[u8]) -> Result<Option<QueryRec>, LookFault>
    ensures line { IfOk result (ReadsAs line.now) }
    ensures spelled { IfOk result (λ read. IfSome read IsQuery) }
    ensures err { IfErr result (λ e. e ≡ fault.Memory) }
{
    match read_query(alloc, line) {
        Ok(query) => Ok(Some(query)),
        Err(why) => {
            if why == Why::Memory {
                return Err(LookFault::Memory);
            }
            Ok(None)
        }
    }
}

/// The id of the next line's record, if there is one. Only a line that begins with the front is read; nothing is copied.
pub fn next_id<L: LogFile>(tail: &mut Tail<L>, front: &[u8]) -> Result<Option<EventId>, LookFault>
    ensures line { IsTrue L.tells → (next : ℕ) (read : Option Query) → ReadsNext (L.bytes tail.old.log) tail.old.place next read → IfOk result (λ told. (tail.new.place ≡ next) × TellsId front.now read told) }
    ensures same { IsTrue L.tells → L.bytes tail.new.log ≡ L.bytes tail.old.log }
    ensures tally { L.faults tail.new.log ≡ tallied (L.faults tail.old.log) (is_read_fault result) }
{
    let next = match tail.next() {
        Ok(next) => next,
        Err(_) => return Err(LookFault::Read),
    };
    match next {
        Next::Line { .. } => Ok(id_in(tail.line(), front)),
        Next::Long { .. } => Ok(None),
        Next::End { .. } => Ok(None),
    }
}

// The id of the line's record, if the line begins with the front and is one.
#[tactic(auto, using(crate::proofs::Looking::told_record))]
fn id_in(line: &[u8], front: &[u8]) -> Option<EventId>
    ensures { (read : Option Query) → ReadsAs line.now read → TellsId front.now read result }
{
    if !line.starts_with(front) {
        return None;
    }
    match QueryRec::id_in(line) {
        Ok(id) => Some(id),
        Err(_) => None,
    }
}
