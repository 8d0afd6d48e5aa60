// Looks for an id line by line.
ghost use Rattle.std.specs.Prelude.{◌≡◌, ◌<◌, List, Option, None, MatchOption, IfOk, IsTrue};
ghost use Rattle.outside.specs.Faults.{tallied};
ghost use Rattle.log_records.specs.declared.records.QueryRec.{QueryRec as Query};
ghost use Rattle.event_store.specs.Read.{AreRead, is_read_fault};
ghost use Rattle.event_store.specs.Found.{found};
ghost use Rattle.event_store.specs.Held.{Starts};

use crate::LookFault;
use crate::read::next_id;
use event_id::{EventId, MAX_TEXT};
use outside::LogFile;
use tail_reader::Tail;

/// Where the first record with the id begins among the lines up to the end, which is a line's end, if none begins before the
/// start. Reads no line behind the one that it finds, but whole blocks.
#[tactic(auto, using(crate::proofs::Firsts::none_in_front))]
pub(crate) fn scan<L: LogFile>(
    tail: &mut Tail<L>,
    start: u64,
    end: u64,
    id: EventId,
) -> Result<Option<u64>, LookFault>
    ensures found { IsTrue L.tells → (front lines : List (Option Query)) → AreRead (L.bytes tail.old.log) start front → found front id ≡ None → AreRead (L.bytes tail.old.log) end lines → IfOk result (λ at. MatchOption at (found lines id ≡ None) (λ s. (s < end) × Starts (L.bytes tail.old.log) id s)) }
    ensures same { IsTrue L.tells → L.bytes tail.new.log ≡ L.bytes tail.old.log }
    ensures tally { L.faults tail.new.log ≡ tallied (L.faults tail.old.log) (is_read_fault result) }
{
    let mut text = [0; MAX_TEXT];
    let len = id.text_into(&mut text);
    tail.seek(start);
    'lines: for least in start..end {
        let place = tail.place();
        if place >= end {
            return Ok(None);
        }
        if next_id(tail, &text[..len])? == Some(id) {
            return Ok(Some(place));
        }
    }
    Ok(None)
}
