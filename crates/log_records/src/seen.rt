// The first line of each id.
ghost use Rattle.std.specs.Prelude.{◌≡◌, ◌≢◌, ◌⊎◌, ◌↔◌, ◌++◌, [], ◌∷◌, ℕ, List, Some, false, unwrap_or, IfOk, IfErr, OnOk, IsTrue};
ghost use Rattle.event_id.specs.declared.id.EventId.{EventId as Id};
ghost use Rattle.log_records.specs.declared.why.Why.TheVariants as why;
ghost use Rattle.log_records.specs.Line.{OrMemory};
ghost use Rattle.log_records.specs.Check.{AfterWhy};
ghost use Rattle.log_records.specs.Seen.{line_at, is_at, Keeps};

use crate::Why;
use crate::kind::Record;
use event_id::EventId;
use std::alloc::AllocError;
use std::collections::BTreeMap;

/// Takes in the next line, of which nothing is copied. What is told of one that isn't taken is the first that is wrong with it.
pub fn accept<'a, R: Record>(
    seen: &mut BTreeMap<EventId, &'a [u8]>,
    line: &'a [u8],
) -> Result<(), Why>
    ensures ok { OnOk result ((r : R) × R.is_record r × (line.now ≡ R.spelled r) × ((rs : List R) → Keeps R.spelled R.own_id seen.old rs → Keeps R.spelled R.own_id seen.new (rs ++ r ∷ []))) }
    ensures why { IfErr result (λ w. (rs : List R) → Keeps R.spelled R.own_id seen.old rs → OrMemory (AfterWhy R.spelled R.is_record R.own_id R.whys rs line.now) w) }
{
    let id = R::id_in(line)?;
    take_in(seen, id, line)?;
    Ok(())
}

fn take_in<'a>(
    seen: &mut BTreeMap<EventId, &'a [u8]>,
    id: EventId,
    line: &'a [u8],
) -> Result<(), Why>
    ensures kept { OnOk result (line_at seen.new id ≡ Some line.now) }
    ensures same { OnOk result (unwrap_or (line_at seen.old id) line.now ≡ line.now) }
    ensures others { OnOk result ((k : Id) → is_at id k ≡ false → line_at seen.new k ≡ line_at seen.old k) }
    ensures why { IfErr result (λ w. (w ≡ why.Memory) ⊎ ((unwrap_or (line_at seen.old id) line.now ≢ line.now) × (w ≡ why.Conflict))) }
{
    match keep(seen, id, line) {
        Ok(true) => Ok(()),
        Ok(false) => Err(Why::Conflict),
        Err(_) => Err(Why::Memory),
    }
}

/// Keeps the line under its id if it is the first with it. Answers whether the line kept there has the same bytes.
///
/// One look-up, and for a new id another. It takes memory only for a new id.
fn keep<'a>(
    seen: &mut BTreeMap<EventId, &'a [u8]>,
    id: EventId,
    line: &'a [u8],
) -> Result<bool, AllocError>
    ensures kept { OnOk result (line_at seen.new id ≡ Some (unwrap_or (line_at seen.old id) line.now)) }
    ensures others { OnOk result ((k : Id) → is_at id k ≡ false → line_at seen.new k ≡ line_at seen.old k) }
    ensures same { IfOk result (λ same. IsTrue same ↔ (unwrap_or (line_at seen.old id) line.now ≡ line.now)) }
{
    if let Some(first) = seen.get(&id) {
        return Ok(*first == line);
    }
    seen.insert(id, line)?;
    Ok(true)
}
