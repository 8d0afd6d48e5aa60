// One line of each log.
ghost use Rattle.std.specs.Prelude.{◌≡◌, ◌++◌, ◌∷◌, [], OnOk, decimal};
ghost use Rattle.event_id.specs.EventId.{spell};
ghost use Rattle.log_records.specs.Line.{query_line, click_line, space};
ghost use Rattle.log_records.specs.Log.{line_feed};
ghost use Rattle.bulk_logs.specs.Bulk.{query_id, click_id, told_id, query_made, click_made};

use event_id::{EventId, MAX_TEXT};
use itoa::Buffer;
use std::alloc::AllocError;

/// Puts line `place` of the query log behind the others, from its two numbers.
pub fn put_query(log: &mut Vec<u8>, place: u32, one: u32, other: u32) -> Result<(), AllocError>
    ensures { OnOk result (log.new.items ≡ log.old.items ++ (query_line (query_made place one other) ++ line_feed ∷ [])) }
{
    put_id(log, query_id(place, one, other))?;
    put_text(log, b'q', one)
}

/// Puts line `place` of the click log behind the others, from its two numbers.
pub fn put_click(log: &mut Vec<u8>, place: u32, one: u32, other: u32) -> Result<(), AllocError>
    ensures { OnOk result (log.new.items ≡ log.old.items ++ (click_line (click_made place one other) ++ line_feed ∷ [])) }
{
    put_id(log, click_id(place, one, other))?;
    put_id(log, told_id(place, one, other))?;
    put_text(log, b'c', other)
}

fn query_id(place: u32, one: u32, other: u32) -> EventId
    ensures { result ≡ query_id place one other }
{
    EventId {
        ip: 167_772_160 + one % 16,
        pid: other % 64,
        micros: 1_000_000 + 10 * u64::from(place),
    }
}

fn click_id(place: u32, one: u32, other: u32) -> EventId
    ensures { result ≡ click_id place one other }
{
    EventId {
        ip: 167_772_416 + other % 16,
        pid: one % 64,
        micros: if place % 10 == 4 {
            500_000 + u64::from(place)
        } else {
            2_000_000 + 10 * u64::from(place)
        },
    }
}

// The query that the click tells.
fn told_id(place: u32, one: u32, other: u32) -> EventId
    ensures { result ≡ told_id place one other }
{
    if place % 10 == 9 {
        EventId {
            ip: 151_587_081,
            pid: 9,
            micros: u64::from(place),
        }
    } else {
        query_id(place, one, other)
    }
}

fn put_id(log: &mut Vec<u8>, id: EventId) -> Result<(), AllocError>
    ensures { OnOk result (log.new.items ≡ log.old.items ++ (spell id ++ space ∷ [])) }
{
    let mut text = [0; MAX_TEXT];
    let len = id.text_into(&mut text);
    log.extend_from_slice(&text[..len])?;
    log.push(b' ')?;
    Ok(())
}

fn put_text(log: &mut Vec<u8>, letter: u8, number: u32) -> Result<(), AllocError>
    ensures { OnOk result (log.new.items ≡ log.old.items ++ (letter ∷ (decimal number ++ line_feed ∷ []))) }
{
    let mut digits = Buffer::new();
    log.push(letter)?;
    log.extend_from_slice(digits.format(number).as_bytes())?;
    log.push(b'\n')?;
    Ok(())
}
