ghost use Rattle.std.specs.Prelude.{◌≡◌, MatchResult, IfOk, IfErr};
ghost use Rattle.event_id.specs.EventId.{spell, IsId};
ghost use Rattle.log_records.specs.declared.records.QueryRec.{QueryRec as Query};
ghost use Rattle.log_records.specs.declared.records.ClickRec.{ClickRec as Click};
ghost use Rattle.log_records.specs.Line.{query_line, click_line, IsQuery, IsClick, QueryWhy, ClickWhy, OrMemory, IsIdText, AreQueryParts, AreClickParts};

use crate::text::check;
use crate::{ClickRec, QueryRec, Text, Why};
use event_id::{EventId, parse};
use list_words::split_once;
use std::alloc::Global;
use wire_core::Origin;

/// The longest line, without its line feed.
pub const MAX_LINE: usize = 296;

/// Reads a line of the query log, without its line feed. Copies its text.
pub fn read_query(alloc: Global, line: &[u8]) -> Result<QueryRec, Why>
    // What is read is spelled so.
    ensures found { IfOk result (λ q. IsQuery q × (line.now ≡ query_line q)) }
    // What is spelled so is read, unless memory runs out.
    ensures only { (q : Query) → IsQuery q → line.now ≡ query_line q → MatchResult result (λ r. r ≡ q) (λ why. why ≡ Why.Memory) }
    // What is told is the first that is wrong.
    ensures why { IfErr result (OrMemory (QueryWhy line.now)) }
{
    query_of(alloc, line)
}

/// Reads a line of the click log, without its line feed. Copies its text.
pub fn read_click(alloc: Global, line: &[u8]) -> Result<ClickRec, Why>
    ensures found { IfOk result (λ c. IsClick c × (line.now ≡ click_line c)) }
    ensures only { (c : Click) → IsClick c → line.now ≡ click_line c → MatchResult result (λ r. r ≡ c) (λ why. why ≡ Why.Memory) }
    ensures why { IfErr result (OrMemory (ClickWhy line.now)) }
{
    click_of(alloc, line)
}

fn query_of(alloc: Global, line: &[u8]) -> Result<QueryRec, Why>
    ensures found { IfOk result (λ q. IsQuery q × (line.now ≡ query_line q)) }
    ensures why { IfErr result (OrMemory (QueryWhy line.now)) }
{
    let (id, text) = query_parts(line)?;
    let text = Text::of_bytes(Origin::new(alloc), text, 0).map_err(|_| Why::Memory)?;
    Ok(QueryRec { id, text })
}

fn click_of(alloc: Global, line: &[u8]) -> Result<ClickRec, Why>
    ensures found { IfOk result (λ c. IsClick c × (line.now ≡ click_line c)) }
    ensures why { IfErr result (OrMemory (ClickWhy line.now)) }
{
    let (id, query, text) = click_parts(line)?;
    let text = Text::of_bytes(Origin::new(alloc), text, 0).map_err(|_| Why::Memory)?;
    Ok(ClickRec { id, query, text })
}

/// The id and the text of a line of the query log. Nothing is copied.
pub(crate) fn query_parts(line: &[u8]) -> Result<(EventId, &[u8]), Why>
    ensures found { IfOk result (λ parts. AreQueryParts parts.0 parts.1.now line.now) }
    ensures why { IfErr result (QueryWhy line.now) }
{
    if line.len() > MAX_LINE {
        return Err(Why::TooLong);
    }
    let (id, text) = split_once(line, b' ').ok_or(Why::Space)?;
    let id = id_of(id, Why::Id)?;
    check(text)?;
    Ok((id, text))
}

/// The ids and the text of a line of the click log. Nothing is copied.
pub(crate) fn click_parts(line: &[u8]) -> Result<(EventId, EventId, &[u8]), Why>
    ensures found { IfOk result (λ parts. AreClickParts parts.0 parts.1 parts.2.now line.now) }
    ensures why { IfErr result (ClickWhy line.now) }
{
    if line.len() > MAX_LINE {
        return Err(Why::TooLong);
    }
    let (id, rest) = split_once(line, b' ').ok_or(Why::Space)?;
    let (query, text) = split_once(rest, b' ').ok_or(Why::Space)?;
    let id = id_of(id, Why::Id)?;
    let query = id_of(query, Why::QueryId)?;
    check(text)?;
    Ok((id, query, text))
}

// The id that the bytes spell, or else the why that is handed in.
fn id_of(bytes: &[u8], why: Why) -> Result<EventId, Why>
    ensures found { IfOk result (λ id. IsId id × (bytes.now ≡ spell id)) }
    ensures why { IfErr result (λ w. (w ≡ why) × (IsIdText bytes.now → ⊥)) }
{
    parse(bytes).map_err(|_| why)
}
