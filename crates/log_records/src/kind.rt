// The two kinds of record, as the check of a log sees them.
ghost use Rattle.std.specs.Prelude.{◌≡◌, ◌<◌, ℕ, List, length, IfOk, IfErr};
ghost use Rattle.event_id.specs.declared.id.EventId.{EventId as Id};
ghost use Rattle.log_records.specs.declared.lines.TheConstants.{MAX_LINE};
ghost use Rattle.log_records.specs.declared.why.Why.{Why as WhyOf};
ghost use Rattle.log_records.specs.declared.why.Why.TheVariants as why;
ghost use Rattle.log_records.specs.Line.{query_line, click_line, IsQuery, IsClick, QueryWhy, ClickWhy};

use crate::lines::{click_parts, query_parts};
use crate::{ClickRec, QueryRec, Why};
use event_id::EventId;

/// A kind of record, which has a line of its own in a log.
pub trait Record: Drop {
    /// The line, without its line feed.
    ghost spelled: { Self → List ℕ };

    /// Whether it is in the grammar.
    ghost is_record: { Self → Type 0 };

    ghost own_id: { Self → Id };

    /// What is wrong with a line that isn't in the grammar.
    ghost whys: { List ℕ → WhyOf → Type 0 };

    /// The id of the line's record. Nothing is copied.
    fn id_in(line: &[u8]) -> Result<EventId, Why>
        ensures found { IfOk result (λ id. (r : Self) × is_record r × (line.now ≡ spelled r) × (own_id r ≡ id)) }
        ensures why { IfErr result (whys line.now) };

    /// Of a line of over `MAX_LINE` bytes that is the first that is wrong.
    fn long_lines()
        ensures { (line : List ℕ) → MAX_LINE < length line → whys line why.TooLong };
}

impl Record for QueryRec {
    ghost spelled = { query_line };

    ghost is_record = { IsQuery };

    ghost own_id = { λ q. q.id };

    ghost whys = { QueryWhy };

    fn id_in(line: &[u8]) -> Result<EventId, Why> {
        let (id, _) = query_parts(line)?;
        Ok(id)
    }

    fn long_lines() {}
}

impl Record for ClickRec {
    ghost spelled = { click_line };

    ghost is_record = { IsClick };

    ghost own_id = { λ c. c.id };

    ghost whys = { ClickWhy };

    fn id_in(line: &[u8]) -> Result<EventId, Why> {
        let (id, _, _) = click_parts(line)?;
        Ok(id)
    }

    fn long_lines() {}
}
