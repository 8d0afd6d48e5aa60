// What a join of two logs is to print: definitions, with worked rows.
use crate::{ClickRec, QueryRec};
use event_id::EventId;

pub mod rows;

/// What became of a click id, as one line of the report.
#[derive(Debug, Drop)]
pub enum ReportLine {
    /// Joined: the click's pair was written.
    J { click: ClickRec, query: QueryRec },
    /// Missing: the id was claimed and its pair wasn't written.
    M(EventId),
    /// Expired: the id's timestamp lies below its bound.
    X(EventId),
    /// Unmatched: no query with the click's query id.
    U(EventId),
}
