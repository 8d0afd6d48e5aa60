// A joined pair.
use log_records::{ClickRec, QueryRec};
use registry_state::Token;

/// A click, the query that it came from, and the token under which they were joined.
#[derive(Debug, Drop)]
pub struct PairRec {
    pub click: ClickRec,
    pub query: QueryRec,
    pub token: Token,
}
