//! How many shards there are, by a table over time, and which of them an id is of.
#![tactic(auto)]

pub mod laws;
mod table;
mod text;

pub use table::Table;

/// The most rows of a table.
pub const MAX_ROWS: usize = 4;

/// The most shards of a row.
pub const MAX_SHARDS: u8 = 16;

/// How many joiners a site may have: a run has so many at each site, beside its table.
pub const MOST_JOINERS: u8 = 4;

/// A row of a table: for ids from this timestamp on, in microseconds, so many shards.
#[derive(Clone, Copy, Debug, PartialEq, Eq)]
pub struct ShardRow {
    pub start: u64,
    pub count: u8,
}

/// The text is no table's. Its rows are counted from 0.
#[derive(Clone, Copy, Debug, PartialEq, Eq)]
pub struct BadTable {
    pub row: u8,
}

/// A row can't be put behind a table's rows.
#[derive(Clone, Copy, Debug, PartialEq, Eq)]
pub enum AddFault {
    /// There are as many rows as a table may have.
    Rows,
    /// The row doesn't start later than the last one, which starts here.
    Start { last: u64 },
}
