//! A journal of offsets, each above the one before.
#![tactic(auto)]

mod offsets;
pub mod rows;

pub use offsets::{OffsetJournal, Offsets, offset_record};
