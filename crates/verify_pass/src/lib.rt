//! What the records of all journals say of each click id: which ids were registered and never written, and the line of
//! each click in the report.
#![tactic(auto)]

mod chosen;
mod classes;
mod distinct;
mod group;
mod journals;
pub mod laws;
mod lines;
mod starts;
mod states;
mod unwritten;

pub use classes::classify;
pub use journals::{Journals, NoteList, PairList};
pub use starts::{Latest, TooSoon};
pub use unwritten::missing;
