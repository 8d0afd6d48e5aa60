//! The queries of a log that were read so far, by id.
#![tactic(auto)]

mod index;
mod puts;
mod read;
mod recent;
pub mod rows;
mod scan;
mod search;
mod store;
mod take;

pub use store::{EventStore, LookFault, Lookup, Step};
