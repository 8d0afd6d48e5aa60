// Whether the places that a store keeps fit the click log.
mod check;
mod feeds;
pub mod rows;

pub(crate) use check::first_misplaced;
pub use check::{misplaced_offset, misplaced_pending};
