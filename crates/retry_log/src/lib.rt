//! A log of positions to be retried: each is parked, and settled later.
#![tactic(auto)]

mod changing;
mod retries;
pub mod rows;

pub use changing::{Change, change_record};
pub use retries::{Retries, RetryLog};
