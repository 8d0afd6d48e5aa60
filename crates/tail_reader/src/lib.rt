//! Reads a log line by line, from any place on.
#![tactic(auto)]

mod scan;
mod tail;
mod window;

pub use tail::{Next, Tail};
