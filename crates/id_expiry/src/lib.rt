//! A registry that keeps its ids by time too, so that those below a bound are found without a look at the others.
#![tactic(auto)]

mod by_time;
mod timed;

pub use timed::TimedRegistry;
