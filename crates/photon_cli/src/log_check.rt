// Checks a whole log as a stream, line by line, without holding it in memory.
mod check;
mod lines;
mod step;

pub use check::{CheckFault, check_log};
pub use lines::Lines;
