//! Logs made from two numbers: a seed, and how many clicks.
#![tactic(auto)]

mod generator;
pub mod laws;
mod lines;
mod logs;
pub mod rows;

pub use logs::make_logs;
