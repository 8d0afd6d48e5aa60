//! The words of the program: the command that they ask for, with the values of its options.
#![tactic(auto)]

mod asked;
mod commands;
mod options;
mod parse;

pub use asked::{Asked, BulkOptions, NodeOptions, RunOptions, WordsFault};
pub use parse::parse_words;
