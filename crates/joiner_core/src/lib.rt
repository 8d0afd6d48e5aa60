//! A joiner: it looks for a click's query, registers the click's id under a token of its own, and writes the pair once
//! that is granted. The rows of its turns stand in `Joiner.antt` of `turn_defs`.
//!
//! A turn is decided first, then its note is written to a disk, then it is kept: only that changes what the joiner knows.
#![tactic(auto)]

mod flights;
mod input;
pub mod laws;
mod node_core;
mod turn;

pub use input::{JoinerInput, Looked};
pub use node_core::JoinerCore;
pub use turn::{Change, JoinerNote, Turn};
