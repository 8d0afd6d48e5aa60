//! A journal of epochs, each above the one before.
#![tactic(auto)]

mod epochs;
pub mod rows;

pub use epochs::{EpochJournal, Epochs, RaiseFault, epoch_frame, raise};
