//! Why a run or a command gives up, with its exit status and its line on standard error; and the line of a table.
#![tactic(auto)]

mod fault;
mod lines;
pub mod rows;
mod tables;

pub use directory_store::{NAME_ROOM, disk_text};
pub use fault::{LogName, Mismatch, Misplaced, RunFault, StorePlace, Unfit};
pub use lines::{status, tell};
pub use tables::write_table;
