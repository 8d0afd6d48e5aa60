//! The store of a state directory: its disks opened together in their order, what they keep held against what is asked
//! and against the logs, and read back and given back again.
#![tactic(auto)]

pub mod adding;
pub mod disks;
mod lent;
mod opening;
pub mod places;
mod reading;

pub use adding::add_row;
pub use disks::{
    AnyJournal, OpenDisk, OpenStore, OpenedDisk, ask, first_limit, give_back, open_disks,
    topology_misfit, write_topology,
};
pub use lent::{LentDisk, give_all, read_back};
pub use opening::open_store;
pub use places::{misplaced_offset, misplaced_pending};
pub use reading::{KeptStore, read_store};
