// A store that is read for verification: no node runs, and what the journals of its disks stand for doesn't change.
mod kept;
mod store;

pub use kept::KeptStore;
pub use store::read_store;
