// A store opened for a run of both sites: its disks, what they keep against what is asked, and its topology's record.
mod asked;
mod judging;
mod store;
mod topology;

pub(crate) use asked::open_for;
pub use store::open_store;
