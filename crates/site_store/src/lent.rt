// The disks of a run, each under its name: what they keep is read back, and then they are given back to their store.
mod disk;
mod giving;
mod reading;
mod records;

pub use disk::LentDisk;
pub use giving::give_all;
pub(crate) use reading::ReadAs;
pub use reading::read_back;
