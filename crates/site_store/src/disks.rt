// The disks of a state directory, opened together and given back together.
mod all;
mod asking;
mod bare;
mod checks;
pub mod laws;
mod names;
mod open_disk;
mod opened;
pub(crate) mod opening;
mod record;

pub use all::{OpenStore, give_back, open_disks};
pub use asking::ask;
pub(crate) use bare::{give_bare, journals_of};
pub use checks::{first_limit, topology_misfit};
pub use open_disk::{AnyJournal, OpenDisk};
pub use opened::OpenedDisk;
pub use record::write_topology;
