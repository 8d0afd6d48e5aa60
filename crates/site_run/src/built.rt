// The nodes of both sites, built over the opened disks of a store and its logs, and taken apart again.
mod building;
mod logs;
mod parting;
mod parts;
mod stock;
mod taking;

pub use building::{Built, build};
pub use logs::Logs;
pub(crate) use parting::{joiner_place, server_disk};
pub use parting::{Parting, apart};
pub use parts::{Parts, Room};
pub use stock::{Making, Stock};
pub(crate) use taking::take_last;
