//! A journal on a disk: records behind gates.
//!
//! A file is a gate byte, and then records, each of a length (four bytes, the high one first), a payload of at most 65,535
//! bytes and the next gate. Only 0xA5 is an open gate. A record counts once the gate before it is open, and a gate is opened
//! once the record behind it is on the disk. A file of no byte or one is a fresh journal.
#![tactic(auto)]

ghost use Rattle.std.specs.Prelude.{◌<◌, ◌^◌, length};

mod frame;
mod journal;
mod opening;
mod payloads;
mod reading;
mod record;
mod records;
pub mod rows;
mod writing;

pub use frame::MAX_PAYLOAD;
pub use journal::{AppendFault, Journal, JournalState};
pub use payloads::{Payloads, Walk};
pub use reading::JournalFault;
pub use record::{Appends, Record};
pub use records::RecordJournal;
pub use wire_core::Origin;
