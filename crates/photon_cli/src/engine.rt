// The commands. A log is checked whole before it is used. A join runs both sites over a store until they
// rest, and what the disks keep then is reported; a drill does so over a store in memory, with a plan of what goes wrong, and a bulk
// run over logs of its own besides. A verification reports what the disks of a store keep.
mod bulk;
mod checked;
mod drill;
mod join;
mod plan;
mod read;
mod reshard;
mod run;
mod table;
mod verify;

pub use bulk::bulk_totals;
pub use drill::drill_logs;
pub use join::join_logs;
pub use reshard::reshard_command;
pub(crate) use run::REPLICAS;
pub use verify::verify_store;
