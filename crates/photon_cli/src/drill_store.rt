// The store in memory that a drill runs over: its disks stop at the calls that the drill's plan names.
mod build;
mod names;
pub mod rows;

pub use build::store_for;
