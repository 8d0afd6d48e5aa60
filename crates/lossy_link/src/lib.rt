//! A drill's plan: which packets of a link are dropped, repeated or late, at which calls a disk stops, and which
//! replica is dead. It is read from JSON.
#![tactic(auto)]

mod bad_plan;
mod entries;
mod members;
mod plan;
mod read;
pub mod rows;
mod words;

pub use bad_plan::{BadPlan, Field};
pub use outside::Image;
pub use plan::{DiskKind, Fate, Kind, Plan, PlanStop, Rule};
pub use read::MOST_BYTES;
