//! A journal whose last record counts: how many joiners a site has, and the table of shards.
#![tactic(auto)]

mod kept;
mod reading;
pub mod rows;
mod tables;
mod topology;

pub use kept::{Topologies, TopologyJournal};
pub use topology::{Topology, topology_frame};
