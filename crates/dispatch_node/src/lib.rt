//! A dispatcher over its offset journal, its retry log and the click log.
#![tactic(auto)]

mod asking;
mod clicks;
mod dispatcher;
mod journals;
mod node;
mod notes;

pub use dispatcher::{Dispatcher, HeldPlaces, PlacesKept};
pub use journals::Journals;
pub use node::{DispatchNode, dispatch_node, into_disks};
