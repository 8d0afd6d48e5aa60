//! The dispatcher of a site: it has joiners join each click of the log, and moves its offset past the clicks that are
//! settled or parked. The rows of its turns stand in `Dispatcher.antt` of `turn_defs`; `DispatchCore` carries them.
#![tactic(auto)]

mod dealer;
mod dispatch;
mod input;
pub mod laws;
mod line;
mod outbox;
mod turns;
mod window;

pub use dispatch::DispatchCore;
pub use input::{DispatchInput, TakenLine};
pub use turns::{DispatchNote, Step, Turn};
