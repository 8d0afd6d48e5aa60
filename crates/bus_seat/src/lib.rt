//! A history that several threads make. Each adds its entries under one turn.
#![tactic(auto)]

mod bus;
mod order;
mod round;
mod seat;
mod view;

pub use bus::Bus;
pub use round::Round;
pub use seat::{Place, Seat, Seen};
pub use view::{Base, Ended, View};
