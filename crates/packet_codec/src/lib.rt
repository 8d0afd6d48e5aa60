//! Packets as bytes: each has one spelling, which is read and written field by field.
#![tactic(auto)]

mod decoding;
mod encoding;
mod fault;
pub mod fields;
mod outcomes;
pub mod rows;
mod tags;

pub use decoding::decode;
pub use encoding::encode;
pub use fault::DecodeFault;
pub use fields::{Field, FieldFault};
pub use turn_defs::{Input, Node, Outcome, Packet, To};
pub use wire_core::Origin;
