// The record that is appended next, as it is written behind a gate.
ghost use Rattle.std.specs.Prelude.{◌≡◌, ◌≤◌, ◌+◌, ◌++◌, [], ◌∷◌, length, vec_len, vec_capacity};
ghost use Rattle.gate_journal.specs.declared.frame.TheConstants.{MAX_PAYLOAD};
ghost use Rattle.gate_journal.specs.Gate.{framed};

use crate::reading::OPEN;
use std::alloc::{AllocError, Global};
use std::marker::Model;

/// The most bytes of a payload.
pub const MAX_PAYLOAD: usize = 65_535;

/// A record as it stands in a file: an open gate, the payload's length as four bytes, the payload, and the next gate, which
/// is closed. It has room for the longest. Contracts see the payload.
#[derive(Drop)]
pub struct Frame {
    bytes: Vec<u8>,
}

impl Model for Frame {
    ghost use Rattle.std.specs.Prelude.{◌≡◌, ◌≤◌, ◌+◌, ◌∷◌, List, ℕ, length, vec_capacity};
    ghost use Rattle.gate_journal.specs.declared.frame.TheConstants.{MAX_PAYLOAD};
    ghost use Rattle.gate_journal.specs.Gate.{framed, payload_of};

    ghost Value = { List ℕ };

    ghost view = { λ frame. payload_of frame.bytes.items };

    ghost invariant = { λ frame. (frame.bytes.items ≡ 165 ∷ framed (payload_of frame.bytes.items)) × (length (payload_of frame.bytes.items) ≤ MAX_PAYLOAD) × (MAX_PAYLOAD + 6 ≤ vec_capacity frame.bytes) };
}

impl Frame {
    /// A frame round no byte, by one allocation.
    pub fn new(alloc: Global) -> Result<Frame, AllocError> {
        let mut bytes = Vec::with_capacity(alloc, MAX_PAYLOAD + 6)?;
        put_frame(&mut bytes, &[]);
        Ok(Frame { bytes })
    }

    /// Takes another payload. It allocates nothing.
    pub fn refill(&mut self, payload: &[u8])
        requires { length payload.now ≤ MAX_PAYLOAD }
        ensures { self.new ≡ payload.now }
    {
        self.bytes.clear();
        put_frame(&mut self.bytes, payload);
    }

    /// All the bytes, with the gate open.
    pub fn bytes(&self) -> &[u8]
        ensures { result.now ≡ 165 ∷ framed self.now }
    {
        &self.bytes
    }

    /// What is written behind the gate that stands: the length, the payload and the next gate.
    pub fn body(&self) -> &[u8]
        ensures bytes { result.now ≡ framed self.now }
        ensures fits { length self.now ≤ MAX_PAYLOAD }
    {
        &self.bytes[1..]
    }

    /// What is then written over that gate.
    pub fn gate(&self) -> &[u8]
        ensures { result.now ≡ 165 ∷ [] }
    {
        &self.bytes[..1]
    }
}

// Puts a frame into bytes that are empty and have room for it.
fn put_frame(bytes: &mut Vec<u8>, payload: &[u8])
    requires empty { bytes.old.items ≡ [] }
    requires fits { length payload.now ≤ MAX_PAYLOAD }
    requires room { MAX_PAYLOAD + 6 ≤ vec_capacity bytes.old }
    ensures framed { bytes.new.items ≡ 165 ∷ framed payload.now }
    ensures room { MAX_PAYLOAD + 6 ≤ vec_capacity bytes.new }
{
    let _ = bytes.push(OPEN);
    let _ = bytes.extend_from_slice(&(payload.len() as u32).to_be_bytes());
    let _ = bytes.extend_from_slice(payload);
    let _ = bytes.push(0);
}
