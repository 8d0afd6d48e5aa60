// The payloads of a file, in the bytes that were read of it.
ghost use Rattle.std.specs.Prelude.{◌≡◌, true, false, take, drop, IfOk, IfSome, IfNone};
ghost use Rattle.gate_journal.specs.Gate.{record_size, is_whole, payloads_in};
ghost use Rattle.gate_journal.specs.Payloads.{left};

use crate::frame::MAX_PAYLOAD;
use crate::reading::OPEN;
use std::alloc::AllocError;
use std::marker::Model;
use wire_core::SharedBytes;

/// The payloads of a file's records, in their order. They stay in the bytes that were read, and none is copied. Contracts see
/// the list of them.
#[derive(Drop)]
pub struct Payloads {
    bytes: Vec<u8>,
}

impl Model for Payloads {
    ghost use Rattle.std.specs.Prelude.{List, ℕ};
    ghost use Rattle.gate_journal.specs.Gate.{payloads_in};

    ghost Value = { List (List ℕ) };

    ghost view = { λ payloads. payloads_in payloads.bytes.items };
}

impl Payloads {
    /// Those that the bytes begin with.
    pub(crate) fn new(bytes: Vec<u8>) -> Payloads
        ensures { result ≡ payloads_in bytes.items }
    {
        Payloads { bytes }
    }

    /// One after the other, each in constant time.
    pub fn iter(&self) -> Walk<'_>
        ensures { left result ≡ self.now }
    {
        Walk { rest: &self.bytes }
    }

    /// The bytes that they stand in.
    pub(crate) fn into_shared(self) -> Result<SharedBytes, AllocError>
        ensures { IfOk result (λ shared. payloads_in shared ≡ self) }
    {
        SharedBytes::new(self.bytes)
    }
}

/// A walk over payloads, seen as those that are left.
#[derive(Drop)]
pub struct Walk<'a> {
    pub(crate) rest: &'a [u8],
}

#[tactic(auto, using(crate::proofs::Loop::stepped))]
impl<'a> Iterator for Walk<'a> {
    ghost use Rattle.std.specs.Iterator.{YieldsFirstRef, item_count};
    ghost use Rattle.gate_journal.specs.Payloads.{left};

    type Item = &'a [u8];

    ghost next_gives = { YieldsFirstRef left };

    ghost remaining = { item_count left };

    fn next(&mut self) -> Option<&'a [u8]> {
        let (gate, behind) = self.rest.split_first()?;
        if *gate != OPEN {
            return None;
        }
        let payload = whole_record(behind)?;
        self.rest = &behind[4 + payload.len()..];
        Some(payload)
    }
}

// The payload of the whole record that the bytes begin with, if a gate stands behind it.
fn whole_record(bytes: &[u8]) -> Option<&[u8]>
    ensures some { IfSome result (λ payload. (is_whole bytes.now ≡ true) × (payload.now ≡ take (record_size bytes.now) (drop 4 bytes.now))) }
    ensures none { IfNone result (is_whole bytes.now ≡ false) }
{
    if bytes.len() < 4 {
        return None;
    }
    let (front, rest) = bytes.split_at(4);
    let size = u32::from_be_bytes([front[0], front[1], front[2], front[3]]) as usize;
    if size > MAX_PAYLOAD || rest.len() <= size {
        return None;
    }
    Some(&rest[..size])
}
