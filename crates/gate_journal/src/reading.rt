// Reading a file of records by its gates.
ghost use Rattle.std.specs.Prelude.{◌≡◌, ◌<◌, length, IfOk, IfErr, Ok};
ghost use Rattle.gate_journal.specs.Gate.{reading, spans};
ghost use Rattle.gate_journal.specs.Fault.{FailsAs};

use crate::payloads::{Payloads, Walk};
use std::alloc::AllocError;

/// The one value of an open gate. Every other counts as closed.
pub const OPEN: u8 = 0xA5;

/// Why a journal isn't opened.
#[derive(Clone, Copy, Debug, PartialEq, Eq)]
pub enum JournalFault {
    /// An open gate, the one before this place, has no whole record behind it.
    Damaged { at: u64 },
    /// The disk failed in this call.
    Disk,
    /// Memory was wanting.
    Memory,
}

impl From<AllocError> for JournalFault {
    ghost use Rattle.std.specs.Prelude.{◌≡◌};
    ghost use Rattle.gate_journal.specs.declared.reading.JournalFault.TheVariants.{Memory};

    ghost from_gives = { λ _ e. e ≡ Memory };

    fn from(_: AllocError) -> Self {
        JournalFault::Memory
    }
}

#[tactic(auto, using(crate::proofs::Loop::within, crate::proofs::Loop::shut_there, crate::proofs::Loop::torn_there))]
/// The payloads of a file that isn't fresh, and the place of its closed gate.
pub fn read_records(bytes: Vec<u8>) -> Result<(Payloads, u64), JournalFault>
    requires { 0 < length bytes.items }
    ensures ok { IfOk result (λ r. (reading bytes.items ≡ Ok (r.0, r.1)) × (r.1 < length bytes.items) × (r.1 ≡ spans r.0)) }
    ensures err { IfErr result (λ e. FailsAs (reading bytes.items) e) }
{
    let mut gate = 0;
    for payload in (Walk { rest: &bytes }) {
        gate += 5 + payload.len();
    }
    if bytes[gate] == OPEN {
        return Err(JournalFault::Damaged {
            at: gate as u64 + 1,
        });
    }
    Ok((Payloads::new(bytes), gate as u64))
}
