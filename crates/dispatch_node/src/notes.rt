// Notes as the records that they are.
ghost use Rattle.std.specs.Prelude.{◌≡◌, IfOk};
ghost use Rattle.dispatch_node.specs.Terms.{record_of, told};

use air_bus::Payload;
use dispatch_core::DispatchNote;
use offset_journal::offset_record;
use retry_log::{Change, change_record};
use std::alloc::{AllocError, Global};

/// A note with its record.
#[derive(Drop)]
pub struct FramedNote {
    pub(crate) note: DispatchNote,
    pub(crate) bytes: Payload,
    ghost spelled: { bytes ≡ record_of (told note) },
}

impl FramedNote {
    pub(crate) fn new(alloc: Global, note: DispatchNote) -> Result<FramedNote, AllocError>
        ensures { IfOk result (λ framed. framed.note ≡ note) }
    {
        let bytes = Payload::from_slice(alloc, &record_bytes_of(note))?;
        Ok(FramedNote { note, bytes })
    }
}

// The record of a note, as the journals write it.
fn record_bytes_of(note: DispatchNote) -> [u8; 9]
    ensures { result ≡ record_of (told note) }
{
    match note {
        DispatchNote::Advance(end) => offset_record(end),
        DispatchNote::Park(position) => change_record(Change::Park(position)),
        DispatchNote::Settle(position) => change_record(Change::Settle(position)),
    }
}
