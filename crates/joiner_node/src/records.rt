// Notes with their records.
ghost use Rattle.std.specs.Prelude.{◌≡◌, IfOk};
ghost use Rattle.joiner_node.specs.Terms.{record_of, IsWritten, note_of};

use air_bus::Payload;
use epoch_journal::epoch_frame;
use joiner_core::JoinerNote;
use output_log::pair_frame;
use std::alloc::{AllocError, Global};

/// A note with its record, as its disk and the bus take it.
#[derive(Drop)]
pub struct FramedNote {
    pub(crate) note: JoinerNote,
    pub(crate) bytes: Payload,
    ghost framed: { bytes ≡ record_of (note_of note) },
}

// Linear in the note.
pub(crate) fn framed(alloc: Global, note: &JoinerNote) -> Result<FramedNote, AllocError>
    requires { IsWritten note.now }
    ensures { IfOk result (λ framed. framed.note ≡ note.now) }
{
    let bytes = recorded(alloc, note)?;
    let note = note.share()?;
    Ok(FramedNote { note, bytes })
}

// The record of a note.
fn recorded(alloc: Global, note: &JoinerNote) -> Result<Payload, AllocError>
    requires { IsWritten note.now }
    ensures { IfOk result (λ bytes. bytes ≡ record_of (note_of note.now)) }
{
    match note {
        JoinerNote::Epoch(epoch) => Payload::from_slice(alloc, &epoch_frame(*epoch)),
        JoinerNote::Pair(pair) => {
            let frame = pair_frame(alloc, pair)?;
            Payload::new(frame.into_vec())
        }
    }
}
