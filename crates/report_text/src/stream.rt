// Writing bytes to a sink, all of them.
ghost use Rattle.std.specs.Prelude.{◌≡◌, ◌++◌, OnOk, OnErr, IsErr, IsTrue, List, []};
ghost use Rattle.std.specs.List.{flat_map};
ghost use Rattle.outside.specs.Faults.{Counts};
ghost use Rattle.report_text.specs.Stream.{Passed, TookPrefix};

use arrayvec::ArrayVec;
use outside::{Sink, WriteFault};

/// Bytes that wait for the next call of the sink.
pub type Buffer = ArrayVec<u8, 8192>;

/// Writes the bytes, and goes on after short writes. At a fault a prefix of them went out. It takes no memory,
/// and calls the sink once, and once more for each short write.
pub fn write_all<K: Sink>(sink: &mut K, bytes: &[u8]) -> Result<(), WriteFault>
    ensures all { IsTrue K.tells → OnOk result (K.held sink.new ≡ K.held sink.old ++ bytes.now) }
    ensures prefix { IsTrue K.tells → OnErr result (TookPrefix (K.held sink.old) bytes.now (K.held sink.new)) }
    ensures count { Counts (K.faults sink.old) (K.faults sink.new) (IsErr result) }
{
    let mut done = 0;
    while done < bytes.len() {
        done += sink.write(&bytes[done..])?;
    }
    Ok(())
}

/// Writes what waits in the buffer.
pub fn flush<K: Sink>(sink: &mut K, buffer: &mut Buffer) -> Result<(), WriteFault>
    ensures all { IsTrue K.tells → OnOk result (K.held sink.new ≡ K.held sink.old ++ buffer.old.items) }
    ensures empty { OnOk result (buffer.new.items ≡ []) }
    ensures prefix { IsTrue K.tells → OnErr result (TookPrefix (K.held sink.old) buffer.old.items (K.held sink.new)) }
    ensures count { Counts (K.faults sink.old) (K.faults sink.new) (IsErr result) }
{
    write_all(sink, buffer.as_slice())?;
    buffer.clear();
    Ok(())
}

/// Puts the bytes into the buffer, or past it where they are too long for it.
pub fn put<K: Sink>(sink: &mut K, buffer: &mut Buffer, bytes: &[u8]) -> Result<(), WriteFault>
    ensures passed { IsTrue K.tells → OnOk result (Passed (K.held sink.old) (buffer.old.items ++ bytes.now) (K.held sink.new) buffer.new.items) }
    ensures prefix { IsTrue K.tells → OnErr result (TookPrefix (K.held sink.old) (buffer.old.items ++ bytes.now) (K.held sink.new)) }
    ensures count { Counts (K.faults sink.old) (K.faults sink.new) (IsErr result) }
{
    if buffer.try_extend_from_slice(bytes).is_ok() {
        return Ok(());
    }
    flush(sink, buffer)?;
    if buffer.try_extend_from_slice(bytes).is_ok() {
        return Ok(());
    }
    write_all(sink, bytes)
}

/// Puts the parts, one behind another.
pub fn put_all<K: Sink>(
    sink: &mut K,
    buffer: &mut Buffer,
    parts: &[&[u8]],
) -> Result<(), WriteFault>
    ensures passed { IsTrue K.tells → OnOk result (Passed (K.held sink.old) (buffer.old.items ++ flat_map (λ p. p.now) parts.now) (K.held sink.new) buffer.new.items) }
    ensures prefix { IsTrue K.tells → OnErr result (TookPrefix (K.held sink.old) (buffer.old.items ++ flat_map (λ p. p.now) parts.now) (K.held sink.new)) }
    ensures count { Counts (K.faults sink.old) (K.faults sink.new) (IsErr result) }
{
    for part in parts {
        put(sink, buffer, part)?;
    }
    Ok(())
}
