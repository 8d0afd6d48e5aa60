// Writes that are on the disk when they return.
ghost use Rattle.std.specs.Prelude.{◌≡◌, ◌≤◌, ◌+◌, ◌^◌, ◌++◌, [], ◌∷◌, false, length, IsTrue, OnOk, IsErr, is_err};
ghost use Rattle.outside.specs.Disk.{Holds, Torn, Only, Throughout};
ghost use Rattle.outside.specs.Faults.{Counts};
ghost use Rattle.outside.specs.Plans.{MeetsPlan};
ghost use Rattle.gate_journal.specs.Disk.{IsSettled, HasRoom};
ghost use Rattle.gate_journal.specs.Gate.{records, IsOldOrNew};
ghost use Rattle.gate_journal.specs.Growth.{HasImage};

use crate::frame::Frame;
use outside::{Disk, DiskFault};

/// Writes bytes to a disk that holds all that it reads, and waits until it holds these too.
pub fn write_and_sync<D: Disk>(disk: &mut D, at: u64, bytes: &[u8]) -> Result<(), DiskFault>
    requires start { IsTrue D.tells → at ≤ length (D.seen disk.old) }
    requires settled { IsTrue D.tells → Only (D.seen disk.old) (D.image disk.old) }
    requires calls { 2 ≤ D.calls_left disk.old }
    requires room { length bytes.now ≤ D.bytes_left disk.old }
    ensures reads { IsTrue D.tells → OnOk result (D.image disk.new (D.seen disk.new)) }
    ensures limit { OnOk result (at + length bytes.now ≤ 2 ^ 63) }
    ensures written { IsTrue D.tells → OnOk result (Holds (D.seen disk.old) at bytes.now (D.seen disk.new)) }
    ensures durable { IsTrue D.tells → OnOk result (Only (D.seen disk.new) (D.image disk.new)) }
    ensures any_moment { IsTrue D.tells → Throughout D.image D.since disk.old disk.new (Torn at (length bytes.now) (D.seen disk.old)) }
    ensures begins { IsTrue D.tells → Throughout D.image D.since disk.old disk.new (HasImage (D.image disk.old)) }
    ensures up { IsTrue D.tells → D.is_down disk.old ≡ false → OnOk result (D.is_down disk.new ≡ false) }
    ensures made { IsTrue D.tells → D.is_down disk.old ≡ false → OnOk result (D.made disk.new ≡ D.made disk.old + 2) }
    ensures plan { IsTrue D.tells → D.is_down disk.old ≡ false → MeetsPlan D.stops D.made D.faults 2 (is_err result) disk.old disk.new }
    ensures count { Counts (D.faults disk.old) (D.faults disk.new) (IsErr result) }
    ensures calls_left { D.calls_left disk.old ≤ D.calls_left disk.new + 2 }
    ensures bytes_left { D.bytes_left disk.old ≤ D.bytes_left disk.new + length bytes.now }
{
    disk.write_at(at, bytes)?;
    disk.sync()
}

/// Adds a record behind the closed gate at this place: its body, a sync, the open gate, a sync. At `Ok` each image has it.
pub fn append_record<D: Disk>(disk: &mut D, gate: u64, frame: &Frame) -> Result<(), DiskFault>
    requires limit { gate ≤ 2 ^ 63 }
    requires settled { IsTrue D.tells → IsSettled (D.seen disk.old) (D.image disk.old) gate }
    requires room { HasRoom (D.calls_left disk.old) (D.bytes_left disk.old) (length frame.now) }
    ensures limit { OnOk result (gate + 5 + length frame.now ≤ 2 ^ 63) }
    ensures settled { IsTrue D.tells → OnOk result (IsSettled (D.seen disk.new) (D.image disk.new) (gate + 5 + length frame.now)) }
    ensures reads { IsTrue D.tells → OnOk result (D.image disk.new (D.seen disk.new)) }
    ensures records { IsTrue D.tells → OnOk result (records (D.seen disk.new) ≡ records (D.seen disk.old) ++ frame.now ∷ []) }
    ensures any_moment { IsTrue D.tells → Throughout D.image D.since disk.old disk.new (IsOldOrNew (records (D.seen disk.old)) frame.now) }
    ensures begins { IsTrue D.tells → Throughout D.image D.since disk.old disk.new (HasImage (D.image disk.old)) }
    ensures up { IsTrue D.tells → D.is_down disk.old ≡ false → OnOk result (D.is_down disk.new ≡ false) }
    ensures made { IsTrue D.tells → D.is_down disk.old ≡ false → OnOk result (D.made disk.new ≡ D.made disk.old + 4) }
    ensures plan { IsTrue D.tells → D.is_down disk.old ≡ false → MeetsPlan D.stops D.made D.faults 4 (is_err result) disk.old disk.new }
    ensures count { Counts (D.faults disk.old) (D.faults disk.new) (IsErr result) }
{
    let body = frame.body();
    write_and_sync(disk, gate + 1, body)?;
    let opened = frame.gate();
    write_and_sync(disk, gate, opened)?;
    Ok(())
}
