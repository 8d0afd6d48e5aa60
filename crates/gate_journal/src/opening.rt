// Opening what is on a disk.
ghost use Rattle.std.specs.Prelude.{◌≡◌, ◌≤◌, ◌<◌, ◌^◌, ℕ, List, false, length, IsTrue, IfOk, IfErr, OnOk, OnErr};
ghost use Rattle.outside.specs.Disk.{Only, Throughout};
ghost use Rattle.outside.specs.Faults.{Counts, Rose};
ghost use Rattle.outside.specs.Plans.{MeetsPlan};
ghost use Rattle.gate_journal.specs.Disk.{IsSettled};
ghost use Rattle.gate_journal.specs.Fault.{disk_failed};
ghost use Rattle.gate_journal.specs.Gate.{StandsFor, spans};
ghost use Rattle.gate_journal.specs.Opening.{IsOpened, IsRefused, IsRefusedAgain};

use crate::reading::read_records;
use crate::writing::write_and_sync;
use crate::{JournalFault, Payloads};
use outside::{Disk, DiskFault};
use std::alloc::Global;

impl From<DiskFault> for JournalFault {
    ghost use Rattle.std.specs.Prelude.{◌≡◌};
    ghost use Rattle.gate_journal.specs.declared.reading.JournalFault.TheVariants.{Disk};

    ghost from_gives = { λ _ e. e ≡ Disk };

    fn from(_: DiskFault) -> Self {
        JournalFault::Disk
    }
}

/// All the bytes of a disk, in one allocation.
pub fn read_disk<D: Disk>(alloc: Global, disk: &mut D) -> Result<Vec<u8>, JournalFault>
    ensures reads { IsTrue D.tells → OnOk result (D.image disk.new (D.seen disk.new)) }
    ensures bytes { IsTrue D.tells → IfOk result (λ bytes. bytes.items ≡ D.seen disk.old) }
    ensures limit { IfOk result (λ bytes. length bytes.items ≤ 2 ^ 63) }
    ensures err { IfErr result (λ e. IsRefused D.tells (D.seen disk.old) (D.faults disk.old) (D.faults disk.new) e) }
    ensures seen { IsTrue D.tells → D.seen disk.new ≡ D.seen disk.old }
    ensures any_moment { IsTrue D.tells → Throughout D.image D.since disk.old disk.new (D.image disk.old) }
    ensures plan { IsTrue D.planned → D.is_down disk.old ≡ false → MeetsPlan D.stops D.made D.faults 0 (disk_failed result) disk.old disk.new }
    ensures count { D.faults disk.old ≤ D.faults disk.new }
    ensures up { IsTrue D.tells → D.is_down disk.old ≡ false → OnOk result (D.is_down disk.new ≡ false) }
    ensures calls_left { D.calls_left disk.old ≤ D.calls_left disk.new }
    ensures bytes_left { D.bytes_left disk.old ≤ D.bytes_left disk.new }
{
    let len = disk.len()?;
    let mut bytes = vec![in alloc; 0; len as usize]?;
    disk.read(0, &mut bytes)?;
    Ok(bytes)
}

#[tactic(auto, unfolding(crate::specs::Gate::reading))]
/// The records on a disk and the place of their closed gate, once they are all on it. The first call is a sync, so that no
/// later stop can take back what is read. A fresh disk gets a closed gate.
pub fn open_disk<D: Disk>(alloc: Global, disk: &mut D) -> Result<(Payloads, u64), JournalFault>
    ensures records { IsTrue D.tells → IfOk result (λ r. StandsFor r.0 (D.seen disk.old) × StandsFor r.0 (D.seen disk.new)) }
    ensures settled { IsTrue D.tells → IfOk result (λ r. IsSettled (D.seen disk.new) (D.image disk.new) r.1) }
    ensures limit { IfOk result (λ r. r.1 ≤ 2 ^ 63) }
    ensures place { IfOk result (λ r. r.1 ≡ spans r.0) }
    ensures up { IsTrue D.tells → OnOk result (D.is_down disk.new ≡ false) }
    ensures err { IfErr result (λ e. IsRefused D.tells (D.seen disk.old) (D.faults disk.old) (D.faults disk.new) e) }
    ensures any_moment { IsTrue D.tells → Throughout D.image D.since disk.old disk.new (IsOpened (D.image disk.old)) }
    ensures plan { IsTrue D.planned → D.is_down disk.old ≡ false → MeetsPlan D.stops D.made D.faults 3 (disk_failed result) disk.old disk.new }
    ensures count { D.faults disk.old ≤ D.faults disk.new }
    ensures reads { IsTrue D.tells → OnOk result (D.image disk.new (D.seen disk.new)) }
{
    disk.make_room(alloc, 3, 1)?;
    disk.sync()?;
    let bytes = read_disk(alloc, disk)?;
    if bytes.len() <= 1 {
        write_and_sync(disk, 0, &[0])?;
        return Ok((Payloads::new(Vec::new(alloc)), 0));
    }
    read_records(bytes)
}

/// The same of a disk that a stop left.
pub fn reopen_disk<D: Disk>(alloc: Global, disk: &mut D) -> Result<(Payloads, u64), JournalFault>
    ensures records { IsTrue D.tells → IfOk result (λ r. StandsFor r.0 (D.seen disk.new)) }
    ensures settled { IsTrue D.tells → IfOk result (λ r. IsSettled (D.seen disk.new) (D.image disk.new) r.1) }
    ensures limit { IfOk result (λ r. r.1 ≤ 2 ^ 63) }
    ensures place { IfOk result (λ r. r.1 ≡ spans r.0) }
    ensures up { IsTrue D.tells → OnOk result (D.is_down disk.new ≡ false) }
    ensures reads { IsTrue D.tells → OnOk result (D.image disk.new (D.seen disk.new)) }
    ensures err { IfErr result (λ e. IsRefusedAgain D.tells (D.image disk.old) (D.faults disk.old) (D.faults disk.new) e) }
    ensures any_moment { IsTrue D.tells → Throughout D.image D.since disk.old disk.new (IsOpened (D.image disk.old)) }
    ensures plan { IsTrue D.planned → MeetsPlan D.stops D.made D.faults 3 (disk_failed result) disk.old disk.new }
    ensures count { D.faults disk.old ≤ D.faults disk.new }
{
    disk.make_room(alloc, 1, 0)?;
    disk.reopen()?;
    open_disk(alloc, disk)
}

/// The records of the bytes as they read, with no changing call.
pub fn records_of<D: Disk>(alloc: Global, disk: &mut D) -> Result<Payloads, JournalFault>
    ensures place { IfOk result (λ records. spans records ≤ 2 ^ 63) }
    ensures records { IsTrue D.tells → IfOk result (λ records. StandsFor records (D.seen disk.old)) }
    ensures err { IfErr result (λ e. IsRefused D.tells (D.seen disk.old) (D.faults disk.old) (D.faults disk.new) e) }
    ensures seen { IsTrue D.tells → D.seen disk.new ≡ D.seen disk.old }
    ensures any_moment { IsTrue D.tells → Throughout D.image D.since disk.old disk.new (D.image disk.old) }
    ensures plan { IsTrue D.planned → D.is_down disk.old ≡ false → MeetsPlan D.stops D.made D.faults 0 (disk_failed result) disk.old disk.new }
    ensures count { D.faults disk.old ≤ D.faults disk.new }
{
    let bytes = read_disk(alloc, disk)?;
    if bytes.len() <= 1 {
        return Ok(Payloads::new(Vec::new(alloc)));
    }
    let (records, _) = read_records(bytes)?;
    Ok(records)
}
