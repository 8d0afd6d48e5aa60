// The records of one disk, read again.
ghost use Rattle.std.specs.Prelude.{◌≡◌, ◌≤◌, false, IsTrue, IfOk, IfErr};
ghost use Rattle.site_store.specs.Terms.{MeetsPlan, Throughout};
ghost use Rattle.gate_journal.specs.Fault.{disk_failed};
ghost use Rattle.gate_journal.specs.Records.{Keeps, IsRefused};

use crate::ask;
use gate_journal::{JournalFault, Record, RecordJournal};
use outside::Disk;
use std::alloc::Global;

/// What the records stand for that a disk keeps as it reads.
pub(crate) fn read_again<D: Disk, R: Record>(alloc: Global, disk: &mut D) -> Result<R, JournalFault>
    ensures kept { IsTrue D.tells → IfOk result (λ value. Keeps R.keeps (R.kept value) (D.seen disk.old)) }
    ensures left { IsTrue D.tells → D.image disk.old (D.seen disk.old) }
    ensures err { IfErr result (λ e. IsRefused R.damaged D.tells (D.seen disk.old) (D.faults disk.old) (D.faults disk.new) e) }
    ensures seen { IsTrue D.tells → D.seen disk.new ≡ D.seen disk.old }
    ensures moments { IsTrue D.tells → Throughout D.image D.since disk.old disk.new (D.image disk.old) }
    ensures plan { IsTrue D.planned → D.is_down disk.old ≡ false → MeetsPlan D.stops D.made D.faults 0 (disk_failed result) disk.old disk.new }
    ensures count { D.faults disk.old ≤ D.faults disk.new }
{
    let Ok(()) = ask(disk) else {
        return Err(JournalFault::Disk);
    };
    RecordJournal::<D, R>::read_again(alloc, disk)
}
