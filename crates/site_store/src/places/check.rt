// The kept places, against the lines of the click log.
ghost use Rattle.std.specs.Prelude.{◌≡◌, [], ◌∷◌, List, IfOk, IsErr, IsTrue};
ghost use Rattle.site_store.specs.Terms.{ClickLine, Counts, HoldsLines, Offset, Retry, end_from};
ghost use Rattle.site_store.specs.Causes.{AreTold};
ghost use Rattle.site_store.specs.Kept.{on_disk, places_at, IsTold};
ghost use Rattle.site_store.specs.Records.{kept_all};

use crate::disks::{AnyJournal, OpenDisk};
use crate::places::feeds::floor_below;
use outside::{Disk, DiskName, LogFile, ReadFault};
use run_fault::Misplaced;

/// The offset of a site, where it doesn't fit the click log. It reads at most 512 bytes of a log that was checked. An offset fits
/// where a line may start. `end` is the end of the last whole line.
pub fn misplaced_offset<L: LogFile>(
    log: &mut L,
    end: u64,
    site: u8,
    offset: u64,
) -> Result<Option<Misplaced>, ReadFault>
    ensures told { IsTrue L.tells → (ls : List ClickLine) → HoldsLines (L.bytes log.old) ls → end ≡ end_from 0 ls
        → IfOk result (IsTold ls (on_disk (Offset site) (offset ∷ []))) }
    ensures same { IsTrue L.tells → L.bytes log.new ≡ L.bytes log.old }
    ensures count { Counts (L.faults log.old) (L.faults log.new) (IsErr result) }
{
    let floor = floor_below(log, offset.min(end))?;
    if floor == offset {
        return Ok(None);
    }
    Ok(Some(Misplaced {
        disk: DiskName::Offset(site),
        kept: offset,
        floor,
    }))
}

// A pending position fits where a whole line starts.
fn misplaced_position<L: LogFile>(
    log: &mut L,
    end: u64,
    site: u8,
    position: u64,
) -> Result<Option<Misplaced>, ReadFault>
    ensures told { IsTrue L.tells → (ls : List ClickLine) → HoldsLines (L.bytes log.old) ls → end ≡ end_from 0 ls
        → IfOk result (IsTold ls (on_disk (Retry site) (position ∷ []))) }
    ensures same { IsTrue L.tells → L.bytes log.new ≡ L.bytes log.old }
    ensures count { Counts (L.faults log.old) (L.faults log.new) (IsErr result) }
{
    let floor = floor_below(log, position.min(end.saturating_sub(1)))?;
    if floor == position && end > 0 {
        return Ok(None);
    }
    Ok(Some(Misplaced {
        disk: DiskName::Retry(site),
        kept: position,
        floor,
    }))
}

/// The first of a site's pending positions, in the order of parking, that doesn't fit the click log. It reads at most 512 bytes for
/// each of a log that was checked. A position fits where a whole line starts. `end` is the end of the last whole line.
#[tactic(auto, using(crate::proofs::Telling::first_here))]
pub fn misplaced_pending<L: LogFile>(
    log: &mut L,
    end: u64,
    site: u8,
    pending: &[u64],
) -> Result<Option<Misplaced>, ReadFault>
    ensures told { IsTrue L.tells → (ls : List ClickLine) → HoldsLines (L.bytes log.old) ls → end ≡ end_from 0 ls
        → IfOk result (IsTold ls (on_disk (Retry site) pending.now)) }
    ensures same { IsTrue L.tells → L.bytes log.new ≡ L.bytes log.old }
    ensures count { Counts (L.faults log.old) (L.faults log.new) (IsErr result) }
{
    for position in pending {
        if let Some(misplaced) = misplaced_position(log, end, site, *position)? {
            return Ok(Some(misplaced));
        }
    }
    Ok(None)
}

// The first place that this disk keeps and that doesn't fit.
fn misplaced_on<D: Disk, L: LogFile>(
    disk: &OpenDisk<D>,
    log: &mut L,
    end: u64,
) -> Result<Option<Misplaced>, ReadFault>
    ensures told { IsTrue L.tells → (ls : List ClickLine) → HoldsLines (L.bytes log.old) ls → end ≡ end_from 0 ls
        → IfOk result (IsTold ls (places_at disk.now.name disk.now.kept)) }
    ensures same { IsTrue L.tells → L.bytes log.new ≡ L.bytes log.old }
    ensures count { Counts (L.faults log.old) (L.faults log.new) (IsErr result) }
{
    match &disk.journal {
        AnyJournal::Offset(journal) => match disk.name {
            DiskName::Offset(site) => misplaced_offset(log, end, site, journal.value().offset()),
            _ => unreachable!(),
        },
        AnyJournal::Retry(journal) => match disk.name {
            DiskName::Retry(site) => {
                misplaced_pending(log, end, site, journal.value().pending().as_slice())
            }
            _ => unreachable!(),
        },
        _ => Ok(None),
    }
}

/// The first place that doesn't fit the click log, if there is one, of those that these disks keep, in their order. `end` is the end
/// of the last whole line. An offset fits at the log's beginning and at the end of a whole line, a position where a whole line
/// starts.
///
/// It reads at most 512 bytes for each place of a log that was checked, with one call where a read gives all that it is asked
/// for, and allocates nothing.
pub(crate) fn first_misplaced<D: Disk, L: LogFile>(
    disks: &[OpenDisk<D>],
    log: &mut L,
    end: u64,
) -> Result<Option<Misplaced>, ReadFault>
    ensures first { IfOk result (AreTold L.tells (L.bytes log.old) end (kept_all disks.now)) }
    ensures same { IsTrue L.tells → L.bytes log.new ≡ L.bytes log.old }
    ensures count { Counts (L.faults log.old) (L.faults log.new) (IsErr result) }
{
    for disk in disks {
        if let Some(misplaced) = misplaced_on(disk, log, end)? {
            return Ok(Some(misplaced));
        }
    }
    Ok(None)
}
