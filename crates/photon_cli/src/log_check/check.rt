// Whole logs.
ghost use Rattle.std.specs.Prelude.{◌≡◌, ◌≢◌, ◌<◌, ◌↔◌, List, length, Err, IfOk, IsErr, IsTrue};
ghost use Rattle.photon_cli.specs.Terms.{BadLine as Bad, Counts, MAX_LOG, Refuses};
ghost use Rattle.log_records.specs.declared.why.Why.TheVariants as why;
ghost use Rattle.photon_cli.specs.declared.log_check.check.CheckFault.TheVariants as fault;
ghost use Rattle.photon_cli.specs.CheckedLogs.{IsChecked};

use crate::log_check::lines::{Lines, read_lines};
use log_records::{BadLine, MAX_LOG, Record, Why};
use outside::{LogFile, ReadFault};
use std::alloc::Global;
use tail_reader::Tail;

/// Why a log isn't checked to its end.
#[derive(Clone, Copy, Debug, PartialEq, Eq)]
pub enum CheckFault {
    /// The first line that is refused, and the first why that applies, which is never `Why::Memory`.
    Refused(BadLine),
    /// The log couldn't be read.
    Read,
    /// There was no memory. No clause says when.
    Memory,
}

/// Checks a whole log of such records, and counts its lines. Bytes behind the last line feed are no line yet, and no fault. The log is
/// given back.
///
/// It reads the log once from front to end, in blocks of up to 4 KiB, and for each line whose id an earlier line has that
/// first line again: up to two blocks more. For n lines it takes O(n log n) comparisons of ids. While it runs it takes under
/// 64 bytes of memory for each distinct id, and the text of one line; afterwards 16 bytes a line where ids are to be kept, else none.
pub fn check_log<K: Record, L: LogFile>(
    alloc: Global,
    log: L,
    keep: bool,
) -> (L, Result<Lines, CheckFault>)
    ensures found { IsTrue L.tells → IfOk result.1 (λ read. (rs : List K) × IsChecked K.spelled K.is_record K.own_id keep (L.bytes log) rs read) }
    ensures refused { IsTrue L.tells → (bad : Bad) → result.1 ≡ Err (fault.Refused bad) → Refuses K.spelled K.is_record K.own_id K.whys (L.bytes log) bad }
    ensures why { (bad : Bad) → result.1 ≡ Err (fault.Refused bad) → bad.why ≢ why.Memory }
    ensures same { IsTrue L.tells → L.bytes result.0 ≡ L.bytes log }
    ensures count { Counts (L.faults log) (L.faults result.0) (result.1 ≡ Err fault.Read) }
{
    let mut tail = Tail::new(log, 0);
    let read = read_lines::<K, L>(alloc, &mut tail, keep);
    let mut log = tail.into_log();
    let lines = match read {
        Ok(lines) => lines,
        Err(fault) => return (log, Err(fault)),
    };
    match is_too_big(&mut log) {
        Err(_) => (log, Err(CheckFault::Read)),
        Ok(false) => (log, Ok(lines)),
        Ok(true) => {
            let line = lines.count.saturating_add(1);
            let why = Why::TooBig;
            (log, Err(CheckFault::Refused(BadLine { line, why })))
        }
    }
}

// Whether the log has a byte at place `MAX_LOG`.
fn is_too_big<L: LogFile>(log: &mut L) -> Result<bool, ReadFault>
    ensures big { IsTrue L.tells → IfOk result (λ big. IsTrue big ↔ (MAX_LOG < length (L.bytes log.old))) }
    ensures same { IsTrue L.tells → L.bytes log.new ≡ L.bytes log.old }
    ensures count { Counts (L.faults log.old) (L.faults log.new) (IsErr result) }
{
    let mut byte = [0; 1];
    let n = log.read_at(MAX_LOG, &mut byte)?;
    Ok(n > 0)
}
