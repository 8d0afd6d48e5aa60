// The two logs, opened and checked whole.
ghost use Rattle.std.specs.Prelude.{◌≡◌, ℕ, List, map, IfOk, IfErr, IsSomeAnd, IsTrue, Err};
ghost use Rattle.photon_cli.specs.Terms.{ClickRec as Click, Clicks, Counts, LogName as LogKind, Queries, QueryRec as Query, Refuses as LogRefuses, Why as Reason};
ghost use Rattle.photon_cli.specs.CheckedLogs.{EndsAt, IsChecked};
ghost use Rattle.run_fault.specs.declared.fault.RunFault.TheVariants as fault;
ghost use Rattle.photon_cli.specs.Join.{AreLogs, Refuses};
ghost use Rattle.photon_cli.specs.LogFaults.{IsLogFault, failed_read};

use crate::log_check::{CheckFault, Lines, check_log};
use log_records::{ClickRec, QueryRec, Record};
use outside::Source;
use site_run::{LogName, RunFault, open_log};
use std::alloc::Global;

/// Opens the log of that name, checks it whole, line by line, and shuts it. No more than a line of it, and 16 bytes for each id that
/// is kept, are held in memory.
pub fn check_in<K: Record, F: Source>(
    alloc: Global,
    files: &mut F,
    name: &str,
    log: LogName,
    keep: bool,
) -> Result<Lines, RunFault>
    ensures found { IsTrue F.Log.tells → IfOk result (λ read. IsSomeAnd (F.bytes files.old name.now) (λ bytes. (rs : List K) × IsChecked K.spelled K.is_record K.own_id keep bytes rs read)) }
    ensures refused { IsTrue F.Log.tells → (line : ℕ) (w : Reason) → result ≡ Err (fault.Refused log line w) → IsSomeAnd (F.bytes files.old name.now) (λ bytes. LogRefuses K.spelled K.is_record K.own_id K.whys bytes (record { line = line; why = w })) }
    ensures same { IsTrue F.Log.tells → (n : List ℕ) → F.bytes files.new n ≡ F.bytes files.old n }
    ensures fault { IfErr result (IsLogFault log) }
    ensures count { Counts (F.faults files.old) (F.faults files.new) (result ≡ Err (failed_read log)) }
{
    let file = open_log(alloc, files, name, log)?;
    let (file, checked) = check_log::<K, F::Log>(alloc, file, keep);
    files.shut(file);
    match checked {
        Ok(lines) => Ok(lines),
        Err(CheckFault::Refused(bad)) => Err(RunFault::Refused {
            log,
            line: bad.line,
            why: bad.why,
        }),
        Err(CheckFault::Read) => Err(RunFault::Read(log)),
        Err(CheckFault::Memory) => Err(RunFault::Memory),
    }
}

/// Checks both logs whole, the queries first, and gives the clicks' ids.
pub fn checked_logs<F: Source>(
    alloc: Global,
    files: &mut F,
    queries: &str,
    clicks: &str,
) -> Result<Lines, RunFault>
    ensures valid { IsTrue F.Log.tells → IfOk result (λ checked. (qs : List Query) × (cs : List Click) × AreLogs (F.bytes files.old) queries.now clicks.now qs cs × (checked.ids.items ≡ map (λ (c : Click). c.id) cs)) }
    ensures end { IsTrue F.Log.tells → IfOk result (λ checked. IsSomeAnd (F.bytes files.old clicks.now) (λ log. EndsAt log checked.end)) }
    ensures refused { IsTrue F.Log.tells → (log : LogKind) (line : ℕ) (w : Reason) → result ≡ Err (fault.Refused log line w)
        → Refuses (F.bytes files.old) queries.now clicks.now log (record { line = line; why = w }) }
    ensures same { IsTrue F.Log.tells → (n : List ℕ) → F.bytes files.new n ≡ F.bytes files.old n }
    ensures fault { IfErr result (λ f. (log : LogKind) × IsLogFault log f) }
    ensures count { Counts (F.faults files.old) (F.faults files.new) ((log : LogKind) × (result ≡ Err (failed_read log))) }
{
    check_in::<QueryRec, F>(alloc, files, queries, LogName::Queries, false)?;
    let checked = check_in::<ClickRec, F>(alloc, files, clicks, LogName::Clicks, true)?;
    Ok(checked)
}
