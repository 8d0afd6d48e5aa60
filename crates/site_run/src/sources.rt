// The logs of a run.
ghost use Rattle.std.specs.Prelude.{◌≡◌, ◌⊎◌, ◌≤◌, List, ℕ, Some, length, IsTrue, IfOk, IfErr, Err};
ghost use Rattle.site_run.specs.Terms.{Counts, Each, Mem, Rose};
ghost use Rattle.site_run.specs.Logs.{IsOfLogs, name_of};
ghost use Rattle.run_fault.specs.declared.fault.RunFault.TheVariants as fault;
ghost use Rattle.site_run.specs.Making.{AreEnough};
ghost use Rattle.time_shards.specs.declared.TheConstants.{MOST_JOINERS};

use crate::built::Logs;
use crate::{LogName, Names, RunFault};
use outside::{OpenFault, Source};
use std::alloc::Global;

/// Shuts logs.
pub(crate) fn shut_all<F: Source>(files: &mut F, logs: Vec<F::Log>)
    ensures rose { (l : F.Log) → Mem l logs.items → 1 ≤ F.Log.faults l → Rose (F.faults files.old) (F.faults files.new) }
    ensures same { IsTrue F.Log.tells → (n : List ℕ) → F.bytes files.new n ≡ F.bytes files.old n }
    ensures count { F.faults files.old ≤ F.faults files.new }
{
    let mut logs = logs;
    while let Some(log) = logs.pop() {
        files.shut(log);
    }
    logs.destroy_empty();
}

/// Opens the log of that name, which is this one of the two.
pub fn open_log<F: Source>(
    alloc: Global,
    files: &mut F,
    name: &str,
    log: LogName,
) -> Result<F::Log, RunFault>
    ensures bytes { IsTrue F.Log.tells → IfOk result (λ l. F.bytes files.old name.now ≡ Some (F.Log.bytes l)) }
    ensures fresh { IfOk result (λ l. F.Log.faults l ≡ 0) }
    ensures same { IsTrue F.Log.tells → (n : List ℕ) → F.bytes files.new n ≡ F.bytes files.old n }
    ensures fault { IfErr result (λ f. (f ≡ fault.Read log) ⊎ (f ≡ fault.Memory)) }
    ensures count { Counts (F.faults files.old) (F.faults files.new) (result ≡ Err (fault.Read log)) }
{
    match files.open(alloc, name) {
        Ok(opened) => Ok(opened),
        Err(OpenFault::Read) => Err(RunFault::Read(log)),
        Err(OpenFault::Memory) => Err(RunFault::Memory),
    }
}

// Opens one of the logs so many times. Where it isn't all are shut.
fn open_times<F: Source>(
    alloc: Global,
    files: &mut F,
    names: &Names<'_>,
    log: LogName,
    times: u8,
) -> Result<Vec<F::Log>, RunFault>
    ensures count { IfOk result (λ logs. length logs.items ≡ times) }
    ensures opened { IsTrue F.Log.tells → IfOk result (λ logs. Each (λ l. F.bytes files.old (name_of names.now log) ≡ Some (F.Log.bytes l)) logs.items) }
    ensures same { IsTrue F.Log.tells → (n : List ℕ) → F.bytes files.new n ≡ F.bytes files.old n }
    ensures cause { IfErr result (IsOfLogs (λ l. (l ≡ log) × Rose (F.faults files.old) (F.faults files.new))) }
    ensures faults { F.faults files.old ≤ F.faults files.new }
{
    let Ok(mut logs) = Vec::with_capacity(alloc, usize::from(times)) else {
        return Err(RunFault::Memory);
    };
    for _ in 0..times {
        match open_log(alloc, files, names.of_log(log), log) {
            Ok(opened) => logs.push_reserved(opened),
            Err(fault) => {
                shut_all(files, logs);
                return Err(fault);
            }
        }
    }
    Ok(logs)
}

/// Opens the click log for each site and the query log for each joiner. Where one isn't opened all are shut.
pub(crate) fn open_logs<F: Source>(
    alloc: Global,
    files: &mut F,
    names: &Names<'_>,
    joiners: u8,
) -> Result<Logs<F::Log>, RunFault>
    requires { joiners ≤ MOST_JOINERS }
    ensures enough { IfOk result (AreEnough joiners) }
    ensures click_logs { IsTrue F.Log.tells → IfOk result (λ logs. Each (λ l. F.bytes files.old names.now.clicks.now ≡ Some (F.Log.bytes l)) logs.clicks.items) }
    ensures query_logs { IsTrue F.Log.tells → IfOk result (λ logs. Each (λ l. F.bytes files.old names.now.queries.now ≡ Some (F.Log.bytes l)) logs.queries.items) }
    ensures same { IsTrue F.Log.tells → (n : List ℕ) → F.bytes files.new n ≡ F.bytes files.old n }
    ensures cause { IfErr result (IsOfLogs (λ l. Rose (F.faults files.old) (F.faults files.new))) }
    ensures faults { F.faults files.old ≤ F.faults files.new }
{
    let clicks = match open_times(alloc, files, names, LogName::Clicks, 2) {
        Ok(clicks) => clicks,
        Err(fault) => return Err(fault),
    };
    match open_times(alloc, files, names, LogName::Queries, 2 * joiners) {
        Ok(queries) => Ok(Logs { clicks, queries }),
        Err(fault) => {
            shut_all(files, clicks);
            Err(fault)
        }
    }
}

/// Shuts all logs.
pub(crate) fn shut_logs<F: Source>(files: &mut F, logs: Logs<F::Log>)
    ensures clicks { (l : F.Log) → Mem l logs.clicks.items → 1 ≤ F.Log.faults l → Rose (F.faults files.old) (F.faults files.new) }
    ensures same { IsTrue F.Log.tells → (n : List ℕ) → F.bytes files.new n ≡ F.bytes files.old n }
    ensures count { F.faults files.old ≤ F.faults files.new }
{
    let Logs { clicks, queries } = logs;
    shut_all(files, clicks);
    shut_all(files, queries);
}
