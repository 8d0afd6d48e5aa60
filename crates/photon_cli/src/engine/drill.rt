// A drill: both sites run over a store in memory that is empty at first, and a plan says what goes wrong.
ghost use Rattle.std.specs.Prelude.{◌≡◌, ◌⊎◌, ℕ, IfErr, IfOk, IfSome, IsErrAnd, IsTrue, OnOk, Err};
ghost use Rattle.photon_cli.specs.Terms.{AreInRanges, Counts, Field as Place, LogName as LogKind, PlanView, Why as Reason, values_in};
ghost use Rattle.run_fault.specs.declared.fault.RunFault.TheVariants as fault;
ghost use Rattle.photon_cli.specs.Drill.{BeginsDrill, Drills, HasDrilled, IsBadIn, IsPlanIn, PrintsDrill, PrintsDrillPrefix, SparesNodes};
ghost use Rattle.photon_cli.specs.Join.{AreValid, IsHeardOf, Refuses};
ghost use Rattle.photon_cli.specs.LogFaults.{IsBeforeLogs, IsEarly, IsFailedRead, IsOfDrill, IsOfLogs, IsOfPlanOrLogs, IsOfRun, IsPast, failed_read};
ghost use Rattle.photon_cli.specs.Words.{IsTextOf};

use super::checked::checked_logs;
use super::plan::plan_in_file;
use super::run::config_in;
use super::table::table_in;
use crate::drill_store::store_for;
use crate::log_check::Lines;
use command_words::RunOptions;
use log_records::ReportLine;
use lossy_link::Plan;
use mem_outside::MemStore;
use outside::{Gate, Sink, Source};
use report_text::write_report;
use site_laws::stores::empty_store;
use site_run::meaning::means;
use site_run::{Machine, Names, Outcome, Ran, RunFault, run_sites};
use std::random::RandomSource;
use std::sync::Wait;
use std::thread::Threads;
use time_shards::Table;
use verify_pass::classify;

/// Checks both logs, runs both sites over a store in memory that is empty at first, and gives the report's line for each distinct
/// click id. The plan says which packets are lost, repeated or late, which replica is dead and at which calls a disk stops.
pub fn drilled_lines<F: Source<Log: Drop>>(
    machine: Machine<'_, impl Threads + Wait + RandomSource + Sync, impl Gate>,
    wanted: &RunOptions<'_>,
    table: Table,
    plan: Plan,
    files: &mut F,
    ran: &mut Ran,
) -> Result<Vec<ReportLine>, RunFault>
    requires ranges { AreInRanges (values_in wanted.now).nodes }
    requires table { IsTextOf (values_in wanted.now).nodes.shards table }
    ensures done { IsTrue F.Log.tells → IfOk result (λ lines. Drills (F.bytes files.old) (values_in wanted.now) plan ran.new.log lines.items) }
    ensures refused { IsTrue F.Log.tells → (log : LogKind) (line : ℕ) (w : Reason) → result ≡ Err (fault.Refused log line w)
        → Refuses (F.bytes files.old) (values_in wanted.now).queries (values_in wanted.now).clicks log (record { line = line; why = w }) }
    ensures begins { ((ran.new ≡ ran.old) × IsErrAnd result IsOfLogs)
        ⊎ ((IsTrue F.Log.tells → AreValid (F.bytes files.old) (values_in wanted.now).queries (values_in wanted.now).clicks) × IfSome ran.new.log (IsHeardOf plan (values_in wanted.now).nodes.joiners) × IfErr result IsOfRun) }
    ensures fair { IsTrue F.Log.tells → IfErr result (IsOfDrill (SparesNodes (values_in wanted.now) plan.stops → ⊥)) }
    ensures count { Counts (F.faults files.old) (F.faults files.new) ((log : LogKind) × (result ≡ Err (failed_read log))) }
{
    empty_store::<MemStore>();
    means::<MemStore>();
    let Machine { rt, alloc, gate } = machine;
    let clicks = match checked_logs(alloc, files, wanted.queries, wanted.clicks) {
        Ok(clicks) => clicks,
        Err(fault) => return Err(fault),
    };
    let Lines { ids, end, .. } = clicks;
    let Ok(mut store) = store_for(alloc, &plan, wanted.nodes.joiners) else {
        return Err(RunFault::Memory);
    };
    let names = Names {
        queries: wanted.queries,
        clicks: wanted.clicks,
        state: "",
    };
    let config = config_in(wanted, table);
    let journals = match run_sites(
        rt, alloc, &config, &names, end, files, &mut store, plan, gate, ran,
    ) {
        Ok(Outcome { journals }) => journals,
        Err(fault) => return Err(fault),
    };
    match classify(alloc, ids, journals, &config.table) {
        Ok(lines) => Ok(lines),
        Err(_) => Err(RunFault::Memory),
    }
}

/// Drills with the plan of a file over the two logs of these names, and writes the report.
pub fn drill_logs<F: Source<Log: Drop>, K: Sink>(
    machine: Machine<'_, impl Threads + Wait + RandomSource + Sync, impl Gate>,
    wanted: &RunOptions<'_>,
    plan: &str,
    files: &mut F,
    out: &mut K,
    ran: &mut Ran,
) -> Result<(), RunFault>
    requires ranges { AreInRanges (values_in wanted.now).nodes }

    // Where it ends well, the report of the run was written whole; at a failed write a prefix of it went out, at any other fault
    // nothing.
    ensures done { IsTrue F.Log.tells → IsTrue K.tells → OnOk result (PrintsDrill (F.bytes files.old) (values_in wanted.now) plan.now ran.new.log (K.held out.old) (K.held out.new)) }
    ensures ran { IsTrue F.Log.tells → OnOk result (HasDrilled (F.bytes files.old) (values_in wanted.now) plan.now ran.new.log) }
    ensures prefix { IsTrue F.Log.tells → IsTrue K.tells → result ≡ Err fault.Write → PrintsDrillPrefix (F.bytes files.old) (values_in wanted.now) plan.now ran.new.log (K.held out.old) (K.held out.new) }
    ensures quiet { IsTrue K.tells → IfErr result (λ f. (f ≡ fault.Write) ⊎ (K.held out.new ≡ K.held out.old)) }

    // Either it gave up before a run, or all that comes before one was fit. A refusal names the first bad row of the table, the plan's
    // first bad place, or the first refused line.
    ensures begins { ((ran.new ≡ ran.old) × IsErrAnd result (IsEarly IsOfPlanOrLogs (values_in wanted.now).nodes.shards))
        ⊎ (BeginsDrill (F.bytes files.old) F.Log.tells (values_in wanted.now) plan.now ran.new.log × IfErr result IsPast) }
    ensures place { IsTrue F.Log.tells → (at : Place) → result ≡ Err (fault.Plan at) → IsBadIn (F.bytes files.old) plan.now at }
    ensures bad_place { IsTrue F.Log.tells → (at : Place) → IsBadIn (F.bytes files.old) plan.now at → IsErrAnd result (IsBeforeLogs at) }
    ensures refused { IsTrue F.Log.tells → (log : LogKind) (line : ℕ) (w : Reason) → result ≡ Err (fault.Refused log line w)
        → Refuses (F.bytes files.old) (values_in wanted.now).queries (values_in wanted.now).clicks log (record { line = line; why = w }) }

    // The other faults come only where a count rose, but for want of memory and what goes wrong by the plan: of a disk it tells only
    // where the plan has a stop of one of a disk's first three calls, or two of one node's disks.
    ensures fair { IsTrue F.Log.tells → IfErr result (IsOfDrill ((p : PlanView) × IsPlanIn (F.bytes files.old) plan.now p × (SparesNodes (values_in wanted.now) p.stops → ⊥))) }
    ensures read { Counts (F.faults files.old) (F.faults files.new) (IsErrAnd result IsFailedRead) }
    ensures write { Counts (K.faults out.old) (K.faults out.new) (result ≡ Err fault.Write) }
{
    let table = match table_in(wanted.nodes.shards) {
        Ok(table) => table,
        Err(bad) => return Err(bad),
    };
    let plan = match plan_in_file(machine.alloc, files, plan) {
        Ok(plan) => plan,
        Err(fault) => return Err(fault),
    };
    let lines = match drilled_lines(machine, wanted, table, plan, files, ran) {
        Ok(lines) => lines,
        Err(fault) => return Err(fault),
    };
    match write_report(out, &lines) {
        Ok(()) => Ok(()),
        Err(_) => Err(RunFault::Write),
    }
}
