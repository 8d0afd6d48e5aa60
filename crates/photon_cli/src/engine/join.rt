// The whole join.
ghost use Rattle.std.specs.Prelude.{◌≡◌, ◌⊎◌, ℕ, IfErr, IfSome, IsErrAnd, OnOk, IsTrue, Err};
ghost use Rattle.photon_cli.specs.Terms.{AreInRanges, Counts, EndsOver, LogName as LogKind, NamesFailed, Rose, Setting, StorePlace, Why as Reason, values_in};
ghost use Rattle.run_fault.specs.declared.fault.RunFault.TheVariants as fault;
ghost use Rattle.photon_cli.specs.LogFaults.{IsEarly, IsFailedRead, IsOfLogs, IsPast};
ghost use Rattle.photon_cli.specs.Join.{BeginsJoin, HasRun, IsAsked, IsHistory, Prints, PrintsAfresh, PrintsPrefix, Refuses, no_plan};

use super::checked::checked_logs;
use super::run::config_in;
use super::table::table_in;
use crate::log_check::Lines;
use command_words::RunOptions;
use lossy_link::Plan;
use outside::{Gate, Sink, Source, Store};
use report_text::write_report;
use site_run::meaning::means;
use site_run::{Machine, Names, Outcome, Ran, RunFault, run_sites};
use std::random::RandomSource;
use std::sync::Wait;
use std::thread::Threads;
use verify_pass::classify;

/// Joins the clicks under one name with the queries under another over the store of that name, and writes the report.
///
/// It reads both logs whole first, in pieces of 64 KiB, and keeps the distinct ids of one log at a time, and those of the clicks to the end.
pub fn join_logs<F: Source<Log: Drop>, S: Store<Disk: Drop>, K: Sink>(
    machine: Machine<'_, impl Threads + Wait + RandomSource + Sync, impl Gate>,
    wanted: &RunOptions<'_>,
    state: &str,
    files: &mut F,
    store: &mut S,
    out: &mut K,
    ran: &mut Ran,
) -> Result<(), RunFault>
    requires ranges { AreInRanges (values_in wanted.now).nodes }

    // Where it ends well, the report of what the disks keep was written whole; at a failed write a prefix of it went out, at any
    // other fault nothing.
    ensures done { IsTrue F.Log.tells → IsTrue K.tells → IsTrue S.Disk.tells → OnOk result (Prints (F.bytes files.old) (values_in wanted.now) (S.image store.old) (S.image store.new) (Rose (S.faults store.old) (S.faults store.new)) (K.held out.old) (K.held out.new)) }
    ensures afresh { IsTrue F.Log.tells → IsTrue K.tells → IsTrue S.Disk.tells → OnOk result (PrintsAfresh (F.bytes files.old) (values_in wanted.now) (S.image store.old) (S.image store.new) (Rose (S.faults store.old) (S.faults store.new)) (K.held out.old) (K.held out.new)) }
    // Then the run's history is one of the whole system from what the disks kept, with no packet lost on purpose; and so is what is left
    // of a run that ended otherwise.
    ensures history { IsTrue S.Disk.tells → IsTrue F.Log.tells → (g : Setting) → IsAsked (F.bytes files.old) (values_in wanted.now) g → (ran.new ≡ ran.old) ⊎ IfSome ran.new.log (IsHistory g (S.image store.old) (S.image store.new) no_plan) }
    ensures ran { IsTrue F.Log.tells → IsTrue S.Disk.tells → OnOk result (HasRun (F.bytes files.old) (values_in wanted.now) (S.image store.old) (S.image store.new) ran.new.log) }
    ensures prefix { IsTrue F.Log.tells → IsTrue K.tells → IsTrue S.Disk.tells → result ≡ Err fault.Write
        → PrintsPrefix (F.bytes files.old) (values_in wanted.now) (S.image store.old) (S.image store.new) (Rose (S.faults store.old) (S.faults store.new)) (K.held out.old) (K.held out.new) }
    ensures quiet { IsTrue K.tells → IfErr result (λ f. (f ≡ fault.Write) ⊎ (K.held out.new ≡ K.held out.old)) }

    // Either it gave up before the store was touched, or all that comes before the run was fit. A refusal names the first bad row of the
    // table, or the first refused line, of the queries before the clicks.
    ensures begins { ((store.new ≡ store.old) × (ran.new ≡ ran.old) × IsErrAnd result (IsEarly IsOfLogs (values_in wanted.now).nodes.shards))
        ⊎ (BeginsJoin F.Log.tells (F.bytes files.old) (values_in wanted.now) ran.new.log × IfErr result IsPast) }
    ensures refused { IsTrue F.Log.tells → (log : LogKind) (line : ℕ) (w : Reason) → result ≡ Err (fault.Refused log line w)
        → Refuses (F.bytes files.old) (values_in wanted.now).queries (values_in wanted.now).clicks log (record { line = line; why = w }) }

    // The other faults come only where a count rose, but for want of memory and what the disks keep.
    ensures read { Counts (F.faults files.old) (F.faults files.new) (IsErrAnd result IsFailedRead) }
    ensures disks { Counts (S.faults store.old) (S.faults store.new) ((place : StorePlace) × (result ≡ Err (fault.Store place))) }
    ensures write { Counts (K.faults out.old) (K.faults out.new) (result ≡ Err fault.Write) }

    // What the fault of a run names has failed by its history.
    ensures named { IsTrue S.Disk.tells → IsTrue F.Log.tells → (g : Setting) → IsAsked (F.bytes files.old) (values_in wanted.now) g
        → IfErr result (λ f. (ran.new ≡ ran.old) ⊎ IfSome ran.new.log (λ l. NamesFailed g l.air.history l.opened f)) }

    // How it ends over the store, for whatever setting the values ask for.
    ensures ends { IsTrue S.Disk.tells → IsTrue F.Log.tells → (g : Setting) → IsAsked (F.bytes files.old) (values_in wanted.now) g → EndsOver g (S.image store.old) (S.image store.new)
        (Rose (F.faults files.old) (F.faults files.new)) (Rose (S.faults store.old) (S.faults store.new)) ran.new.log result }
{
    means::<S>();
    let Machine { rt, alloc, gate } = machine;
    let table = match table_in(wanted.nodes.shards) {
        Ok(table) => table,
        Err(bad) => return Err(bad),
    };
    let clicks = match checked_logs(alloc, files, wanted.queries, wanted.clicks) {
        Ok(clicks) => clicks,
        Err(refused) => return Err(refused),
    };
    let Lines { ids, end, .. } = clicks;
    let names = Names {
        queries: wanted.queries,
        clicks: wanted.clicks,
        state,
    };
    let config = config_in(wanted, table);
    let plan = Plan::empty(alloc);
    let journals = match run_sites(
        rt, alloc, &config, &names, end, files, store, plan, gate, ran,
    ) {
        Ok(Outcome { journals }) => journals,
        Err(fault) => return Err(fault),
    };
    let Ok(lines) = classify(alloc, ids, journals, &config.table) else {
        return Err(RunFault::Memory);
    };
    match write_report(out, &lines) {
        Ok(()) => Ok(()),
        Err(_) => Err(RunFault::Write),
    }
}
