// A bulk run: both logs are made from a seed, both sites run over them as in a drill, and the totals line is told.
ghost use Rattle.std.specs.Prelude.{◌≡◌, ◌⊎◌, ℕ, List, IfErr, IfOk, IsErrAnd, IsSomeAnd, OnOk, Some, codes, string_bytes, IsTrue, Err};
ghost use Rattle.photon_cli.specs.Terms.{AreBulkRanges, Counts, bulk_values, bytes_under};
ghost use Rattle.bulk_logs.specs.Bulk.{query_log, click_log};
ghost use Rattle.run_fault.specs.declared.fault.RunFault.TheVariants as fault;
ghost use Rattle.photon_cli.specs.Bulk.{BeginsBulk, IsBulkRun, PrintsTotals, PrintsTotalsPrefix, bulk_plan, rule};
ghost use Rattle.photon_cli.specs.LogFaults.{IsEarly, IsFailedRead, IsOfDrill, IsPast};

use super::drill::drilled_lines;
use super::table::table_in;
use bulk_logs::laws::{report_kinds, sizes, valid_logs};
use bulk_logs::make_logs;
use command_words::{BulkOptions, RunOptions};
use lossy_link::{Fate, Plan, Rule};
use mem_outside::{MemFile, MemSource};
use outside::{Gate, Sink};
use report_text::write_totals;
use site_run::{Machine, Ran, RunFault, status};
use std::alloc::{AllocError, Global};
use std::random::RandomSource;
use std::sync::Wait;
use std::thread::Threads;

// One click in ten has a timestamp below it.
const HORIZON: u64 = 1_000_000;

// A rule for a thousand packets of each link: the first of this ordinal, then one in so many.
fn rule(first: u64, every: u32, fate: Fate) -> Rule
    ensures { result ≡ rule first every fate }
{
    Rule {
        from: None,
        to: None,
        first,
        count: 1000,
        every,
        fate,
    }
}

fn bulk_plan(alloc: Global) -> Result<Plan, AllocError>
    ensures { IfOk result (λ p. p ≡ bulk_plan) }
{
    let mut rules = Vec::with_capacity(alloc, 2)?;
    rules.push_reserved(rule(3, 7, Fate::Drop));
    rules.push_reserved(rule(5, 11, Fate::Twice(4)));
    Ok(Plan::new(rules, Vec::new(alloc), None))
}

fn file_of(alloc: Global, name: &str, bytes: Vec<u8>) -> Result<MemFile, AllocError>
    ensures name { IfOk result (λ f. string_bytes f.name ≡ name.now) }
    ensures bytes { IfOk result (λ f. f.bytes.items ≡ bytes.items) }
{
    Ok(MemFile {
        name: name.to_string(alloc)?,
        bytes,
        failing: Vec::new(alloc),
    })
}

// Both logs, in memory.
fn bulk_files(alloc: Global, seed: u64, clicks: u32) -> Result<MemSource, AllocError>
    ensures queries { IfOk result (λ s. bytes_under s.files.items (codes "queries") ≡ Some (query_log seed clicks)) }
    ensures clicks { IfOk result (λ s. bytes_under s.files.items (codes "clicks") ≡ Some (click_log seed clicks)) }
{
    let (query_log, click_log) = make_logs(alloc, seed, clicks)?;
    let mut files = Vec::with_capacity(alloc, 2)?;
    files.push_reserved(file_of(alloc, "queries", query_log)?);
    files.push_reserved(file_of(alloc, "clicks", click_log)?);
    Ok(MemSource::new(files, Vec::new(alloc)))
}

// The logs of a bulk run lie in memory, where a read fails only for want of it. No failed read is ever met.
fn without_reads(told: RunFault) -> RunFault
    ensures { ((result ≡ told) × (IsFailedRead told → ⊥)) ⊎ ((result ≡ fault.Memory) × IsFailedRead told) }
{
    if status(&told) == 4 {
        return RunFault::Memory;
    }
    told
}

/// Makes both logs from the seed, runs both sites over them as in a drill, and writes the totals line.
///
/// It keeps both logs in memory, once for each node that reads one.
pub fn bulk_totals<K: Sink>(
    machine: Machine<'_, impl Threads + Wait + RandomSource + Sync, impl Gate>,
    wanted: &BulkOptions<'_>,
    out: &mut K,
    ran: &mut Ran,
) -> Result<(), RunFault>
    requires ranges { AreBulkRanges (bulk_values wanted.now) }
    ensures ran { OnOk result (IsSomeAnd ran.new.log (IsBulkRun (bulk_values wanted.now))) }
    ensures done { IsTrue K.tells → OnOk result (PrintsTotals (bulk_values wanted.now) ran.new.log (K.held out.old) (K.held out.new)) }
    ensures prefix { IsTrue K.tells → result ≡ Err fault.Write → PrintsTotalsPrefix (bulk_values wanted.now) ran.new.log (K.held out.old) (K.held out.new) }
    ensures quiet { IsTrue K.tells → IfErr result (λ f. (f ≡ fault.Write) ⊎ (K.held out.new ≡ K.held out.old)) }
    ensures begins { ((ran.new ≡ ran.old) × IsErrAnd result (IsEarly (λ f. f ≡ fault.Memory) (bulk_values wanted.now).nodes.shards)) ⊎ (BeginsBulk (bulk_values wanted.now) ran.new.log × IfErr result IsPast) }
    ensures reads { IfErr result (λ f. IsFailedRead f → ⊥) }
    ensures fair { IfErr result (IsOfDrill ⊥) }
    ensures write { Counts (K.faults out.old) (K.faults out.new) (result ≡ Err fault.Write) }
{
    valid_logs();
    sizes();
    report_kinds();
    let table = match table_in(wanted.nodes.shards) {
        Ok(table) => table,
        Err(bad) => return Err(bad),
    };
    let Ok(mut files) = bulk_files(machine.alloc, wanted.seed, wanted.clicks) else {
        return Err(RunFault::Memory);
    };
    let plan = match bulk_plan(machine.alloc) {
        Ok(plan) => plan,
        Err(_) => return Err(RunFault::Memory),
    };
    let asked = RunOptions {
        queries: "queries",
        clicks: "clicks",
        horizon: HORIZON,
        nodes: wanted.nodes,
    };
    let lines = match drilled_lines(machine, &asked, table, plan, &mut files, ran) {
        Ok(lines) => lines,
        Err(fault) => return Err(without_reads(fault)),
    };
    match write_totals(out, &lines) {
        Ok(()) => Ok(()),
        Err(_) => Err(RunFault::Write),
    }
}
