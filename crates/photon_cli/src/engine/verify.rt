// A verification: no node runs, and what the disks keep is reported.
ghost use Rattle.std.specs.Prelude.{◌≡◌, ◌⊎◌, ℕ, List, map, None, Some, IfErr, IfOk, OnOk, IsErrAnd, IsSomeAnd, IsTrue, Err, ⊤};
ghost use Rattle.std.specs.List.{list_any};
ghost use Rattle.photon_cli.specs.Terms.{ClickRec as Click, Clicks, Counts, DiskName, IsSoundStore, IsWelcome, LeavesSomething, RefusesClick, Rose, Setting, ShardRow, StaysAs, StorePlace as Place, Topology as KeptTopology, U, Why as Reason, distinct, end_from, is_missing};
ghost use Rattle.verify_pass.specs.Classes.{line_of};
ghost use Rattle.run_fault.specs.declared.fault.RunFault.TheVariants as fault;
ghost use Rattle.photon_cli.specs.Causes.{CanBeRead, HasCauseInVerify, IsOverLog};
ghost use Rattle.photon_cli.specs.LogFaults.{IsFailedRead, IsLogFault, IsOfRun, IsOfVerify, IsPast};
ghost use Rattle.photon_cli.specs.Verify.{IsReadFrom, IsReadable, PrintsKept, PrintsKeptPrefix};
ghost use Rattle.photon_cli.specs.declared.engine.run.TheConstants.{REPLICAS};

use super::checked::check_in;
use super::run::REPLICAS;
use event_id::EventId;
use log_records::{ClickRec, ReportLine};
use outside::{Sink, Source, Store};
use report_text::write_report;
use site_run::{LogName, RunFault, open_log};
use site_store::{KeptStore, read_store};
use std::alloc::{AllocError, Global};
use time_shards::Table;
use verify_pass::{Journals, classify};

// Whether one of the lines is of a missing click.
fn has_missing(lines: &[ReportLine]) -> bool
    ensures { result ≡ list_any is_missing lines.now }
{
    lines.iter().any(is_missing)
}

fn is_missing(line: &ReportLine) -> bool
    ensures { result ≡ is_missing line.now }
{
    match line {
        ReportLine::J { .. } => false,
        ReportLine::M(_) => true,
        ReportLine::X(_) => false,
        ReportLine::U(_) => false,
    }
}

// One shard.
fn one_shard() -> Table {
    match Table::read(b"0:1") {
        Ok(table) => table,
        Err(_) => unreachable!(),
    }
}

// The report's lines where nothing is kept: every click is unmatched.
fn unmatched_lines(alloc: Global, ids: Vec<EventId>) -> Result<Vec<ReportLine>, AllocError>
    ensures { IfOk result (λ lines. (clicks : List Click) → map (λ (c : Click). c.id) clicks ≡ ids.items → lines.items ≡ map (λ (c : Click). U c.id) (distinct clicks)) }
{
    let nothing = Journals {
        notes: Vec::new(alloc),
        pairs: Vec::new(alloc),
    };
    classify(alloc, ids, nothing, &one_shard())
}

// The report's lines of what a store keeps, where no topology is kept those of nothing.
fn kept_lines(
    alloc: Global,
    ids: Vec<EventId>,
    kept: KeptStore,
) -> Result<Vec<ReportLine>, AllocError>
    ensures some { IfOk result (λ lines. (t : KeptTopology) → kept.topology ≡ Some t → (clicks : List Click) → map (λ (c : Click). c.id) clicks ≡ ids.items → lines.items ≡ map (λ (c : Click). line_of kept.journals t.table c.id) (distinct clicks)) }
    ensures none { IfOk result (λ lines. kept.topology ≡ None → (clicks : List Click) → map (λ (c : Click). c.id) clicks ≡ ids.items → lines.items ≡ map (λ (c : Click). U c.id) (distinct clicks)) }
{
    let KeptStore { topology, journals } = kept;
    match topology {
        Some(topology) => classify(alloc, ids, journals, &topology.table),
        None => unmatched_lines(alloc, ids),
    }
}

// Reads what the store in this directory keeps, over the click log of that name, whose last whole line ends at `end`.
fn kept_store<F: Source, S: Store>(
    alloc: Global,
    files: &mut F,
    store: &mut S,
    clicks: &str,
    state: &str,
    end: u64,
) -> Result<KeptStore, RunFault>
    ensures read { IsTrue S.Disk.tells → IsTrue F.Log.tells → IfOk result (λ k. IsSomeAnd (F.bytes files.old clicks.now) (λ log. IsReadFrom (S.image store.old) log k)) }
    ensures stays { IsTrue S.Disk.tells → (disk : DiskName) → StaysAs (S.image store.old disk) (S.image store.new disk) }
    ensures sound { IsTrue S.Disk.tells → (g : Setting) → IsSoundStore g (S.image store.old) → IsSoundStore g (S.image store.new) }
    ensures cause { IfErr result IsOfRun }
    ensures own { IfErr result IsOfVerify }
    ensures caused { IsTrue S.Disk.tells → IsTrue F.Log.tells → (g : Setting) → IsOverLog (F.bytes files.old) clicks.now g → end ≡ end_from 0 g.clicks → IfErr result (HasCauseInVerify g (S.image store.old) (Rose (F.faults files.old) (F.faults files.new)) (Rose (S.faults store.old) (S.faults store.new))) }
    ensures passed { IsTrue S.Disk.tells → IsTrue F.Log.tells → (g : Setting) → IsOverLog (F.bytes files.old) clicks.now g → end ≡ end_from 0 g.clicks → OnOk result (CanBeRead g (S.image store.old)) }
    ensures welcome { IsTrue S.Disk.tells → IsTrue F.Log.tells → (g : Setting) → IsOverLog (F.bytes files.old) clicks.now g → end ≡ end_from 0 g.clicks → g.config.replicas ≡ REPLICAS → LeavesSomething g (S.image store.old) → IsSoundStore g (S.image store.old) → IfErr result (IsWelcome ⊤) }
    ensures log_count { Counts (F.faults files.old) (F.faults files.new) (IsErrAnd result IsFailedRead) }
    ensures count { Counts (S.faults store.old) (S.faults store.new) ((place : Place) × (result ≡ Err (fault.Store place))) }
{
    let mut log = match open_log(alloc, files, clicks, LogName::Clicks) {
        Ok(log) => log,
        Err(fault) => return Err(fault),
    };
    if let Err(fault) = store.place(alloc, state) {
        files.shut(log);
        return Err(RunFault::from(fault));
    }
    let read = read_store(alloc, store, REPLICAS, &mut log, end);
    files.shut(log);
    match read {
        Ok(kept) => Ok(kept),
        Err(fault) => Err(fault),
    }
}

/// Reports what the store in a directory keeps of the clicks of a log, and answers whether a line is of a missing click.
///
/// It reads the log line by line, and keeps the clicks' ids and the kept records in memory.
pub fn verify_store<F: Source, S: Store, K: Sink>(
    alloc: Global,
    files: &mut F,
    store: &mut S,
    clicks: &str,
    state: &str,
    out: &mut K,
) -> Result<bool, RunFault>
    ensures done { IsTrue F.Log.tells → IsTrue K.tells → IsTrue S.Disk.tells → IfOk result (λ missing. PrintsKept (F.bytes files.old) clicks.now (S.image store.old) missing (K.held out.old) (K.held out.new)) }
    ensures prefix { IsTrue F.Log.tells → IsTrue K.tells → IsTrue S.Disk.tells → result ≡ Err fault.Write → PrintsKeptPrefix (F.bytes files.old) clicks.now (S.image store.old) (K.held out.old) (K.held out.new) }
    ensures quiet { IsTrue K.tells → IfErr result (λ f. (f ≡ fault.Write) ⊎ (K.held out.new ≡ K.held out.old)) }
    ensures refused { IsTrue F.Log.tells → (line : ℕ) (w : Reason) → result ≡ Err (fault.Refused Clicks line w) → IsSomeAnd (F.bytes files.old clicks.now) (λ log. RefusesClick log (record { line = line; why = w })) }
    // Either the log's check refused it, before the store was touched, or the log is valid.
    ensures begins { ((store.new ≡ store.old) × IsErrAnd result (IsLogFault Clicks)) ⊎ ((IsTrue F.Log.tells → IsReadable (F.bytes files.old) clicks.now) × IfErr result (λ f. IsPast f × IsOfVerify f)) }
    ensures stays { IsTrue S.Disk.tells → (disk : DiskName) → StaysAs (S.image store.old disk) (S.image store.new disk) }
    ensures sound { IsTrue S.Disk.tells → (g : Setting) → IsSoundStore g (S.image store.old) → IsSoundStore g (S.image store.new) }
    ensures caused { IsTrue S.Disk.tells → IsTrue F.Log.tells → (g : Setting) → IsOverLog (F.bytes files.old) clicks.now g → IfErr result (HasCauseInVerify g (S.image store.old) (Rose (F.faults files.old) (F.faults files.new)) (Rose (S.faults store.old) (S.faults store.new))) }
    ensures passed { IsTrue S.Disk.tells → IsTrue F.Log.tells → (g : Setting) → IsOverLog (F.bytes files.old) clicks.now g → OnOk result (CanBeRead g (S.image store.old)) }
    ensures welcome { IsTrue S.Disk.tells → IsTrue F.Log.tells → (g : Setting) → IsOverLog (F.bytes files.old) clicks.now g → g.config.replicas ≡ REPLICAS → LeavesSomething g (S.image store.old) → IsSoundStore g (S.image store.old) → IfErr result (IsWelcome ⊤) }
    ensures read { Counts (F.faults files.old) (F.faults files.new) (IsErrAnd result IsFailedRead) }
    ensures write { Counts (K.faults out.old) (K.faults out.new) (result ≡ Err fault.Write) }
    ensures disks { Counts (S.faults store.old) (S.faults store.new) ((place : Place) × (result ≡ Err (fault.Store place))) }
{
    let checked = match check_in::<ClickRec, F>(alloc, files, clicks, LogName::Clicks, true) {
        Ok(checked) => checked,
        Err(refused) => return Err(refused),
    };
    let kept = match kept_store(alloc, files, store, clicks, state, checked.end) {
        Ok(kept) => kept,
        Err(fault) => return Err(fault),
    };
    let Ok(lines) = kept_lines(alloc, checked.ids, kept) else {
        return Err(RunFault::Memory);
    };
    match write_report(out, &lines) {
        Ok(()) => Ok(has_missing(&lines)),
        Err(_) => Err(RunFault::Write),
    }
}
