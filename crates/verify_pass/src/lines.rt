// The line of each id, first as if no pair were written, then with the pairs.
ghost use Rattle.std.specs.Prelude.{◌≡◌, ◌∷◌, [], List, length, map, IfOk};
ghost use Rattle.std.specs.List.{flat_map};
ghost use Rattle.std.specs.List.Sorted.{IsBinarySearchResult, IsSearchInRange};
ghost use Rattle.event_id.specs.declared.id.EventId.{EventId as Id};
ghost use Rattle.verify_pass.specs.Terms.{Knows, id_cmp, shard_count};
ghost use Rattle.registry_state.specs.declared.Batch.{Batch as Value};
ghost use Rattle.verify_pass.specs.Classes.{unwritten_line};
ghost use Rattle.verify_pass.specs.Lines.{TakesIn, id_of, joined, unboxed};
ghost use Rattle.verify_pass.specs.States.{KnowAll};

use crate::PairList;
use crate::states::registry_for;
use event_id::EventId;
use id_expiry::TimedRegistry;
use log_records::ReportLine;
use std::alloc::{AllocError, Global};
use time_shards::Table;
use turn_defs::PairRec;

/// The line of each id as if no pair were written: missing, expired or unmatched. Each line stands in a block of its own, which takes
/// what the notes left in the heap; a list of the lines would lie beside the lists of the pairs.
pub fn unwritten_lines(
    alloc: Global,
    ids: &[EventId],
    registries: &[TimedRegistry],
    table: &Table,
) -> Result<Vec<Box<ReportLine>>, AllocError>
    requires { length registries.now ≡ shard_count table.now }
    ensures { IfOk result (λ lines. (batches : Id → List Value) → KnowAll registries.now table.now batches → unboxed lines.items ≡ map (λ i. unwritten_line (batches i) i) ids.now) }
{
    let mut lines = Vec::new(alloc);
    for id in ids {
        let registry = registry_for(registries, table, *id);
        lines.push(Box::new(alloc, unwritten(registry, *id))?)?;
    }
    Ok(lines)
}

fn unwritten(registry: &TimedRegistry, id: EventId) -> ReportLine
    ensures { (applied : List Value) → Knows registry.now applied → result ≡ unwritten_line applied id }
{
    if registry.holder(id).is_some() {
        ReportLine::M(id)
    } else if id.micros < registry.bound() {
        ReportLine::X(id)
    } else {
        ReportLine::U(id)
    }
}

/// Joins each line, of ids that rise, whose id is that of a pair in these logs: with the first such pair, unless it was joined
/// before. Each log is used up before the next. Logarithmic time a pair, and no memory; no text is copied.
pub fn join_all(lines: &mut Vec<Box<ReportLine>>, logs: Vec<PairList>)
    ensures { TakesIn (flat_map (λ pairs. pairs) logs.items) (unboxed lines.old.items) (unboxed lines.new.items) }
{
    for log in logs {
        join_log(lines, log.into_pairs());
    }
}

fn join_log(lines: &mut Vec<Box<ReportLine>>, pairs: Vec<PairRec>)
    ensures { TakesIn pairs.items (unboxed lines.old.items) (unboxed lines.new.items) }
{
    for pair in pairs {
        join(lines, pair);
    }
}

fn join(lines: &mut Vec<Box<ReportLine>>, pair: PairRec)
    ensures { TakesIn (pair ∷ []) (unboxed lines.old.items) (unboxed lines.new.items) }
{
    if let Ok(place) = find(lines, pair.click.id) {
        join_line(&mut lines[place], pair);
    }
}

fn find(lines: &[Box<ReportLine>], id: EventId) -> Result<usize, usize>
    ensures bound { IsSearchInRange result (length lines.now) }
    ensures place { IsBinarySearchResult (λ line. id_cmp (id_of line.value) id) lines.now result }
{
    lines.binary_search_by_key(&id, |line| id_of(line))
}

fn id_of(line: &ReportLine) -> EventId
    ensures { result ≡ id_of line.now }
{
    match line {
        ReportLine::J { click, .. } => click.id,
        ReportLine::M(id) | ReportLine::X(id) | ReportLine::U(id) => *id,
    }
}

fn join_line(line: &mut ReportLine, pair: PairRec)
    ensures { line.new ≡ joined pair line.old }
{
    match line {
        ReportLine::J { .. } => {}
        _ => {
            *line = ReportLine::J {
                click: pair.click,
                query: pair.query,
            };
        }
    }
}

/// The lines without their blocks.
pub fn listed(alloc: Global, boxed: Vec<Box<ReportLine>>) -> Result<Vec<ReportLine>, AllocError>
    ensures { IfOk result (λ lines. lines.items ≡ unboxed boxed.items) }
{
    let mut lines = Vec::new(alloc);
    for line in boxed {
        lines.push(Box::into_inner(line))?;
    }
    Ok(lines)
}
