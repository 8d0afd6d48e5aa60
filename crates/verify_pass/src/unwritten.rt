// The ids that were registered and never written.
ghost use Rattle.std.specs.Prelude.{◌≡◌, ◌++◌, IfOk, OnOk, true, ◌↔◌, Contains};
ghost use Rattle.std.specs.List.{flat_map};
ghost use Rattle.std.specs.List.Sorted.{IsStrictlySortedBy};
ghost use Rattle.event_id.specs.declared.id.EventId.{EventId as Id};
ghost use Rattle.verify_pass.specs.Terms.{id_cmp};
ghost use Rattle.verify_pass.specs.Classes.{is_missing as is_unwritten};
ghost use Rattle.verify_pass.specs.Lines.{missing_id, unboxed};

use crate::Journals;
use crate::chosen::Chosen;
use crate::lines::{join_all, unwritten_lines};
use crate::states::{each_has_a_shard, inserted, registries};
use event_id::EventId;
use log_records::ReportLine;
use std::alloc::{AllocError, Global};
use time_shards::Table;

/// The ids that are registered in their shard and that no pair has in any output log: each once, in their order.
///
/// O(n log n) for n decided inserts, and expected linear time in the records where a place has few acceptances: those of
/// one place are compared each with each, twice, with a test for each replica. It takes memory for each acceptance, and
/// copies no record.
pub fn missing(alloc: Global, journals: Journals, table: &Table) -> Result<Vec<EventId>, AllocError>
    ensures rising { IfOk result (λ ids. IsStrictlySortedBy id_cmp ids.items) }
    ensures exactly { IfOk result (λ ids. (i : Id) → Contains ids.items i ↔ (is_unwritten journals table.now i ≡ true)) }
{
    let Journals { notes, pairs } = journals;
    let chosen = Chosen::of(alloc, &notes)?;
    let registries = registries(alloc, &chosen, table.shards())?;
    let ids = inserted(alloc, &chosen, table.shards())?;
    each_has_a_shard(table);
    let mut lines = unwritten_lines(alloc, &ids, &registries, table)?;
    join_all(&mut lines, pairs);
    let left = missing_among(alloc, &lines)?;
    Ok(left)
}

// The ids of the lines that are of missing clicks.
fn missing_among(alloc: Global, lines: &[Box<ReportLine>]) -> Result<Vec<EventId>, AllocError>
    ensures { IfOk result (λ left. left.items ≡ flat_map missing_id (unboxed lines.now)) }
{
    let mut left = Vec::new(alloc);
    for line in lines {
        push_missing(&mut left, line)?;
    }
    Ok(left)
}

fn push_missing(left: &mut Vec<EventId>, line: &ReportLine) -> Result<(), AllocError>
    ensures { OnOk result (left.new.items ≡ left.old.items ++ missing_id line.now) }
{
    if let ReportLine::M(id) = line {
        left.push(*id)?;
    }
    Ok(())
}
