// The class of each click.
ghost use Rattle.std.specs.Prelude.{◌≡◌, List, length, map, IfOk, OnOk};
ghost use Rattle.std.specs.List.Sorted.{IsStrictlySortedBy};
ghost use Rattle.log_records.specs.declared.records.ClickRec.{ClickRec as Click};
ghost use Rattle.log_records.specs.Report.{distinct};
ghost use Rattle.verify_pass.specs.Terms.{id_cmp, note_view, same_batch, shard_count, shard_of};
ghost use Rattle.paxos_defs.specs.Decided.{decided as decided_in};
ghost use Rattle.verify_pass.specs.Classes.{in_order, line_of, unwritten_line};
ghost use Rattle.verify_pass.specs.Lines.{unboxed};
ghost use Rattle.verify_pass.specs.States.{KnowAll};

use crate::chosen::Chosen;
use crate::distinct::distinct_ids;
use crate::lines::{join_all, listed, unwritten_lines};
use crate::states::registries;
use crate::{Journals, NoteList};
use event_id::EventId;
use id_expiry::TimedRegistry;
use log_records::ReportLine;
use std::alloc::{AllocError, Global};
use time_shards::Table;

/// The report's line for each distinct one of the clicks' ids, in the order of ids: joined where a pair with the id was written (the
/// first one, in the order of the disks), else missing where the id is registered in its shard, else expired where it
/// lies below its shard's bound, else unmatched.
///
/// O(n log n) for n ids, and expected linear time in the records where a place has few acceptances: those of one place
/// are compared each with each, with a test for each replica. It takes memory for each acceptance and each distinct id,
/// copies no record, and lets the ids and the notes go before it looks at the pairs, whose texts the lines take.
pub fn classify(
    alloc: Global,
    ids: Vec<EventId>,
    journals: Journals,
    table: &Table,
) -> Result<Vec<ReportLine>, AllocError>
    ensures { IfOk result (λ lines. (clicks : List Click) → map (λ (c : Click). c.id) clicks ≡ ids.items → lines.items ≡ map (λ (c : Click). line_of journals table.now c.id) (distinct clicks)) }
{
    let Journals { notes, pairs } = journals;
    let mut lines = blank_lines(alloc, ids, notes, table)?;
    join_all(&mut lines, pairs);
    let lines = listed(alloc, lines)?;
    Ok(lines)
}

// The line of each id by these notes, as if no pair were written. What is made of the notes is let go.
fn blank_lines(
    alloc: Global,
    ids: Vec<EventId>,
    notes: Vec<NoteList>,
    table: &Table,
) -> Result<Vec<Box<ReportLine>>, AllocError>
    ensures lines { IfOk result (λ lines. unboxed lines.items ≡ map (λ i. unwritten_line (decided_in same_batch (map (map note_view) notes.items) (shard_of table.now i)) i) (in_order ids.items)) }
    ensures rising { OnOk result (IsStrictlySortedBy id_cmp (in_order ids.items)) }
{
    let registries = decided(alloc, notes, table)?;
    let each = distinct_ids(alloc, ids)?;
    let lines = unwritten_lines(alloc, &each, &registries, table)?;
    Ok(lines)
}

// The registries of all shards, by what these notes decide.
fn decided(
    alloc: Global,
    notes: Vec<NoteList>,
    table: &Table,
) -> Result<Vec<TimedRegistry>, AllocError>
    ensures count { IfOk result (λ registries. length registries.items ≡ shard_count table.now) }
    ensures known { IfOk result (λ registries. KnowAll registries.items table.now (λ i. decided_in same_batch (map (map note_view) notes.items) (shard_of table.now i))) }
{
    let chosen = Chosen::of(alloc, &notes)?;
    let registries = registries(alloc, &chosen, table.shards())?;
    Ok(registries)
}
