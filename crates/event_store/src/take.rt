// One line more.
ghost use Rattle.std.specs.Prelude.{◌≡◌, ◌+◌, ℕ, List, IfSome, OnOk, OnErr};
ghost use Rattle.log_records.specs.Line.{IsQuery};
ghost use Rattle.event_store.specs.Read.{ReadsNext};
ghost use Rattle.event_store.specs.Held.{Holds};

use crate::index::Index;
use crate::recent::Recent;
use log_records::QueryRec;
use std::alloc::AllocError;

/// Takes in the line that was read at the place: its record, or none where it is refused. Logarithmic time.
pub(crate) fn take_in(
    index: &mut Index,
    recent: &mut Recent,
    place: u64,
    line: Option<QueryRec>,
) -> Result<(), AllocError>
    requires { IfSome line IsQuery }
    ensures ok { OnOk result ((log : List ℕ) (end_ : ℕ) (count : ℕ) → Holds log place count index.old recent.old.records.entries → ReadsNext log place end_ line → Holds log end_ (count + 1) index.new recent.new.records.entries) }
    ensures err { OnErr result ((log : List ℕ) (count : ℕ) → Holds log place count index.old recent.old.records.entries → Holds log place count index.new recent.new.records.entries) }
    ensures most { recent.new.records.cap ≡ recent.old.records.cap }
{
    let query = match line {
        Some(query) => query,
        None => return Ok(()),
    };
    let is_next = index.see(query.id, place)?;
    recent.remember(is_next, query);
    Ok(())
}
