// Changes of an index's maps.
ghost use Rattle.std.specs.Prelude.{◌≡◌, ◌+◌, Option, Some, None, false, is_some, IsSome, IfOk, IfSome, IfNone, OnOk, OnErr, if◌then◌else◌, ◌&&◌};
ghost use Rattle.std.specs.Option.{option_or};
ghost use Rattle.std.specs.BTreeMap as tree;
ghost use Rattle.event_id.specs.declared.id.EventId.{EventId as Id};
ghost use Rattle.event_id.specs.EventId.{is_same, id_cmp};
ghost use Rattle.event_store.specs.declared.index.Process.{Process as Key};
ghost use Rattle.event_store.specs.Marks.{progress_at, same_key, key_cmp, admits, HasCounted, HasStayed};

use crate::index::{Process, Progress};
use event_id::EventId;
use std::alloc::AllocError;
use std::collections::BTreeMap;

// One line more of the process, if one with these micros would be in order; and how far the process had come.
pub(crate) fn count(
    processes: &mut BTreeMap<Process, Progress>,
    process: Process,
    micros: u64,
) -> Result<Option<Progress>, AllocError>
    ensures counted { IfOk result (λ o. IfSome o (λ was. HasCounted processes.old processes.new process micros was)) }
    ensures stray { IfOk result (λ o. IfNone o ((admits (progress_at processes.old process) micros ≡ false) × HasStayed processes.old processes.new)) }
    ensures err { OnErr result (HasStayed processes.old processes.new) }
{
    if let Some(progress) = processes.get_mut(&process) {
        return progress.step(micros);
    }
    processes.insert(
        process,
        Progress {
            lines: 1,
            last: micros,
        },
    )?;
    Ok(Some(Progress { lines: 0, last: 0 }))
}

// Takes no memory, since the process has its place.
pub(crate) fn put_back(
    processes: &mut BTreeMap<Process, Progress>,
    process: Process,
    progress: Progress,
)
    requires { IsSome (tree.get key_cmp processes.old process) }
    ensures { (p : Key) → progress_at processes.new p ≡ (if same_key p process then progress else progress_at processes.old p) }
{
    let _ = processes.insert(process, progress);
}

// An entry, if one begins there.
pub(crate) fn put_entry(
    entries: &mut BTreeMap<EventId, u64>,
    begins: bool,
    id: EventId,
    place: u64,
) -> Result<(), AllocError>
    ensures ok { OnOk result ((k : Id) → tree.get id_cmp entries.new k ≡ (if is_same k id && begins then Some place else tree.get id_cmp entries.old k)) }
    ensures len { OnOk result (tree.get id_cmp entries.old id ≡ None → tree.btree_map_len entries.new ≡ tree.btree_map_len entries.old + (if begins then 1 else 0)) }
    ensures err { OnErr result (entries.new.entries ≡ entries.old.entries) }
{
    if begins {
        entries.insert(id, place)?;
    }
    Ok(())
}

// The first place of the id stays.
pub(crate) fn put_stray(
    strays: &mut BTreeMap<EventId, u64>,
    id: EventId,
    place: u64,
) -> Result<(), AllocError>
    ensures ok { OnOk result ((k : Id) → tree.get id_cmp strays.new k ≡ option_or (tree.get id_cmp strays.old k) (if is_same k id then Some place else None)) }
    ensures len { OnOk result (tree.btree_map_len strays.new ≡ tree.btree_map_len strays.old + (if is_some (tree.get id_cmp strays.old id) then 0 else 1)) }
    ensures err { OnErr result (((k : Id) → tree.get id_cmp strays.new k ≡ tree.get id_cmp strays.old k) × (tree.btree_map_len strays.new ≡ tree.btree_map_len strays.old)) }
{
    if strays.contains_key(&id) {
        return Ok(());
    }
    strays.insert(id, place)?;
    Ok(())
}
