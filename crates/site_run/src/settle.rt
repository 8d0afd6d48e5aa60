// The end of a run: nodes are taken apart, disks read back, and all is given back.
ghost use Rattle.std.specs.Prelude.{◌≡◌, ◌≢◌, ◌⊎◌, ◌≤◌, ◌+◌, ◌*◌, ◌++◌, ℕ, List, Some, None, Ok, Err, length, map, vec_len, vec_capacity, IsTrue, IfOk, IfErr, IfSome, OnOk};
ghost use Rattle.site_run.specs.Terms.{AreAmongImages, AreReadFrom, DiskName, Each, EachWith, IsOnlyRead, IsToldBy, KeepsNotes, Lent, MayBeLeft, Mem, OneWith, Rose, or_else, outputs, replicas};
ghost use Rattle.run_fault.specs.declared.fault.StorePlace.{StorePlace as Place};
ghost use Rattle.run_fault.specs.declared.fault.RunFault.TheVariants as run_fault;
ghost use Rattle.output_log.specs.Pairs.{Keeps as KeepsPairs};
ghost use Rattle.site_run.specs.Naming.{as_lent, all_from};
ghost use Rattle.site_run.specs.Causes.{IsOfDisks};
ghost use Rattle.site_run.specs.Settled.{told_of, first_fault, lent_replicas, lent_outputs, AreKeptIn, AreUp};

use crate::built::{Parting, Parts};
use crate::causes::fault_of_node;
use crate::sources::shut_all;
use crate::{Config, Outcome, RunFault};
use outside::{Disk, Source, Store};
use site_node::NodeFault;
use site_store::{LentDisk, give_all, read_back};
use std::alloc::Global;
use verify_pass::Journals;

/// Gives all disks and logs back.
pub(crate) fn give_parts<F: Source, S: Store>(
    files: &mut F,
    store: &mut S,
    parts: Parts<S::Disk, F::Log>,
)
    requires { length parts.disks.items ≤ S.places_left store.old }
    ensures left { IsTrue S.Disk.tells → (name : DiskName) (c : List ℕ) → S.image store.new name c → MayBeLeft S.Disk.image (S.image store.old) (map as_lent parts.disks.items) name c }
    ensures disks { (l : Lent S.Disk) → Mem l (map as_lent parts.disks.items) → 1 ≤ S.Disk.faults l.disk → Rose (S.faults store.old) (S.faults store.new) }
    ensures logs { (l : F.Log) → Mem l parts.logs.items → 1 ≤ F.Log.faults l → Rose (F.faults files.old) (F.faults files.new) }
    ensures calm { Each (λ l. S.Disk.faults l.disk ≡ 0) (map as_lent parts.disks.items) → S.faults store.new ≡ S.faults store.old }
    ensures same { IsTrue F.Log.tells → (n : List ℕ) → F.bytes files.new n ≡ F.bytes files.old n }
    ensures file_count { F.faults files.old ≤ F.faults files.new }
    ensures store_count { S.faults store.old ≤ S.faults store.new }
{
    let Parts { disks, logs } = parts;
    give_all(store, disks);
    shut_all(files, logs);
}

/// Takes nodes apart, and tells the fault of the first that has one.
pub(crate) fn part_all<D, L, N: Parting<D, L>>(
    nodes: Vec<(N, Option<NodeFault>)>,
    config: &Config,
    parts: Parts<D, L>,
) -> (Parts<D, L>, Option<RunFault>)
    requires few { length nodes.items ≤ 255 }
    requires disk_room { length parts.disks.items + 2 * length nodes.items ≤ vec_capacity parts.disks }
    requires log_room { length parts.logs.items + length nodes.items ≤ vec_capacity parts.logs }
    ensures disks { map as_lent result.0.disks.items ≡ map as_lent parts.disks.items ++ all_from (λ i w. N.disks_of config.now i w.0) 0 nodes.items }
    ensures logs { result.0.logs.items ≡ parts.logs.items ++ all_from (λ i w. N.logs_of w.0) 0 nodes.items }
    ensures fault { result.1 ≡ first_fault config.now 0 nodes.items }
{
    let mut parts = parts;
    let mut first = None;
    let mut number = 0u8;
    let mut nodes = nodes.into_iter();
    while let Some(left) = nodes.next() {
        let (node, fault) = left;
        node.part(config, number, &mut parts);
        first = first_of(first, config, number, fault);
        number = number.saturating_add(1);
    }
    nodes.destroy_empty();
    (parts, first)
}

// The fault that was there first, else what is told of this node's.
fn first_of(
    first: Option<RunFault>,
    config: &Config,
    number: u8,
    fault: Option<NodeFault>,
) -> Option<RunFault>
    ensures { result ≡ or_else first (told_of config.now number fault) }
{
    match first {
        Some(first) => Some(first),
        None => Some(fault_of_node(config, number, fault?)),
    }
}

// Reads journals back.
fn read_disks<D: Disk>(
    alloc: Global,
    disks: Vec<LentDisk<D>>,
) -> (Vec<LentDisk<D>>, Result<Journals, RunFault>)
    ensures same { EachWith (IsOnlyRead D.tells D.seen D.image D.since D.faults D.planned D.is_down) disks.items result.0.items }
    ensures count { length result.0.items ≡ length disks.items }
    ensures notes { IfOk result.1 (λ journals. AreReadFrom D.tells D.seen KeepsNotes (replicas disks.items) journals.notes.items) }
    ensures pairs { IfOk result.1 (λ journals. AreReadFrom D.tells D.seen KeepsPairs (outputs disks.items) journals.pairs.items) }
    ensures notes_left { OnOk result.1 (AreAmongImages D.tells D.seen D.image (replicas disks.items)) }
    ensures pairs_left { OnOk result.1 (AreAmongImages D.tells D.seen D.image (outputs disks.items)) }
    ensures err { IfErr result.1 (λ fault. OneWith (λ old new. IsToldBy D.tells D.image D.faults D.planned D.is_down old new fault) disks.items result.0.items) }
{
    let mut disks = disks;
    let read = read_back(alloc, &mut disks);
    (disks, read)
}

/// Reads the journals back, and gives all back. A fault that is there already is told before one of reading.
pub(crate) fn settle<F: Source, S: Store>(
    alloc: Global,
    files: &mut F,
    store: &mut S,
    parts: Parts<S::Disk, F::Log>,
    fault: Option<RunFault>,
) -> Result<Outcome, RunFault>
    requires { length parts.disks.items ≤ S.places_left store.old }
    ensures left { IsTrue S.Disk.tells → (name : DiskName) (c : List ℕ) → S.image store.new name c → MayBeLeft S.Disk.image (S.image store.old) (map as_lent parts.disks.items) name c }
    ensures notes { IfOk result (λ outcome. AreKeptIn S.Disk.tells S.Disk.image KeepsNotes (lent_replicas (map as_lent parts.disks.items)) outcome.journals.notes.items) }
    ensures pairs { IfOk result (λ outcome. AreKeptIn S.Disk.tells S.Disk.image KeepsPairs (lent_outputs (map as_lent parts.disks.items)) outcome.journals.pairs.items) }
    ensures whole { IfOk result (λ outcome. fault ≡ None) }
    // A fault of reading is none of the store where the disks are up.
    ensures told { IfErr result (λ f. (fault ≡ Some f) ⊎ ((fault ≡ None) × IsOfDisks S.Disk.tells S.Disk.image (map as_lent parts.disks.items) (Rose (S.faults store.old) (S.faults store.new)) f
        × (IsTrue S.Disk.planned → AreUp S.Disk.is_down (map as_lent parts.disks.items) → (at : Place) → f ≢ run_fault.Store at))) }
    ensures disks { (l : Lent S.Disk) → Mem l (map as_lent parts.disks.items) → 1 ≤ S.Disk.faults l.disk → Rose (S.faults store.old) (S.faults store.new) }
    ensures logs { (l : F.Log) → Mem l parts.logs.items → 1 ≤ F.Log.faults l → Rose (F.faults files.old) (F.faults files.new) }
    // Disks that are up meet no fault here.
    ensures calm { IsTrue S.Disk.planned → AreUp S.Disk.is_down (map as_lent parts.disks.items) → Each (λ l. S.Disk.faults l.disk ≡ 0) (map as_lent parts.disks.items) → S.faults store.new ≡ S.faults store.old }
    ensures same { IsTrue F.Log.tells → (n : List ℕ) → F.bytes files.new n ≡ F.bytes files.old n }
    ensures file_count { F.faults files.old ≤ F.faults files.new }
    ensures store_count { S.faults store.old ≤ S.faults store.new }
{
    let Parts { disks, logs } = parts;
    let (disks, read) = read_disks(alloc, disks);
    give_parts(files, store, Parts { disks, logs });
    outcome_of(fault, read)
}

// The fault that is there already, else what was read.
fn outcome_of(
    fault: Option<RunFault>,
    read: Result<Journals, RunFault>,
) -> Result<Outcome, RunFault>
    ensures ok { IfOk result (λ outcome. (fault ≡ None) × (read ≡ Ok outcome.journals)) }
    ensures err { IfErr result (λ f. (fault ≡ Some f) ⊎ ((fault ≡ None) × (read ≡ Err f))) }
{
    match fault {
        Some(fault) => Err(fault),
        None => match read {
            Ok(journals) => Ok(Outcome { journals }),
            Err(fault) => Err(fault),
        },
    }
}
