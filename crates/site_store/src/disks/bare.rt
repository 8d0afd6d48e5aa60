// An open store whose notes and pairs are given away.
ghost use Rattle.std.specs.Prelude.{◌≡◌, ◌≤◌, ◌<◌, ◌+◌, ◌++◌, [], ◌∷◌, ℕ, List, flat_map, length, vec_capacity, IsTrue, IfOk, IfErr};
ghost use Rattle.site_store.specs.Terms.{DiskName, added};
ghost use Rattle.site_store.specs.Lent.{MayBeLeft};
ghost use Rattle.site_store.specs.LentDisks.{all_lent, lent_of};
ghost use Rattle.site_store.specs.ReadBack.{notes_in, pairs_in};
ghost use Rattle.site_store.specs.Reading.{notes_at, pairs_at};
ghost use Rattle.site_store.specs.Records.{kept_all, lent_all, lent_by, topology_lent};

use crate::disks::{AnyJournal, OpenDisk, OpenStore};
use crate::lent::{LentDisk, ReadAs, give_all};
use outside::{Disk, DiskName, Store};
use std::alloc::{AllocError, Global};
use topology_journal::TopologyJournal;
use verify_pass::{Journals, NoteList, PairList};

/// The open disks of a state directory without the notes and pairs that they kept: the topology's journal, and all others.
#[derive(Drop)]
pub(crate) struct BareStore<D: Disk> {
    pub(crate) topology: TopologyJournal<D>,
    pub(crate) disks: Vec<LentDisk<D>>,
}

// A disk, and the notes or the pairs that its journal kept.
fn apart<D: Disk>(one: OpenDisk<D>) -> (LentDisk<D>, ReadAs)
    ensures disk { lent_of result.0 ≡ lent_by one }
    ensures notes { notes_in result.1 ≡ notes_at one.kept }
    ensures pairs { pairs_in result.1 ≡ pairs_at one.kept }
{
    let OpenDisk { name, journal } = one;
    let (disk, read) = match journal {
        AnyJournal::Topology(journal) => (journal.into_disk(), ReadAs::Neither),
        AnyJournal::Offset(journal) => (journal.into_disk(), ReadAs::Neither),
        AnyJournal::Retry(journal) => (journal.into_disk(), ReadAs::Neither),
        AnyJournal::Epoch(journal) => (journal.into_disk(), ReadAs::Neither),
        AnyJournal::Votes(journal) => {
            let (journal, votes) = journal.into_parts();
            let notes = NoteList::from(votes.into_notes());
            (journal.into_disk(), ReadAs::Notes(notes))
        }
        AnyJournal::Output(journal) => {
            let (journal, outputs) = journal.into_parts();
            let pairs = PairList::from(outputs.into_pairs());
            (journal.into_disk(), ReadAs::Pairs(pairs))
        }
    };
    (LentDisk { name, disk }, read)
}

// Room for the lists of so many disks, and for the disks.
fn room<D>(alloc: Global, count: usize) -> Result<(Journals, Vec<LentDisk<D>>), AllocError>
    ensures none { IfOk result (λ r. (r.0.notes.items ≡ []) × (r.0.pairs.items ≡ []) × (r.1.items ≡ [])) }
    ensures room { IfOk result (λ r. (count ≤ vec_capacity r.0.notes) × (count ≤ vec_capacity r.0.pairs) × (count ≤ vec_capacity r.1)) }
{
    let journals = Journals {
        notes: Vec::with_capacity(alloc, count)?,
        pairs: Vec::with_capacity(alloc, count)?,
    };
    Ok((journals, Vec::with_capacity(alloc, count)?))
}

// Puts what a disk kept behind the others of its kind.
fn put(journals: &mut Journals, read: ReadAs)
    requires notes { length journals.old.notes.items < vec_capacity journals.old.notes }
    requires pairs { length journals.old.pairs.items < vec_capacity journals.old.pairs }
    ensures notes { journals.new.notes.items ≡ journals.old.notes.items ++ notes_in read }
    ensures pairs { journals.new.pairs.items ≡ journals.old.pairs.items ++ pairs_in read }
    ensures notes_room { vec_capacity journals.new.notes ≡ vec_capacity journals.old.notes }
    ensures pairs_room { vec_capacity journals.new.pairs ≡ vec_capacity journals.old.pairs }
{
    match read {
        ReadAs::Notes(notes) => journals.notes.push_reserved(notes),
        ReadAs::Pairs(pairs) => journals.pairs.push_reserved(pairs),
        ReadAs::Neither => {}
    }
}

/// The notes and the pairs that an open store keeps, in the order of its disks, and the store without them. Nothing is copied
/// and no disk is read; it takes memory for the places of the lists alone. Where that is wanting the store is handed back.
pub(crate) fn journals_of<D: Disk>(
    alloc: Global,
    opened: OpenStore<D>,
) -> Result<(Journals, BareStore<D>), OpenStore<D>>
    ensures notes { IfOk result (λ r. r.0.notes.items ≡ flat_map (λ d. notes_at d.kept) (kept_all opened.disks.items)) }
    ensures pairs { IfOk result (λ r. r.0.pairs.items ≡ flat_map (λ d. pairs_at d.kept) (kept_all opened.disks.items)) }
    ensures topology { IfOk result (λ r. r.1.topology ≡ opened.topology) }
    ensures disks { IfOk result (λ r. all_lent r.1.disks.items ≡ lent_all opened.disks.items) }
    ensures count { IfOk result (λ r. length r.1.disks.items ≡ length opened.disks.items) }
    ensures err { IfErr result (λ same. same ≡ opened) }
{
    let Ok((mut journals, mut lent)) = room(alloc, opened.disks.len()) else {
        return Err(opened);
    };
    let OpenStore { topology, disks } = opened;
    let mut disks = disks.into_iter();
    while let Some(one) = disks.next() {
        let (disk, read) = apart(one);
        lent.push_reserved(disk);
        put(&mut journals, read);
    }
    disks.destroy_empty();
    Ok((
        journals,
        BareStore {
            topology,
            disks: lent,
        },
    ))
}

/// Gives the disks back to the store, under their names. It takes no memory.
pub(crate) fn give_bare<S: Store>(store: &mut S, bare: BareStore<S::Disk>)
    requires { 1 + length bare.disks.items ≤ S.places_left store.old }
    // What a stop may leave of a disk is what it might have left of it before it was given back, or of what stood in the store.
    ensures left { IsTrue S.Disk.tells → (name : DiskName) (c : List ℕ) → S.image store.new name c → MayBeLeft S.Disk.image (S.image store.old) (topology_lent bare.topology.journal.disk ∷ all_lent bare.disks.items) name c }
    ensures places { S.places_left store.old ≤ S.places_left store.new + (1 + length bare.disks.items) }
    ensures count { S.faults store.old ≤ S.faults store.new }
    // The faults that the topology's disk has met are among the store's then.
    ensures counted { added (S.faults store.old) (S.Disk.faults bare.topology.journal.disk) ≤ S.faults store.new }
{
    let BareStore { topology, disks } = bare;
    give_all(store, disks);
    store.give(DiskName::Topology, topology.into_disk());
}
