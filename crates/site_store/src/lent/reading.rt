// Reading disks back.
ghost use Rattle.std.specs.Prelude.{◌≡◌, ◌++◌, IsTrue, IfOk, IfErr, OnOk};
ghost use Rattle.site_store.specs.Terms.{KeepsNotes, KeepsPairs};
ghost use Rattle.site_store.specs.ReadBack.{EachWith, OneWith, replicas, outputs, notes_in, pairs_in, AreReadFrom, AreAmongImages, IsReadAs, IsAnImage, IsOnlyRead, IsToldBy};

use crate::disks::opening::told;
use crate::lent::LentDisk;
use crate::lent::records::read_again;
use output_log::{Outputs, Votes};
use outside::{Disk, DiskName};
use run_fault::RunFault;
use std::alloc::{AllocError, Global};
use verify_pass::{Journals, NoteList, PairList};

/// What a disk is read as.
#[derive(Drop)]
pub(crate) enum ReadAs {
    Notes(NoteList),
    Pairs(PairList),
    /// It isn't read.
    Neither,
}

/// Reads a replica's disk or an output's again, and no other.
fn read_one<D: Disk>(alloc: Global, lent: &mut LentDisk<D>) -> Result<ReadAs, RunFault>
    ensures read { IfOk result (IsReadAs D.tells D.seen lent.old) }
    ensures left { IfOk result (IsAnImage D.tells D.seen D.image lent.old) }
    ensures same { IsOnlyRead D.tells D.seen D.image D.since D.faults D.planned D.is_down lent.old lent.new }
    ensures err { IfErr result (IsToldBy D.tells D.image D.faults D.planned D.is_down lent.old lent.new) }
{
    match lent.name {
        DiskName::Replica(_) => match read_again::<D, Votes>(alloc, &mut lent.disk) {
            Ok(votes) => Ok(ReadAs::Notes(NoteList::from(votes.into_notes()))),
            Err(fault) => Err(told(lent.name, fault)),
        },
        DiskName::Output(_, _) => match read_again::<D, Outputs>(alloc, &mut lent.disk) {
            Ok(outputs) => Ok(ReadAs::Pairs(PairList::from(outputs.into_pairs()))),
            Err(fault) => Err(told(lent.name, fault)),
        },
        _ => Ok(ReadAs::Neither),
    }
}

// Puts what was read behind the others of its kind.
fn put(journals: &mut Journals, read: ReadAs) -> Result<(), AllocError>
    ensures notes { OnOk result (journals.new.notes.items ≡ journals.old.notes.items ++ notes_in read) }
    ensures pairs { OnOk result (journals.new.pairs.items ≡ journals.old.pairs.items ++ pairs_in read) }
{
    match read {
        ReadAs::Notes(notes) => journals.notes.push(notes)?,
        ReadAs::Pairs(pairs) => journals.pairs.push(pairs)?,
        ReadAs::Neither => {}
    }
    Ok(())
}

/// Reads each replica's disk and each output's again, in order, with no changing call: a list of notes for each replica, and
/// a list of pairs for each output. The first disk that can't be read ends it. Linear in the files, in time and memory.
#[tactic(auto, using(crate::proofs::Walking::next_one, crate::proofs::Walking::first_all, crate::proofs::Readings::untouched))]
pub fn read_back<D: Disk>(alloc: Global, disks: &mut [LentDisk<D>]) -> Result<Journals, RunFault>
    ensures notes { IfOk result (λ journals. AreReadFrom D.tells D.seen KeepsNotes (replicas disks.old) journals.notes.items) }
    ensures pairs { IfOk result (λ journals. AreReadFrom D.tells D.seen KeepsPairs (outputs disks.old) journals.pairs.items) }
    // What they are read from is what a stop may leave of them.
    ensures notes_left { OnOk result (AreAmongImages D.tells D.seen D.image (replicas disks.old)) }
    ensures pairs_left { OnOk result (AreAmongImages D.tells D.seen D.image (outputs disks.old)) }
    ensures same { EachWith (IsOnlyRead D.tells D.seen D.image D.since D.faults D.planned D.is_down) disks.old disks.new }
    ensures err { IfErr result (λ fault. OneWith (λ old new. IsToldBy D.tells D.image D.faults D.planned D.is_down old new fault) disks.old disks.new) }
{
    let mut journals = Journals {
        notes: Vec::new(alloc),
        pairs: Vec::new(alloc),
    };
    for i in 0..disks.len() {
        let read = match read_one(alloc, &mut disks[i]) {
            Ok(read) => read,
            Err(fault) => return Err(fault),
        };
        let Ok(()) = put(&mut journals, read) else {
            return Err(RunFault::Memory);
        };
    }
    Ok(journals)
}
