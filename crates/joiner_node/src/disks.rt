// What a joiner keeps on its disks.
ghost use Rattle.std.specs.Prelude.{◌≡◌, false, IsTrue, OnOk};
ghost use Rattle.joiner_node.specs.Terms.{of_two, note_of};
ghost use Rattle.joiner_node.specs.Disks.{has_more};

use crate::held::HeldEpoch;
use crate::joining::{Joining, PairsKept};
use crate::records::{FramedNote, framed};
use air_bus::Payload;
use ballot_core::LAST_EPOCH;
use epoch_journal::{EpochJournal, raise};
use gate_journal::Journal;
use joiner_core::JoinerNote;
use output_log::{LONGEST, OutputLog, laws};
use outside::{Disk, LogFile};
use site_node::{NodeDisk, NodeFault, Records, fault_of};
use std::alloc::{AllocError, Global};

/// A joiner's journals: its epochs, and the pairs that it wrote.
#[derive(Drop)]
pub struct Disks<D: Disk> {
    pub(crate) epochs: EpochJournal<D>,
    // That of the pairs keeps none in memory.
    pub(crate) log: Journal<D>,
    // How many pairs it has, as far as a word of 64 bits counts.
    pub(crate) written: u64,
}

impl<D: Disk> Disks<D> {
    ghost use Rattle.joiner_node.specs.Disks.{HasRoomFor, IsCalm, IsSame, Meets, faults};

    // Makes the room of the note's disk.
    fn make_room(&mut self, alloc: Global, note: &JoinerNote) -> Result<(), AllocError>
        ensures same { IsSame self.old self.new }
        ensures room { OnOk result (HasRoomFor self.new note.now) }
        ensures calm { IsTrue D.tells → IsCalm self.old self.new }
        ensures plan { IsTrue D.planned → Meets false self.old self.new }
        ensures count { faults self.new ≡ faults self.old }
    {
        match note {
            JoinerNote::Epoch(_) => self.epochs.make_room(alloc),
            JoinerNote::Pair(_) => self.log.make_room(alloc, LONGEST),
        }
    }
}

impl<D: Disk, L: LogFile> Records<PairsKept, Joining<L>> for Disks<D> {
    ghost use Rattle.joiner_node.specs.Joining.{takes_note};
    ghost use Rattle.joiner_node.specs.Disks.{Contents as Bytes, OnDisks, Doubts, Holds, HasGrown, IsCalm, MayAppend, StopsLeft, faults as faults_of, image as images, is_ready, since as images_since};
    ghost use Rattle.joiner_node.specs.Kept.{calm_still, calm_stays, doubt_images, held_images};

    type Framed = FramedNote;

    ghost tells = { D.tells };

    ghost planned = { D.planned };

    ghost disk_count = { 2 };

    ghost Contents = { Bytes };

    ghost keeps = { OnDisks };

    ghost ready = { is_ready };

    ghost holds = { Holds };

    ghost doubts = { Doubts };

    ghost can_take = { λ r n. takes_note r.epochs.value.epoch n };

    ghost note_in = { λ f. note_of f.note };

    ghost has_room = { λ r f. MayAppend r f.note };

    ghost image = { images };

    ghost since = { images_since };

    ghost grown = { HasGrown };

    ghost calm = { IsCalm };

    ghost faults = { faults_of };

    ghost disk_faults = { λ r. of_two (D.faults r.epochs.journal.disk) (D.faults r.log.disk) };

    ghost stops_left = { StopsLeft };

    ghost held = { λ r k tells h. held_images r k h };

    ghost doubted = { λ r k with tells d. doubt_images r k with d };

    ghost still = { λ r tells. calm_still r (λ x c. D.starts x c tells) };

    ghost stays = { λ old new k tells calm h. calm_stays old new k calm h };

    fn takes(&self, note: &JoinerNote) -> bool {
        match note {
            JoinerNote::Epoch(next) => {
                let epoch = self.epochs.value().epoch();
                epoch < LAST_EPOCH && *next == epoch + 1
            }
            JoinerNote::Pair(_) => true,
        }
    }

    fn frame(&mut self, alloc: Global, note: &JoinerNote) -> Result<FramedNote, AllocError> {
        self.make_room(alloc, note)?;
        let framed = framed(alloc, note)?;
        Ok(framed)
    }

    fn append(&mut self, framed: FramedNote) -> Result<Payload, Payload> {
        match &framed.note {
            JoinerNote::Epoch(_) => match raise(&mut self.epochs) {
                Ok(_) => Ok(framed.bytes),
                Err(_) => Err(framed.bytes),
            },
            JoinerNote::Pair(_) => match self.log.append(framed.bytes.as_slice()) {
                Ok(()) => {
                    self.written = self.written.saturating_add(1);
                    Ok(framed.bytes)
                }
                Err(_) => Err(framed.bytes),
            },
        }
    }

    // The log comes first: what was kept is known until the epochs are read as well.
    fn reopen(&mut self, alloc: Global) -> Result<(HeldEpoch, bool), NodeFault> {
        laws::told_apart();
        let written = match OutputLog::reopen_bare(alloc, &mut self.log) {
            Ok(outputs) => outputs.pairs().len() as u64,
            Err(fault) => return Err(fault_of(NodeDisk::Second, fault)),
        };
        let before = self.epochs.value().epoch();
        match self.epochs.reopen(alloc) {
            Ok(()) => {
                let epoch = self.epochs.value().epoch();
                let landed = has_more(epoch, before, written, self.written);
                self.written = written;
                Ok((HeldEpoch { epoch }, landed))
            }
            Err(fault) => Err(fault_of(NodeDisk::First, fault)),
        }
    }
}

// Whether either number is another than before.
fn has_more(epoch: u32, before: u32, written: u64, had: u64) -> bool
    ensures { result ≡ has_more epoch before written had }
{
    epoch != before || written != had
}
