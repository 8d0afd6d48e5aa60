// The records of a dispatcher on its two disks.
ghost use Rattle.std.specs.Prelude.{◌≡◌, ◌≤◌, Some, true, false, is_err, IfOk, IfErr, OnOk, OnErr, IsTrue, List, ℕ};
ghost use Rattle.dispatch_node.specs.Terms.{DispatchNote, DispatcherKept, HasFailed, IsKept, IsOfRestart, IsWhole, Numbered, Rose, land_dispatcher, told, was_shut_out};

use crate::dispatcher::{Dispatcher, HeldPlaces, PlacesKept};
use crate::notes::FramedNote;
use air_bus::Payload;
use dispatch_core::DispatchNote;
use gate_journal::AppendFault;
use offset_journal::{OffsetJournal, offset_record};
use outside::{Disk, LogFile};
use retry_log::{Change, RetryLog, change_record};
use site_node::{NodeDisk, NodeFault, Records, fault_of};
use std::alloc::{AllocError, Global};

/// The offset on one disk, and the pending positions on another. A note is written to one of them alone.
#[derive(Drop)]
pub struct Journals<D: Disk> {
    pub(crate) offset: OffsetJournal<D>,
    pub(crate) retry: RetryLog<D>,
    // The note of the last append that failed.
    pub(crate) in_doubt: Option<DispatchNote>,
}

impl<D: Disk> Journals<D> {
    ghost use Rattle.dispatch_node.specs.Kept.{takes_note};
    ghost use Rattle.dispatch_node.specs.Journals.{Doubts, HasRoomFor, IsCalm, IsFound, IsOpenedAgain, IsWritten, MayWrite, Meets, are_ready, disk_faults, faults, kept};

    // The offset, and a copy of the pending positions in the order of parking.
    #[tactic(auto, using(crate::proofs::Disks::distinct_of))]
    pub(crate) fn held(&self, alloc: Global) -> Result<HeldPlaces, AllocError>
        ensures { IfOk result (λ held. IsKept (kept self.now) held.offset held.pending.items) }
    {
        let pending = Vec::from_slice(alloc, self.retry.value().pending().as_slice())?;
        Ok(HeldPlaces {
            offset: self.offset.value().offset(),
            pending,
        })
    }

    // Room for the note, on its disk.
    fn make_room(&mut self, alloc: Global, note: DispatchNote) -> Result<(), AllocError>
        ensures room { OnOk result (HasRoomFor self.new note) }
        ensures same { (are_ready self.new ≡ are_ready self.old) × (kept self.new ≡ kept self.old) }
        ensures calm { IsTrue D.tells → IsCalm self.old self.new }
        ensures plan { IsTrue D.tells → Meets false self.old self.new }
        ensures count { faults self.new ≡ faults self.old }
    {
        match note {
            DispatchNote::Advance(_) => self.offset.make_room(alloc),
            DispatchNote::Park(_) | DispatchNote::Settle(_) => self.retry.make_room(alloc),
        }
    }

    // Writes the note to its disk. It takes no memory.
    #[tactic(auto, using(crate::proofs::Disks::settled, crate::proofs::Disks::none_parked, crate::proofs::Disks::pending_has))]
    fn write(&mut self, note: DispatchNote) -> Result<(), AppendFault>
        requires { MayWrite self.old note }
        ensures kept { OnOk result ((are_ready self.new ≡ true) × (kept self.new ≡ land_dispatcher (told note) (kept self.old))) }
        ensures written { IsTrue D.tells → IsWritten self.old self.new (told note) }
        ensures fault { OnErr result (Rose (faults self.old) (faults self.new)) }
        ensures plan { IsTrue D.tells → Meets (is_err result) self.old self.new }
        ensures count { faults self.old ≤ faults self.new }
    {
        match note {
            DispatchNote::Advance(end) => self.offset.append(&offset_record(end), end),
            DispatchNote::Park(position) => {
                let change = Change::Park(position);
                self.retry.append(&change_record(change), change)
            }
            DispatchNote::Settle(position) => {
                let change = Change::Settle(position);
                self.retry.append(&change_record(change), change)
            }
        }
    }

    // Reads both disks as a stop left them. Linear in the files.
    fn reopen_both(&mut self, alloc: Global) -> Result<(), NodeFault>
        ensures ok { OnOk result ((are_ready self.new ≡ true) × (IsTrue D.tells → IsFound self.old self.new)) }
        ensures opened { IsTrue D.tells → IsOpenedAgain self.old self.new }
        ensures fault { IfErr result (λ fault. IsOfRestart fault × HasFailed (disk_faults self.old) (disk_faults self.new) fault) }
        ensures plan { IsTrue D.planned → Meets (was_shut_out result) self.old self.new }
        ensures whole { IsTrue D.tells → (k with : Numbered DispatcherKept) → Doubts self.old k with → IfErr result IsWhole }
        ensures count { faults self.old ≤ faults self.new }
    {
        match self.offset.reopen(alloc) {
            Ok(()) => {}
            Err(fault) => return Err(fault_of(NodeDisk::First, fault)),
        }
        match self.retry.reopen(alloc) {
            Ok(()) => Ok(()),
            Err(fault) => Err(fault_of(NodeDisk::Second, fault)),
        }
    }
}

impl<D: Disk, L: LogFile> Records<PlacesKept, Dispatcher<L>> for Journals<D> {
    ghost use Rattle.dispatch_node.specs.Kept.{OnDisks, takes_note};
    ghost use Rattle.dispatch_node.specs.Journals.{Doubts, Grows, Holds, Image, IsCalm, MayWrite, Since, StopsLeft, are_ready, calm_stays, calm_still, disk_faults, doubted_images, faults, held_images, kept};

    type Framed = FramedNote;

    ghost tells = { D.tells };

    ghost planned = { D.planned };

    ghost disk_count = { 2 };

    ghost Contents = { List ℕ × List ℕ };

    ghost keeps = { λ k. OnDisks k.disk };

    ghost ready = { are_ready };

    ghost holds = { Holds };

    ghost doubts = { Doubts };

    ghost can_take = { λ j n. takes_note (kept j) n };

    ghost note_in = { λ framed. told framed.note };

    ghost has_room = { λ j framed. MayWrite j framed.note };

    ghost image = { Image };

    ghost since = { Since };

    ghost grown = { Grows };

    ghost calm = { IsCalm };

    ghost faults = { faults };

    ghost disk_faults = { disk_faults };

    ghost stops_left = { StopsLeft };

    ghost held = { λ j k tells. held_images tells j k };

    ghost doubted = { λ j k with tells. doubted_images j k with };

    ghost still = { λ j tells. calm_still (λ disk c. D.starts disk c tells) j };

    ghost stays = { λ old new k tells. calm_stays tells old new k };

    // An offset above the kept one, a position that isn't pending to be parked, one that is to be settled. Constant
    // expected time.
    #[tactic(auto, using(dispatch_core::proofs::Sets::any_has))]
    fn takes(&self, note: &DispatchNote) -> bool {
        match *note {
            DispatchNote::Advance(end) => self.offset.value().offset() < end,
            DispatchNote::Park(position) => !self.retry.value().pending().contains(&position),
            DispatchNote::Settle(position) => self.retry.value().pending().contains(&position),
        }
    }

    fn frame(&mut self, alloc: Global, note: &DispatchNote) -> Result<FramedNote, AllocError> {
        let framed = FramedNote::new(alloc, *note)?;
        self.make_room(alloc, *note)?;
        Ok(framed)
    }

    fn append(&mut self, framed: FramedNote) -> Result<Payload, Payload> {
        match self.write(framed.note) {
            Ok(()) => Ok(framed.bytes),
            Err(_) => {
                self.in_doubt = Some(framed.note);
                Err(framed.bytes)
            }
        }
    }

    fn reopen(&mut self, alloc: Global) -> Result<(HeldPlaces, bool), NodeFault> {
        self.reopen_both(alloc)?;
        let held = self.held(alloc)?;
        // Where the note in doubt is among the records it can't be written again.
        match &self.in_doubt {
            Some(note) => {
                let takes = <Journals<D> as Records<PlacesKept, Dispatcher<L>>>::takes(self, note);
                Ok((held, !takes))
            }
            None => Ok((held, false)),
        }
    }
}
