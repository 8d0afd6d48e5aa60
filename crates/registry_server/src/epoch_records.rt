// What a server keeps on its disk.
ghost use Rattle.std.specs.Prelude.{◌≡◌, ◌<◌, ◌+◌, List, ℕ};
ghost use Rattle.registry_server.specs.Terms.{LAST_EPOCH, epoch_record, Continues, Epoch};

use crate::notes::HeldEpoch;
use crate::registrar::{EpochKept, Registrar};
use air_bus::Payload;
use ballot_core::LAST_EPOCH;
use epoch_journal::{EpochJournal, RaiseFault, epoch_frame, raise};
use outside::Disk;
use site_node::{NodeDisk, NodeFault, Records, fault_of};
use std::alloc::{AllocError, Global};

/// A server's journal. It holds nothing but how often the server has started: what it learned it is told again.
#[derive(Drop)]
pub struct EpochRecords<D: Disk> {
    pub(crate) journal: EpochJournal<D>,
}

/// An epoch with its record.
#[derive(Drop)]
pub struct FramedEpoch {
    epoch: u32,
    bytes: Payload,
    ghost spelled: { bytes ≡ epoch_record epoch },
}

impl<D: Disk> Records<EpochKept, Registrar> for EpochRecords<D> {
    ghost use Rattle.gate_journal.specs.Disk.{HasRoom};
    ghost use Rattle.outside.specs.Plans.{AtMost};
    ghost use Rattle.site_node.specs.Faults.{of_two};
    ghost use Rattle.registry_server.specs.Registrars.{is_next_epoch};
    ghost use Rattle.registry_server.specs.Node.{OnDisk, Holds, IsCalm, Doubts, MayAppend, calm_still, calm_stays, doubt_images, held_images, is_ready};

    type Framed = FramedEpoch;

    ghost tells = { D.tells };

    ghost planned = { D.planned };

    ghost disk_count = { 1 };

    ghost Contents = { List ℕ };

    ghost keeps = { OnDisk };

    ghost ready = { λ r. is_ready r.journal.journal.state };

    ghost holds = { λ r k. Holds r.journal.value.epoch r.journal.journal.state k };

    ghost doubts = { λ r k with. Doubts r.journal.value.epoch (D.image r.journal.journal.disk) k with };

    ghost can_take = { λ r n. is_next_epoch r.journal.value.epoch n };

    ghost note_in = { λ f. Epoch f.epoch };

    ghost has_room = { λ r f. MayAppend r.journal.value.epoch f.epoch r.journal.journal.state (HasRoom (D.calls_left r.journal.journal.disk) (D.bytes_left r.journal.journal.disk) 5) };

    ghost image = { λ r. D.image r.journal.journal.disk };

    ghost since = { λ old new. D.since old.journal.journal.disk new.journal.journal.disk };

    ghost grown = { λ old new. (c : List ℕ) → D.image new.journal.journal.disk c → Continues (D.image old.journal.journal.disk) c };

    ghost calm = { λ old new. IsCalm old.journal.value.epoch new.journal.value.epoch old.journal.journal.state new.journal.journal.state D.image D.since old.journal.journal.disk new.journal.journal.disk };

    ghost faults = { λ r. D.faults r.journal.journal.disk };

    ghost disk_faults = { λ r. of_two (D.faults r.journal.journal.disk) 0 };

    ghost stops_left = { λ r. AtMost (D.stops r.journal.journal.disk) (D.made r.journal.journal.disk) };

    ghost held = { λ r k tells h c here. held_images r.journal.value.epoch r.journal.journal.state k h c (r.journal.durable tells h.ready c here) };

    ghost doubted = { λ r k with tells d. doubt_images r.journal.value.epoch (D.image r.journal.journal.disk) k with d };

    ghost still = { λ r tells. calm_still r.journal.value.epoch r.journal.journal.state D.image D.since r.journal.journal.disk (λ c. D.starts r.journal.journal.disk c tells) };

    ghost stays = { λ old new k tells calm h. calm_stays old.journal.value.epoch new.journal.value.epoch old.journal.journal.state new.journal.journal.state D.image D.since old.journal.journal.disk new.journal.journal.disk k calm h (old.journal.durable tells h.ready) };

    fn takes(&self, note: &HeldEpoch) -> bool {
        let epoch = self.journal.value().epoch();
        epoch < LAST_EPOCH && note.epoch == epoch + 1
    }

    fn frame(&mut self, alloc: Global, note: &HeldEpoch) -> Result<FramedEpoch, AllocError> {
        let epoch = note.epoch;
        let bytes = Payload::from_slice(alloc, &epoch_frame(epoch))?;
        self.journal.make_room(alloc)?;
        Ok(FramedEpoch { epoch, bytes })
    }

    fn append(&mut self, framed: FramedEpoch) -> Result<Payload, Payload> {
        match raise(&mut self.journal) {
            Ok(_) => Ok(framed.bytes),
            // Neither of the others comes: the epoch isn't the last one, and the journal is ready.
            Err(RaiseFault::Disk | RaiseFault::EpochSpent | RaiseFault::Broken) => {
                Err(framed.bytes)
            }
        }
    }

    fn reopen(&mut self, alloc: Global) -> Result<(HeldEpoch, bool), NodeFault> {
        let before = self.journal.value().epoch();
        match self.journal.reopen(alloc) {
            Ok(()) => {
                let epoch = self.journal.value().epoch();
                Ok((HeldEpoch { epoch }, epoch != before))
            }
            Err(fault) => Err(fault_of(NodeDisk::First, fault)),
        }
    }
}
