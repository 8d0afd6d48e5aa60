// A server's core as what decides its node's turns: what it knows has spellings.
ghost use Rattle.std.specs.Prelude.{◌≡◌, ◌≤◌, false, ◌<◌, None, IfOk, Some, true, zero, ⊤};
ghost use Rattle.registry_server.specs.Terms.{LAST_EPOCH, Numbered, ServerKept, ServerLive, Setting, numbered, server_at_rest, server_rows, server_unfinished, server_wants, spent_epoch};
ghost use Rattle.registry_server.specs.Registrars.{is_spent_at};
ghost use Rattle.registry_server.specs.Cores.{MayRaise};

use crate::ServerCore;
use crate::notes::HeldEpoch;
use crate::station::Station;
use crate::turn::{Change, Turn};
use ballot_core::LAST_EPOCH;
use site_node::{Core, NodeFault};
use std::alloc::AllocError;
use std::marker::Model;
use turn_defs::Input;

/// What a server keeps: its site, and the epoch on its disk. There are no values of it.
#[derive(Drop)]
pub struct EpochKept;

impl Model for EpochKept {
    ghost Value = { Numbered ServerKept };

    ghost view = { λ v. record { number = 0; disk = record { epoch = 0 } } };
}

/// The core. What it knows has spellings, so what it sends has them.
#[derive(Drop)]
pub struct Registrar {
    core: ServerCore,
}

impl Model for Registrar {
    ghost use Rattle.registry_server.specs.Registrars.{IsSpelledCore};
    ghost use Rattle.registry_server.specs.declared.server_core.ServerCore.{ServerCore};
    ghost use Rattle.registry_server.specs.contracts.server_core.ServerCore as core_row;

    ghost Value = { ServerCore };

    ghost coded = { core_row.the_row.coded };

    ghost view = { λ v. v.core };

    ghost invariant = { λ v. IsSpelledCore v.core };
}

impl Registrar {
    ghost use Rattle.registry_server.specs.Registrars.{Knows};

    // A server of a site that is down, over this epoch. One allocation, for the table's shards.
    pub(crate) fn new(station: Station, held: HeldEpoch) -> Result<Registrar, AllocError>
        requires { station.site < 2 }
        ensures { IfOk result (λ r. (g : Setting) → g.config ≡ station.config → Knows r g (record { number = station.site; disk = record { epoch = held.epoch } }) None) }
    {
        let count = station.config.table.shards();
        prove!(count <= 16);
        let core = ServerCore::new(station, held)?;
        Ok(Registrar { core })
    }
}

impl Core<EpochKept> for Registrar {
    ghost use Rattle.registry_server.specs.Cores.{note_of};
    ghost use Rattle.registry_server.specs.Registrars.{CanKeep, GoesOn, Knows, ServesSite, is_next_epoch};

    type Note = HeldEpoch;

    type Change = Change;

    type Held = HeldEpoch;

    ghost tells = { true };

    ghost Live = { ServerLive };

    ghost rows = { numbered server_rows };

    ghost noted = { note_of };

    // Each epoch has a record.
    ghost spelled = { λ note. ⊤ };

    ghost takes = { λ k n. is_next_epoch k.disk.epoch n };

    ghost told = { λ held k. held.epoch ≡ k.disk.epoch };

    ghost serves = { ServesSite };

    ghost knows = { Knows };

    ghost can_keep = { CanKeep };

    ghost goes_on = { GoesOn };

    ghost spent = { λ k. spent_epoch k.disk.epoch };

    ghost wants_as = { λ g k l. server_wants g l };

    ghost unfinished_as = { λ g k l. server_unfinished g l };

    ghost at_rest_as = { λ g k l. server_at_rest g l };

    ghost log_faults = { λ v. 0 };

    ghost serves_known = { λ core g k live knows. record { site = knows.site; setting = knows.stands.config } };

    fn wants(&self) -> bool {
        self.core.wants()
    }

    fn unfinished(&self) -> bool {
        self.core.unfinished()
    }

    fn at_rest(&self) -> bool {
        self.core.at_rest()
    }

    fn decide(&mut self, input: Input) -> Result<Turn, NodeFault> {
        let epoch = self.core.held.epoch;
        if is_spent(epoch, &input) {
            return Err(NodeFault::Spent(epoch));
        }
        let turn = self.core.decide(&input)?;
        Ok(turn)
    }

    // The trait's clauses once more, which `rt check` can't give this method by itself.
    #[tactic(auto, using(crate::proofs::Registering::keeps_spelled, crate::proofs::Registering::keeps_on))]
    fn keep(&mut self, turn: Turn)
        requires { CanKeep self.old turn.note turn.change }
        ensures knows { (g : Setting) (k : Numbered ServerKept) (l : ServerLive) → GoesOn self.old turn.note turn.change g k l → Knows self.new g k (Some l) }
        ensures log_count { zero ≡ zero }
    {
        self.core.keep(turn);
    }

    fn put_down(&mut self, held: HeldEpoch) {
        self.core.put_down(held);
    }
}

// A start has no epoch left.
fn is_spent(epoch: u32, input: &Input) -> bool
    ensures is { result ≡ is_spent_at epoch input.now }
    ensures low { epoch ≤ LAST_EPOCH → result ≡ false → MayRaise epoch input.now }
{
    match input {
        Input::Start => epoch == LAST_EPOCH,
        Input::Own | Input::Tick | Input::Deliver { .. } => false,
    }
}
