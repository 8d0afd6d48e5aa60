// The replica's core: an acceptor, and packets in place of answers.
ghost use Rattle.std.specs.Prelude.{◌≡◌, ◌<◌, ◌∷◌, [], IfOk, OnSome};
ghost use Rattle.replica_node.specs.Terms.{ReplicaKept, Setting, accepts, cell_at, kept_of, land, land_replica, on_accept, on_prepare, prepares, replica_gets, replica_start, room, same_batch};
ghost use Rattle.replica_node.specs.Core.{GoesOn, HasRoomIn, IsRow, Stands, noted};
ghost use Rattle.replica_node.specs.declared.turn.Change.TheVariants.{Stays};

use crate::answers::{prepared, taken};
use crate::replay::replay;
use crate::turn::{Change, Turn, idle};
use ballot_core::Ballot;
use paxos_acceptor::{Acceptor, ReplicaNote};
use paxos_defs::Place;
use registry_state::Batch;
use std::alloc::{AllocError, Global};
use turn_defs::{Node, Packet};

/// A replica while it is up: what its journal's notes say of each place.
///
/// A turn is decided, its note is written, then it is kept. A turn that isn't kept leaves no trace.
#[derive(Drop)]
pub struct ReplicaCore {
    acceptor: Acceptor,
    alloc: Global,
}

impl ReplicaCore {
    /// Of an empty journal; `Start` gives it its notes. It takes no memory.
    pub fn new(alloc: Global) -> ReplicaCore
        ensures { Stands result (kept_of []) }
    {
        ReplicaCore {
            acceptor: Acceptor::new(alloc),
            alloc,
        }
    }

    /// Makes the turn's change, once its note is written, in constant expected time. It takes no memory.
    pub fn keep(&mut self, turn: Turn)
        requires { OnSome turn.note (HasRoomIn self.old turn.change) }
        ensures { (k : ReplicaKept) → GoesOn self.old turn.change k → Stands self.new (land land_replica (noted turn.note) k) }
    {
        let Turn {
            note,
            packets: _,
            change,
        } = turn;
        self.go_on(change);
        if let Some(note) = note {
            self.acceptor.keep(note);
        }
    }

    // What it knows, or what its journal says where it starts.
    fn go_on(&mut self, change: Change)
        ensures next { (k : ReplicaKept) → GoesOn self.old change k → Stands self.new k }
        ensures room { HasRoomIn self.old change → 0 < room self.new.acceptor }
    {
        match change {
            Change::Stays => {}
            Change::Starts(acceptor) => self.acceptor = acceptor,
        }
    }

    // It comes up with nothing to write or send.
    pub(crate) fn start(&self, notes: &[ReplicaNote]) -> Result<Turn, AllocError>
        ensures turn { IfOk result (λ turn. (g : Setting) (k : ReplicaKept) → IsRow g (replica_start k) turn) }
        ensures next { IfOk result (λ turn. (k : ReplicaKept) → kept_of notes.now ≡ k → GoesOn self.now turn.change k) }
        ensures room { IfOk result (λ turn. OnSome turn.note (HasRoomIn self.now turn.change)) }
    {
        let acceptor = replay(self.alloc, notes)?;
        Ok(idle(self.alloc, Change::Starts(acceptor)))
    }

    // Prepare and Accept have rows; nothing else is answered.
    pub(crate) fn gets(&mut self, from: Node, packet: &Packet) -> Result<Turn, AllocError>
        ensures same { (k : ReplicaKept) → Stands self.old k → Stands self.new k }
        ensures turn { IfOk result (λ turn. (g : Setting) (k : ReplicaKept) → Stands self.old k → IsRow g (replica_gets k from packet.now) turn) }
        ensures change { IfOk result (λ turn. turn.change ≡ Stays) }
        ensures room { IfOk result (λ turn. OnSome turn.note (HasRoomIn self.new turn.change)) }
    {
        match packet {
            Packet::Prepare { place, ballot } => self.prepare(from, *place, *ballot),
            Packet::Accept {
                place,
                ballot,
                batch,
            } => self.accept(from, *place, *ballot, batch),
            _ => Ok(idle(self.alloc, Change::Stays)),
        }
    }

    // Prepare b: promised above b: Nack, with that ballot. Promised b: Promise, with what was accepted, and no note.
    // Else note "promised b", and Promise so.
    fn prepare(&mut self, from: Node, place: Place, ballot: Ballot) -> Result<Turn, AllocError>
        ensures same { (k : ReplicaKept) → Stands self.old k → Stands self.new k }
        ensures turn { IfOk result (λ turn. (g : Setting) (k : ReplicaKept) → Stands self.old k → IsRow g (prepares from place ballot (on_prepare (cell_at k place) ballot)) turn) }
        ensures change { IfOk result (λ turn. turn.change ≡ Stays) }
        ensures room { IfOk result (λ turn. OnSome turn.note (HasRoomIn self.new turn.change)) }
    {
        let (note, answer) = self.acceptor.on_prepare(place.shard, place.slot, ballot)?;
        let turn = self.say(from, prepared(place, ballot, answer), note)?;
        Ok(turn)
    }

    // Accept b v: promised above b: Nack, with that ballot. Accepted v at b last: Accepted, and no note. Else note
    // "accepted v at b", and Accepted.
    fn accept(
        &mut self,
        from: Node,
        place: Place,
        ballot: Ballot,
        batch: &Batch,
    ) -> Result<Turn, AllocError>
        ensures same { (k : ReplicaKept) → Stands self.old k → Stands self.new k }
        ensures turn { IfOk result (λ turn. (g : Setting) (k : ReplicaKept) → Stands self.old k → IsRow g (accepts from place ballot (on_accept same_batch (cell_at k place) ballot batch.now)) turn) }
        ensures change { IfOk result (λ turn. turn.change ≡ Stays) }
        ensures room { IfOk result (λ turn. OnSome turn.note (HasRoomIn self.new turn.change)) }
    {
        let (note, answer) = self
            .acceptor
            .on_accept(place.shard, place.slot, ballot, batch)?;
        let turn = self.say(from, taken(place, ballot, answer), note)?;
        Ok(turn)
    }

    // A packet to the sender, and room for the note.
    fn say(
        &mut self,
        to: Node,
        packet: Packet,
        note: Option<ReplicaNote>,
    ) -> Result<Turn, AllocError>
        ensures same { (k : ReplicaKept) → Stands self.old k → Stands self.new k }
        ensures note { IfOk result (λ turn. turn.note ≡ note) }
        ensures packets { IfOk result (λ turn. turn.packets.items ≡ (to, packet) ∷ []) }
        ensures change { IfOk result (λ turn. turn.change ≡ Stays) }
        ensures room { IfOk result (λ turn. OnSome turn.note (HasRoomIn self.new turn.change)) }
    {
        let mut packets = Vec::with_capacity(self.alloc, 1)?;
        packets.push((to, packet))?;
        if note.is_some() {
            self.acceptor.make_room()?;
        }
        Ok(Turn {
            note,
            packets,
            change: Change::Stays,
        })
    }
}
