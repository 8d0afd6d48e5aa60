// The rows of a server's turns that look at one shard. Each gives the turn of the row, and says where none applies.
ghost use Rattle.std.specs.Prelude.{◌≡◌, ◌++◌, ◌-◌, ◌<◌, ◌^◌, IfOk, OnOk, Some, option_map};
ghost use Rattle.registry_server.specs.Terms.{LAST_SLOT, ServerKept, ServerLive, Setting, again, claimed, from_replica, gets_accepted, gets_chosen, gets_nack, gets_promise, prior_of, promise_turn, replay, server_gets};
ghost use Rattle.registry_server.specs.Stations.{setting, sent};
ghost use Rattle.registry_server.specs.ShardStates.{IsShard};
ghost use Rattle.registry_server.specs.Cores.{Gives};
ghost use Rattle.registry_server.specs.Rowed.{IsAt, IsRow, IsRowOf, FitsAt, StaysShard, accept_all, proposes_if, learns_behind, current_of};

use crate::packets::{ask_all, push_replies, push_reply};
use crate::shard::{Shard, Step, Test};
use crate::station::Station;
use crate::turn::{Change, Turn, idle, one};
use ballot_core::Ballot;
use paxos_defs::Place;
use paxos_proposer::Proposer;
use registry_state::{Batch, Insert};
use std::alloc::AllocError;
use turn_defs::{LAST_SLOT, Node, Packet};

impl Shard {
    // An insert comes. It is answered where a learned value answers it; else it goes to the queue, where its token
    // doesn't wait and there is a place.
    pub(crate) fn claimed(
        &mut self,
        station: &Station,
        number: u8,
        round: u64,
        insert: Insert,
    ) -> Result<Turn, AllocError>
        ensures row { IfOk result (λ turn. IsRow station.now self.old number round turn
            (λ g k l. claimed g station.now.site k l insert number (l.shards number) (replay (l.shards number).learned insert.id insert.token))) }
        ensures fits { IfOk result (λ turn. FitsAt number turn.change self.new) }
        ensures same { StaysShard self.old self.new }
    {
        let mut packets = Vec::new(station.alloc);
        if let Some(answer) = self.registry.replay(insert.id, insert.token) {
            push_reply(station, &mut packets, insert, answer)?;
            return Ok(Turn {
                note: None,
                packets,
                change: Change::Nothing,
            });
        }
        self.queue.make_room()?;
        Ok(one(number, round, packets, Step::Queue(insert)))
    }

    // The server's own work at this shard: where a proposal may begin, a ballot of the next round is drawn, and every
    // replica is asked for its promise. One allocation, for the batch of the first inserts that wait.
    pub(crate) fn propose(
        &self,
        station: &Station,
        number: u8,
        round: u64,
        epoch: u32,
    ) -> Result<Turn, AllocError>
        requires { round < LAST_SLOT }
        ensures row { IfOk result (λ turn. (g : Setting) (k : ServerKept) (l : ServerLive) → IsAt (setting station.now g) self.now number round l
            → epoch ≡ k.epoch → Gives (setting station.now g) station.now.site l turn (proposes_if (setting station.now g) station.now.site k l number)) }
        ensures fits { IfOk result (λ turn. FitsAt number turn.change self.now) }
    {
        if !self.passes(station, Test::MayPropose) {
            return Ok(idle(station.alloc));
        }
        let ballot = Ballot {
            round: round + 1,
            epoch,
            site: station.site,
        };
        let config = station.config;
        let own = self
            .queue
            .front_batch(config.horizon, u32::from(config.batch))?;
        let mut packets = Vec::new(station.alloc);
        ask_all(station, &mut packets, self.place(number), ballot, None)?;
        let proposer = Proposer::start(config.replicas, self.next, ballot, own);
        Ok(one(number, round + 1, packets, Step::Propose(proposer)))
    }

    // A replica promised the proposal's ballot. It is counted; the promise that makes a majority has every replica asked
    // to accept the value: that of the highest prior, or the server's own batch where none came.
    fn gets_promise(
        &self,
        station: &Station,
        number: u8,
        round: u64,
        from: u8,
        slot: u64,
        ballot: Ballot,
        prior: &Option<(Ballot, Batch)>,
    ) -> Result<Turn, AllocError>
        ensures row { IfOk result (λ turn. IsRow station.now self.now number round turn
            (λ g k l. gets_promise g station.now.site k l from (record { shard = number; slot = slot }) ballot prior.now (l.shards number) (l.shards number).proposal)) }
        ensures fits { IfOk result (λ turn. FitsAt number turn.change self.now) }
    {
        let Some(proposal) = self.current(slot, ballot) else {
            return Ok(idle(station.alloc));
        };
        let place = Place {
            shard: number,
            slot,
        };
        let packets = promised(station, proposal, place, from, ballot, prior)?;
        let kept = copied(prior)?;
        Ok(one(number, round, packets, Step::Promise(from, kept)))
    }

    // A replica accepted the proposal's value. It is counted; the acceptance that makes a majority has the value learned
    // and told to the other server, and each waiting insert answered that it answers.
    fn gets_accepted(
        &mut self,
        station: &Station,
        number: u8,
        round: u64,
        from: u8,
        slot: u64,
        ballot: Ballot,
    ) -> Result<Turn, AllocError>
        ensures row { IfOk result (λ turn. IsRow station.now self.old number round turn
            (λ g k l. gets_accepted g station.now.site k l from (record { shard = number; slot = slot }) ballot (l.shards number) (l.shards number).proposal)) }
        ensures fits { IfOk result (λ turn. FitsAt number turn.change self.new) }
        ensures same { StaysShard self.old self.new }
    {
        let Some(proposal) = self.current(slot, ballot) else {
            return Ok(idle(station.alloc));
        };
        // A slot with a proposal is below the limit.
        if self.next >= LAST_SLOT {
            return Ok(idle(station.alloc));
        }
        let mut packets = Vec::new(station.alloc);
        if !proposal.on_accepted(from, ballot) {
            return Ok(one(number, round, packets, Step::Accept(from)));
        }
        let value = proposal.value().copy()?;
        let place = Place {
            shard: number,
            slot,
        };
        let told = Packet::Chosen {
            place,
            batch: value.copy()?,
        };
        packets.push((Node::Server(1u8.saturating_sub(station.site)), told))?;
        self.learned(station, number, round, value, packets)
    }

    // A replica refused the proposal's ballot, since it promised a higher one. The proposal ends, the round rises to the
    // higher one's, and the shard holds back until the next Tick.
    fn gets_nack(
        &self,
        station: &Station,
        number: u8,
        round: u64,
        slot: u64,
        ballot: Ballot,
        promised: Ballot,
    ) -> Turn
        ensures row { IsRow station.now self.now number round result
            (λ g k l. gets_nack g station.now.site k l (record { shard = number; slot = slot }) ballot promised (l.shards number) (l.shards number).proposal) }
        ensures fits { FitsAt number result.change self.now }
    {
        let Some(_) = self.current(slot, ballot) else {
            return idle(station.alloc);
        };
        let packets = Vec::new(station.alloc);
        one(number, round.max(promised.round), packets, Step::Hold)
    }

    // The other server tells the value chosen at the next slot. It is learned, and each waiting insert answered that it
    // answers.
    fn gets_chosen(
        &mut self,
        station: &Station,
        number: u8,
        round: u64,
        slot: u64,
        batch: &Batch,
    ) -> Result<Turn, AllocError>
        ensures row { IfOk result (λ turn. IsRow station.now self.old number round turn
            (λ g k l. gets_chosen g station.now.site k l (record { shard = number; slot = slot }) batch.now (l.shards number))) }
        ensures fits { IfOk result (λ turn. FitsAt number turn.change self.new) }
        ensures same { StaysShard self.old self.new }
    {
        if slot != self.next {
            return Ok(idle(station.alloc));
        }
        if slot >= LAST_SLOT {
            return Ok(idle(station.alloc));
        }
        let packets = Vec::new(station.alloc);
        self.learned(station, number, round, batch.copy()?, packets)
    }

    // The turn that learns the value: behind these packets a Reply for each waiting insert that the values answer, with
    // this one among them. It makes room in the registry.
    fn learned(
        &mut self,
        station: &Station,
        number: u8,
        round: u64,
        value: Batch,
        mut packets: Vec<(Node, Packet)>,
    ) -> Result<Turn, AllocError>
        requires { self.old.next < LAST_SLOT }
        ensures row { IfOk result (λ turn. IsRow station.now self.old number round turn
            (λ g k l. learns_behind g station.now.site k l number value (sent packets.items))) }
        ensures fits { IfOk result (λ turn. FitsAt number turn.change self.new) }
        ensures same { StaysShard self.old self.new }
    {
        self.registry.make_room(&value)?;
        let bound = self.registry.bound();
        let answered = self.queue.answered(&self.registry, bound, &value)?;
        push_replies(station, &mut packets, answered.as_slice())?;
        Ok(one(number, round, packets, Step::Learn(value, answered)))
    }

    // A packet that is about this shard.
    pub(crate) fn gets(
        &mut self,
        station: &Station,
        number: u8,
        round: u64,
        from: Node,
        packet: &Packet,
    ) -> Result<Turn, AllocError>
        ensures row { IfOk result (λ turn. IsRowOf station.now self.old number round packet.now turn
            (λ g k l. server_gets g station.now.site k l from packet.now)) }
        ensures fits { IfOk result (λ turn. FitsAt number turn.change self.new) }
        ensures same { StaysShard self.old self.new }
    {
        match packet {
            Packet::Insert(insert) => self.claimed(station, number, round, *insert),
            Packet::Chosen { place, batch } => {
                self.gets_chosen(station, number, round, place.slot, batch)
            }
            _ => match from {
                Node::Replica(replica) => self.hears(station, number, round, replica, packet),
                _ => Ok(idle(station.alloc)),
            },
        }
    }

    // A replica's answer that is about this shard.
    fn hears(
        &mut self,
        station: &Station,
        number: u8,
        round: u64,
        from: u8,
        packet: &Packet,
    ) -> Result<Turn, AllocError>
        ensures row { IfOk result (λ turn. IsRowOf station.now self.old number round packet.now turn
            (λ g k l. from_replica g station.now.site k l from packet.now)) }
        ensures fits { IfOk result (λ turn. FitsAt number turn.change self.new) }
        ensures same { StaysShard self.old self.new }
    {
        match packet {
            Packet::Promise {
                place,
                ballot,
                prior,
            } => self.gets_promise(station, number, round, from, place.slot, *ballot, prior),
            Packet::Accepted { place, ballot } => {
                self.gets_accepted(station, number, round, from, place.slot, *ballot)
            }
            Packet::Nack {
                place,
                ballot,
                promised,
            } => Ok(self.gets_nack(station, number, round, place.slot, *ballot, *promised)),
            _ => Ok(idle(station.alloc)),
        }
    }

    /// The packets of the proposal's phase once more, behind these. One for each replica, with a copy of the value each in the
    /// second phase.
    pub(crate) fn again(
        &self,
        station: &Station,
        number: u8,
        packets: &mut Vec<(Node, Packet)>,
    ) -> Result<(), AllocError>
        ensures { OnOk result ((g : Setting) (k : ServerKept) (l : ServerLive) → IsShard self.now (l.shards number)
            → sent packets.new.items ≡ sent packets.old.items ++ again (setting station.now g) station.now.site k l number (l.shards number) (l.shards number).proposal) }
    {
        let Some(proposal) = &self.proposal else {
            return Ok(());
        };
        let value = proposal.is_accepting().then_some(proposal.value());
        let ballot = proposal.ballot();
        ask_all(station, packets, self.place(number), ballot, value)
    }

    // The place of the next slot.
    fn place(&self, number: u8) -> Place
        ensures { result ≡ record { shard = number; slot = self.now.next } }
    {
        Place {
            shard: number,
            slot: self.next,
        }
    }

    // The proposal, where it is at this slot and ballot.
    fn current(&self, slot: u64, ballot: Ballot) -> Option<&Proposer>
        ensures { option_map (λ r. r.now) result ≡ current_of self.now slot ballot }
    {
        match &self.proposal {
            Some(proposal) if slot == self.next && proposal.ballot() == ballot => Some(proposal),
            _ => None,
        }
    }
}

// The packets of a promise: where it makes a majority, every replica is asked to accept the value.
fn promised(
    station: &Station,
    proposal: &Proposer,
    place: Place,
    from: u8,
    ballot: Ballot,
    prior: &Option<(Ballot, Batch)>,
) -> Result<Vec<(Node, Packet)>, AllocError>
    ensures { IfOk result (λ packets.
        sent packets.items ≡ accept_all station.now.config.replicas place ballot (promise_turn proposal.now from ballot prior.now).1) }
{
    let mut packets = Vec::new(station.alloc);
    match proposal.on_promise(from, ballot, lent(prior)) {
        Some(value) => {
            ask_all(station, &mut packets, place, ballot, Some(value))?;
            Ok(packets)
        }
        None => Ok(packets),
    }
}

// A prior, lent.
fn lent(prior: &Option<(Ballot, Batch)>) -> Option<(Ballot, &Batch)>
    ensures { prior_of result ≡ prior.now }
{
    match prior {
        Some((ballot, batch)) => Some((*ballot, batch)),
        None => None,
    }
}

// The same prior, by one allocation.
fn copied(prior: &Option<(Ballot, Batch)>) -> Result<Option<(Ballot, Batch)>, AllocError>
    ensures { IfOk result (λ copy. copy ≡ prior.now) }
{
    match prior {
        Some((ballot, batch)) => Ok(Some((*ballot, batch.copy()?))),
        None => Ok(None),
    }
}
