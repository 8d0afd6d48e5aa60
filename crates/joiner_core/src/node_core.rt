// The joiner's core.
ghost use Rattle.std.specs.Prelude.{◌<◌, ◌≤◌, ◌^◌, ◌≡◌, ◌∷◌, [], ◌+◌, ◌-◌, true, false, length, map, find, IfOk, IfSome, Option, Some, None};
ghost use Rattle.joiner_core.specs.Terms.{MOST_FLIGHTS, LAST_EPOCH, Dispatcher, Server, site_of_joiner, in_flight, is_for, joins, looks, replied, joiner_gets, joiner_wants, joiner_unfinished, joiner_at_rest, IsQuery, IsClick, IsNumber, IsToken, IsAnswer, IsPacket, IsOutcome, IsPair};

use crate::flights::{Flights, Waiting};
use crate::{Change, JoinerInput, JoinerNote, Looked, Turn};
use event_id::EventId;
use log_records::{ClickRec, QueryRec};
use registry_state::{Answer, Insert, Token};
use std::alloc::{AllocError, Global};
use turn_defs::{MOST_FLIGHTS, Node, Outcome, Packet, PairRec};

/// What a joiner knows while it is up: its epoch, the number of its next token, and at most 32 joins in flight.
///
/// A turn is decided, its note is written, then it is kept. No turn looks at all joins in flight, but for a Tick, which
/// sends for each.
#[derive(Debug, Drop)]
pub struct JoinerCore {
    node: u16,
    site: u8,
    epoch: u32,
    number: u64,
    flights: Flights,
    alloc: Global,
    // So its tokens have spellings.
    ghost node_fits: { node < 2 ^ 16 },
    ghost epoch_fits: { epoch ≤ LAST_EPOCH },
    ghost number_fits: { number < 2 ^ 64 },
}

impl JoinerCore {
    ghost use Rattle.turn_defs.specs.declared.packet.Packet.TheVariants as packet;
    ghost use Rattle.joiner_core.specs.declared.turn.JoinerNote.TheVariants.{Epoch, Pair};
    ghost use Rattle.joiner_core.specs.declared.turn.Change.TheVariants.{Stay, Begin, Fly, Land};
    ghost use Rattle.joiner_core.specs.Flying.{flights, flight_of, room, waiting_of, claim_to, pair_of};
    ghost use Rattle.joiner_core.specs.Held.{IsHeld};
    ghost use Rattle.joiner_core.specs.Spelled.{IsTold, IsTaken, IsWritten, IsSpelled};
    ghost use Rattle.joiner_core.specs.Standing.{Serves, Stands, IsSame, IsReady, CanStart, Carries, Tells, needs_look_up, row, IsJoin, changed, epoch_after, known, CanChange, Leads, Answers, Does, own_token};

    /// The joiner of this node number, which its tokens name, at this site. It takes no memory. Its first input is a Start.
    pub fn new(alloc: Global, node: u16, site: u8) -> JoinerCore
        ensures serves { (g : _) → site ≡ site_of_joiner g node → Serves result g node }
        ensures blank { known result ≡ record { number = 0; flight = [] } }
    {
        JoinerCore {
            node,
            site,
            epoch: 0,
            number: 0,
            flights: Flights::new(alloc),
            alloc,
        }
    }

    /// Whether a Join of a click with this id needs the click's query to be looked for, in constant expected time.
    pub fn needs_look_up(&self, id: EventId) -> bool
        ensures { (g n k l : _) → Stands self.now g n k l → result ≡ needs_look_up l id }
    {
        !self.flights.has(id) && self.flights.len() < MOST_FLIGHTS
    }

    /// Decides the turn on an input: its note and its packets, and room for what keeping it will change. Nothing else
    /// changes, whatever it answers.
    ///
    /// Constant expected time and memory; a granted reply copies the texts of its pair, a Tick is linear in the joins in flight.
    #[tactic(auto, using(crate::proofs::Answering::by_input, crate::proofs::Answering::if_ok, crate::proofs::Answering::sends_again))]
    pub fn decide(&mut self, input: JoinerInput) -> Result<Turn, AllocError>
        requires start { CanStart input }
        requires spelled { IsTaken input }
        ensures turn { IfOk result (λ turn. (g n k l i : _) → IsReady self.old g n k l input →
            Carries g k l input i → Answers self.new g n k (row g n k l i) turn) }
        ensures fits { IfOk result (λ turn. CanChange self.new turn.change) }
        ensures spelled { IfOk result IsSpelled }
        ensures same { IsSame self.old self.new }
    {
        match input {
            JoinerInput::Start { epoch } => Ok(self.start(epoch)),
            JoinerInput::Own => Ok(self.idle()),
            JoinerInput::Tick => self.send_again(),
            JoinerInput::Join {
                position,
                click,
                looked,
            } => {
                self.flights.make_room()?;
                self.join(position, click, looked)
            }
            JoinerInput::Packet { from: _, packet } => self.receive(&packet),
        }
    }

    /// Makes the change of a turn that was decided on what the core knows now, once its note is written. It takes no memory.
    ///
    /// Constant expected time, and where a join leaves the flight those behind it move up, at most 31.
    pub fn keep(&mut self, change: Change)
        requires { CanChange self.old change }
        ensures { (g n k l : _) → Leads self.old change g n k l → Stands self.new g n k l }
    {
        self.change(change);
    }

    /// The epoch in which it is up.
    pub fn epoch(&self) -> u32
        ensures is { result ≡ self.now.epoch }
        ensures limit { result ≤ LAST_EPOCH }
    {
        self.epoch
    }

    /// Whether it has something to do by itself, which a joiner never has.
    pub fn wants(&self) -> bool
        ensures { (g n k l : _) → Stands self.now g n k l → result ≡ joiner_wants l }
    {
        false
    }

    /// Whether it waits for an answer, so that it takes a Tick.
    pub fn unfinished(&self) -> bool
        ensures { (g n k l : _) → Stands self.now g n k l → result ≡ joiner_unfinished l }
    {
        self.flights.len() != 0
    }

    /// Whether nothing is in flight.
    pub fn at_rest(&self) -> bool
        ensures { (g n k l : _) → Stands self.now g n k l → result ≡ joiner_at_rest l }
    {
        self.flights.len() == 0
    }

    // No row applies: no note, no packets, and nothing changes.
    fn idle(&self) -> Turn
        ensures does { Does result None [] Stay }
        ensures spelled { IsSpelled result }
    {
        Turn {
            note: None,
            packets: Vec::new(self.alloc),
            change: Change::Stay,
        }
    }

    // Start: it notes the next epoch, in which it knows nothing yet.
    fn start(&self, epoch: u32) -> Turn
        requires { epoch < LAST_EPOCH }
        ensures does { Does result (Some (Epoch (epoch + 1))) [] (Begin (epoch + 1)) }
        ensures spelled { IsSpelled result }
    {
        let epoch = epoch + 1;
        Turn {
            note: Some(JoinerNote::Epoch(epoch)),
            packets: Vec::new(self.alloc),
            change: Change::Begin(epoch),
        }
    }

    // Tick: each insert in flight goes to the server again, under its own token.
    fn send_again(&self) -> Result<Turn, AllocError>
        ensures does { IfOk result (λ turn.
            Does turn None (map (claim_to self.now.site) (flights self.now.flights)) Stay) }
        ensures spelled { IfOk result IsSpelled }
    {
        Ok(Turn {
            note: None,
            packets: self.flights.claims(self.site)?,
            change: Change::Stay,
        })
    }

    // Join: nothing where the click's id is in flight; else Busy where 32 joins are; else NoQuery with the log's lines
    // where the log has no such query; else the id is registered.
    fn join(&self, position: u64, click: ClickRec, looked: Looked) -> Result<Turn, AllocError>
        requires room { 0 < room self.now.flights }
        requires spelled { IsNumber position × IsClick click × IsTold looked }
        ensures turn { IfOk result (λ turn. (g n k l : _) → Stands self.now g n k l →
            (needs_look_up l click.id ≡ true → Tells g click looked) →
            Answers self.now g n k (joins g n k l position click) turn) }
        ensures fits { IfOk result (λ turn. CanChange self.now turn.change) }
        ensures spelled { IfOk result IsSpelled }
    {
        if self.flights.has(click.id) {
            return Ok(self.idle());
        }
        if self.flights.len() >= MOST_FLIGHTS {
            return self.tell(position, Outcome::Busy);
        }
        match looked {
            Looked::Found(query) => self.register(position, click, query),
            Looked::Lines(lines) => self.tell(position, Outcome::NoQuery(lines)),
        }
    }

    // The site's dispatcher hears of a join that isn't in flight.
    fn tell(&self, position: u64, outcome: Outcome) -> Result<Turn, AllocError>
        requires { IsNumber position × IsOutcome outcome }
        ensures does { IfOk result (λ turn.
            Does turn None ((Dispatcher self.now.site, packet.Joined position outcome) ∷ []) Stay) }
        ensures spelled { IfOk result IsSpelled }
    {
        Ok(Turn {
            note: None,
            packets: self.joined(position, outcome)?,
            change: Change::Stay,
        })
    }

    // The id goes to the site's server under a new token, and the join is in flight. No token has the number 2^64 - 1:
    // then nothing.
    fn register(&self, position: u64, click: ClickRec, query: QueryRec) -> Result<Turn, AllocError>
        requires room { 0 < room self.now.flights }
        requires few { length (flights self.now.flights) < MOST_FLIGHTS }
        requires new { in_flight (flights self.now.flights) click.id ≡ false }
        requires spelled { IsNumber position × IsClick click × IsQuery query }
        ensures turn { IfOk result (λ turn. (g n k l : _) → Stands self.now g n k l →
            Answers self.now g n k (looks g n k l position click (Some query)) turn) }
        ensures fits { IfOk result (λ turn. CanChange self.now turn.change) }
        ensures spelled { IfOk result IsSpelled }
    {
        if self.number == u64::MAX {
            return Ok(self.idle());
        }
        self.claim(position, click, query)
    }

    // The insert of the id under the next token, and the join that will be in flight.
    fn claim(&self, position: u64, click: ClickRec, query: QueryRec) -> Result<Turn, AllocError>
        requires { IsNumber position × IsClick click × IsQuery query }
        ensures spelled { IfOk result IsSpelled }
        ensures held { IfOk result (λ turn.
            IsHeld (click.id, waiting_of position click query (own_token self.now))) }
        ensures does { IfOk result (λ turn. Does turn None
            ((Server self.now.site, packet.Insert (record { id = click.id; token = own_token self.now })) ∷ [])
            (Fly click.id (waiting_of position click query (own_token self.now)))) }
    {
        let ClickRec {
            id,
            query: asked,
            text,
        } = click;
        let token = self.next_token();
        let packets = self.one(
            Node::Server(self.site),
            Packet::Insert(Insert { id, token }),
        )?;
        let waiting = Waiting {
            position,
            asked,
            text,
            query,
            token,
        };
        Ok(Turn {
            note: None,
            packets,
            change: Change::Fly(id, waiting),
        })
    }

    // The token of the next join.
    fn next_token(&self) -> Token
        ensures token { result ≡ own_token self.now }
        ensures spelled { IsToken (own_token self.now) }
    {
        Token {
            joiner: self.node,
            epoch: self.epoch,
            number: self.number,
        }
    }

    // A packet that is no Join: no row but that of a Reply.
    fn receive(&self, packet: &Packet) -> Result<Turn, AllocError>
        requires { IsPacket packet.now }
        ensures turn { IfOk result (λ turn. (g n k l : _) → Stands self.now g n k l → (IsJoin packet.now → ⊥) →
            Answers self.now g n k (joiner_gets g n k l packet.now) turn) }
        ensures fits { IfOk result (λ turn. CanChange self.now turn.change) }
        ensures spelled { IfOk result IsSpelled }
    {
        match packet {
            Packet::Reply { insert, answer } => self.answer(*insert, *answer),
            _ => Ok(self.idle()),
        }
    }

    // Reply: nothing where no join in flight registers this id under this token; else the dispatcher hears how it ended,
    // and the join leaves the flight. Where it is granted the pair is noted first.
    fn answer(&self, insert: Insert, answer: Answer) -> Result<Turn, AllocError>
        requires { IsAnswer answer }
        ensures turn { IfOk result (λ turn. (g n k l : _) → Stands self.now g n k l →
            Answers self.now g n k (replied g n k l insert answer (find (is_for insert) l.flight)) turn) }
        ensures fits { IfOk result (λ turn. CanChange self.now turn.change) }
        ensures spelled { IfOk result IsSpelled }
    {
        let Some(waiting) = self.flights.find(insert) else {
            return Ok(self.idle());
        };
        let position = waiting.position;
        match answer {
            Answer::Granted => {
                let pair = self.pair(insert.id, waiting)?;
                self.land(
                    insert,
                    position,
                    Outcome::Written,
                    Some(JoinerNote::Pair(pair)),
                )
            }
            Answer::Duplicate(other) => self.land(insert, position, Outcome::Already(other), None),
            Answer::TooOld(bound) => self.land(insert, position, Outcome::TooOld(bound), None),
        }
    }

    // The pair of a join in flight, which shares its texts, since the join stays in flight until the turn is kept.
    fn pair(&self, id: EventId, waiting: &Waiting) -> Result<PairRec, AllocError>
        requires { IsHeld (id, waiting.now) }
        ensures pair { IfOk result (λ pair. pair ≡ pair_of (flight_of id waiting.now)) }
        ensures spelled { IfOk result IsPair }
    {
        Ok(PairRec {
            click: ClickRec {
                id,
                query: waiting.asked,
                text: waiting.text.share()?,
            },
            query: waiting.query.share()?,
            token: waiting.token,
        })
    }

    // The join that registers this leaves the flight, and the site's dispatcher hears how it ended.
    fn land(
        &self,
        insert: Insert,
        position: u64,
        outcome: Outcome,
        note: Option<JoinerNote>,
    ) -> Result<Turn, AllocError>
        requires { IsNumber position × IsOutcome outcome × IfSome note IsWritten }
        ensures does { IfOk result (λ turn.
            Does turn note ((Dispatcher self.now.site, packet.Joined position outcome) ∷ []) (Land insert)) }
        ensures spelled { IfOk result IsSpelled }
    {
        Ok(Turn {
            note,
            packets: self.joined(position, outcome)?,
            change: Change::Land(insert),
        })
    }

    // A Joined goes to the site's dispatcher.
    fn joined(&self, position: u64, outcome: Outcome) -> Result<Vec<(Node, Packet)>, AllocError>
        ensures { IfOk result (λ packets.
            packets.items ≡ (Dispatcher self.now.site, packet.Joined position outcome) ∷ []) }
    {
        let dispatcher = Node::Dispatcher(self.site);
        self.one(dispatcher, Packet::Joined { position, outcome })
    }

    // One packet to one node.
    fn one(&self, to: Node, packet: Packet) -> Result<Vec<(Node, Packet)>, AllocError>
        ensures { IfOk result (λ packets. packets.items ≡ (to, packet) ∷ []) }
    {
        let mut packets = Vec::with_capacity(self.alloc, 1)?;
        packets.push((to, packet))?;
        Ok(packets)
    }

    // Makes a change.
    fn change(&mut self, change: Change)
        requires { CanChange self.old change }
        ensures node { self.new.node ≡ self.old.node }
        ensures site { self.new.site ≡ self.old.site }
        ensures epoch { self.new.epoch ≡ epoch_after change self.old.epoch }
        ensures live { known self.new ≡ changed change (known self.old) }
    {
        match change {
            Change::Stay => {}
            Change::Begin(epoch) => {
                self.epoch = epoch;
                self.number = 0;
                self.flights.clear();
            }
            Change::Fly(id, waiting) => {
                self.number += 1;
                self.flights.add(id, waiting);
            }
            Change::Land(insert) => self.flights.land(insert),
        }
    }
}
