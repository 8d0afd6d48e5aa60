// The core: its shards, and which of them a turn is about.
ghost use Rattle.std.specs.Prelude.{◌≡◌, length, ◌<◌, IfOk, IfSome, Some, None};
ghost use Rattle.registry_server.specs.Terms.{LAST_EPOCH, shard_count, Insert as Claim, Setting, shards, ServerKept, ServerLive, first_shard, server_own, server_tick, server_gets, server_wants, server_unfinished, server_at_rest};

use crate::notes::HeldEpoch;
use crate::shard::{Shard, Test};
use crate::shards::{clear_all, empty_shards, release_all};
use crate::station::Station;
use crate::turn::{Change, Turn, held_after, idle};
use std::alloc::AllocError;
use turn_defs::{Input, LAST_SLOT, Node, Packet};

/// The registry server of a site, between its turns. A turn is decided, its note written and its packets sent, and then
/// it is kept. While it is down it knows nothing but the epoch on its disk.
#[derive(Debug, Drop)]
pub struct ServerCore {
    station: Station,
    pub(crate) held: HeldEpoch,
    // the greatest round used or told
    round: u64,
    // one for each shard of the table
    shards: Vec<Shard>,
    ghost many: { length shards.items ≡ shard_count station.config.table },
}

impl ServerCore {
    ghost use Rattle.registry_server.specs.Stations.{setting, sent};
    ghost use Rattle.registry_server.specs.ShardStates.{passes};
    ghost use Rattle.registry_server.specs.Cores.{Stands, IsTurn, Gives, Decided, FitsChange, MayRaise, changed, core_row, landed, nothing_known, site_of};
    ghost use Rattle.registry_server.specs.Rowed.{number_of};

    // A server that is down, over this epoch. One allocation, for the table's shards.
    pub(crate) fn new(station: Station, held: HeldEpoch) -> Result<ServerCore, AllocError>
        ensures stands { IfOk result (λ core. (g : Setting) → g.config ≡ station.config → Stands core g (record { epoch = held.epoch }) nothing_known) }
        ensures site { IfOk result (λ core. site_of core ≡ station.site) }
    {
        let shards = empty_shards(station.alloc, station.config.table.shards())?;
        Ok(ServerCore {
            station,
            held,
            round: 0,
            shards,
        })
    }

    /// The turn on an input. It makes room for what keeping the turn does, and changes nothing else, nor anything where
    /// it is refused.
    ///
    /// An insert takes expected time logarithmic in the inserts that wait, the server's own work time linear in a batch. A
    /// value that is learned takes logarithmic expected time for each insert of it, and for each that waits and is answered
    /// time linear in the batch as well. Where it raises the bound, which is rare, it looks at each insert that waits, at
    /// most 4,096. A tick takes time linear in the shards, at most 16. A start takes no memory.
    #[tactic(auto, using(crate::proofs::Standing::turn_at))]
    pub fn decide(&mut self, input: &Input) -> Result<Turn, AllocError>
        requires { MayRaise self.old.held.epoch input.now }
        ensures turn { IfOk result (λ turn. (g : Setting) (k : ServerKept) (l : ServerLive) → Stands self.old g k l → IsTurn g (site_of self.old) l turn (core_row g (site_of self.old) k l input.now)) }
        ensures decided { IfOk result (λ turn. Decided self.new turn) }
        ensures same { (g : Setting) (k : ServerKept) (l : ServerLive) → Stands self.old g k l → Stands self.new g k l }
        ensures station { self.new.station ≡ self.old.station }
    {
        match input {
            Input::Start => Ok(self.start()),
            Input::Own => self.own(),
            Input::Tick => self.tick(),
            Input::Deliver { from, packet } => self.gets(*from, packet),
        }
    }

    /// Keeps a turn that was decided on the server as it is. It takes no memory. A value that is learned takes logarithmic
    /// expected time for each insert of it, each that waits and is answered, and each id that expires, a tick time linear in
    /// the shards, and all else constant expected time.
    pub fn keep(&mut self, turn: Turn)
        requires { Decided self.old turn }
        ensures kept { (g : Setting) (k : ServerKept) (l : ServerLive) → Stands self.old g k l → Stands self.new g (landed turn.note k) (changed g (site_of self.old) turn.change l) }
        ensures station { self.new.station ≡ self.old.station }
    {
        let Turn {
            note,
            packets: _,
            change,
        } = turn;
        self.held = held_after(self.held, note);
        self.change(change);
    }

    /// It is down, over this epoch, whatever it knew. It takes time linear in what it knew, and no memory.
    pub(crate) fn put_down(&mut self, held: HeldEpoch)
        ensures stands { (g : Setting) → g.config ≡ self.old.station.config → Stands self.new g (record { epoch = held.epoch }) nothing_known }
        ensures station { self.new.station ≡ self.old.station }
    {
        self.held = held;
        self.round = 0;
        clear_all(&mut self.shards, self.station.alloc);
    }

    /// Whether it has work of its own to do: some shard may have a proposal. Linear in the shards, at most 16.
    pub fn wants(&self) -> bool
        ensures { (g : Setting) (k : ServerKept) (l : ServerLive) → Stands self.now g k l → result ≡ server_wants g l }
    {
        self.round < LAST_SLOT && self.first(Test::MayPropose).is_some()
    }

    /// Whether something waits in some shard, so that it takes a tick. Linear in the shards, at most 16.
    pub fn unfinished(&self) -> bool
        ensures { (g : Setting) (k : ServerKept) (l : ServerLive) → Stands self.now g k l → result ≡ server_unfinished g l }
    {
        self.first(Test::IsUnfinished).is_some()
    }

    /// Whether it knows in each shard a bound not below the horizon. Linear in the shards, at most 16.
    pub fn at_rest(&self) -> bool
        ensures { (g : Setting) (k : ServerKept) (l : ServerLive) → Stands self.now g k l → result ≡ server_at_rest g l }
    {
        self.first(Test::IsBelowHorizon).is_none()
    }

    // Makes the change. The note is another matter.
    fn change(&mut self, change: Change)
        requires { FitsChange change self.old.shards.items }
        ensures kept { (g : Setting) (k : ServerKept) (l : ServerLive) → Stands self.old g k l
            → Stands self.new g k (changed g (site_of self.old) change l) }
        ensures station { self.new.station ≡ self.old.station }
    {
        match change {
            Change::Nothing => {}
            Change::Tick => release_all(&mut self.shards),
            Change::One { shard, round, step } => {
                self.round = round;
                self.shards[usize::from(shard)].keep(step);
            }
        }
    }

    // It comes up: the next epoch is written.
    fn start(&self) -> Turn
        requires { self.now.held.epoch < LAST_EPOCH }
        ensures row { (g : Setting) (k : ServerKept) (l : ServerLive) → Stands self.now g k l → Gives g (site_of self.now) l result (core_row g (site_of self.now) k l Input.Start) }
        ensures decided { Decided self.now result }
    {
        let epoch = self.held.epoch + 1;
        Turn {
            note: Some(HeldEpoch { epoch }),
            packets: Vec::new(self.station.alloc),
            change: Change::Nothing,
        }
    }

    // Its own work, at the first shard that has some, where a round is left.
    fn own(&self) -> Result<Turn, AllocError>
        ensures row { IfOk result (λ turn. (g : Setting) (k : ServerKept) (l : ServerLive) → Stands self.now g k l
            → Gives g (site_of self.now) l turn (server_own g (site_of self.now) k l)) }
        ensures decided { IfOk result (λ turn. Decided self.now turn) }
    {
        if self.round >= LAST_SLOT {
            return Ok(idle(self.station.alloc));
        }
        let Some(number) = self.first(Test::MayPropose) else {
            return Ok(idle(self.station.alloc));
        };
        self.shards[usize::from(number)].propose(&self.station, number, self.round, self.held.epoch)
    }

    // Each proposal's packets are sent again, in the order of shards, and no shard holds back any more.
    fn tick(&self) -> Result<Turn, AllocError>
        ensures row { IfOk result (λ turn. (g : Setting) (k : ServerKept) (l : ServerLive) → Stands self.now g k l
            → Gives g (site_of self.now) l turn (server_tick g (site_of self.now) k l)) }
        ensures decided { IfOk result (λ turn. Decided self.now turn) }
    {
        let mut packets = Vec::new(self.station.alloc);
        for number in 0..self.station.config.table.shards() {
            self.shards[usize::from(number)].again(&self.station, number, &mut packets)?;
        }
        Ok(Turn {
            note: None,
            packets,
            change: Change::Tick,
        })
    }

    // A packet comes. It is handed to the shard that it is about.
    fn gets(&mut self, from: Node, packet: &Packet) -> Result<Turn, AllocError>
        ensures row { IfOk result (λ turn. (g : Setting) (k : ServerKept) (l : ServerLive) → Stands self.old g k l
            → Gives g (site_of self.old) l turn (server_gets g (site_of self.old) k l from packet.now)) }
        ensures decided { IfOk result (λ turn. Decided self.new turn) }
        ensures same { (g : Setting) (k : ServerKept) (l : ServerLive) → Stands self.old g k l → Stands self.new g k l }
        ensures station { self.new.station ≡ self.old.station }
    {
        let Some(number) = self.number_of(packet) else {
            return Ok(idle(self.station.alloc));
        };
        if usize::from(number) >= self.shards.len() {
            return Ok(idle(self.station.alloc));
        }
        let shard = &mut self.shards[usize::from(number)];
        shard.gets(&self.station, number, self.round, from, packet)
    }

    // The shard that a packet is about, none where it is for no server.
    fn number_of(&self, packet: &Packet) -> Option<u8>
        ensures row { (g : Setting) → result ≡ number_of (setting self.now.station g) packet.now }
        ensures within { (x : Claim) → packet.now ≡ Packet.Insert x → IfSome result (λ number. number < shard_count self.now.station.config.table) }
    {
        match packet {
            Packet::Insert(insert) => Some(self.station.config.table.shard_of(insert.id)),
            Packet::Chosen { place, .. }
            | Packet::Promise { place, .. }
            | Packet::Accepted { place, .. }
            | Packet::Nack { place, .. } => Some(place.shard),
            _ => None,
        }
    }

    // The first shard that passes the test.
    fn first(&self, test: Test) -> Option<u8>
        ensures first { (g : Setting) (k : ServerKept) (l : ServerLive) → Stands self.now g k l → result ≡ first_shard (λ s. passes g test (l.shards s)) 0 (shards g) }
        ensures within { IfSome result (λ number. number < length self.now.shards.items) }
    {
        for number in 0..self.station.config.table.shards() {
            if self.shards[usize::from(number)].passes(&self.station, test) {
                return Some(number);
            }
        }
        None
    }
}
