//! The turn lock.
ghost use Rattle.std.specs.Prelude.{◌≡◌, ◌≢◌, ℕ, ◌+◌, ◌<◌, ◌≤◌, ◌^◌, ◌↔◌, ◌⊎◌, [], ◌∷◌, ◌++◌, length, true, false, IfOk, OnErr, MatchBool, IsTrue, MatchOption, IfSome, IsSome, Some, None, vec_capacity};
ghost use Rattle.std.specs.List.{All};
ghost use Rattle.air_bus.specs.declared.entry.Entry.TheVariants.{Begin, End, Stop};
ghost use Rattle.air_bus.specs.declared.entry.Phase.TheVariants.{Busy};
ghost use Rattle.air_bus.specs.declared.entry.Entry.{Entry};
ghost use Rattle.air_bus.specs.History.{phase, next_input, IsQuiet, IsAired};
ghost use Rattle.air_bus.specs.Waiting.{is_dead};
ghost use Rattle.bus_seat.specs.Views.{count, flown, made_by, Took, in_hand, caught_up, off, runner_at, Grew};
ghost use Rattle.bus_seat.specs.Seats.{bus_id, fresh, fresh_seats, Sight, gathered, TakesPart, AreSeatsOf, IsIn, Adds, Begins, Looks, next_for};

use super::order::{Add, Deal, Gather, Give, Order, Take, Wait as Waiting};
use super::round::Round;
use super::seat::{Place, Seat, Seen};
use super::view::{Base, View};
use air_bus::{Air, Input, Packets, Payload};
use atomic_table::{Refused, Shared, Table};
use std::alloc::{AllocError, Global};
use std::marker::Model;
use std::sync::Wait;

// The turn: 0 where it is free, 1 where a seat has it.
const TURN: usize = 0;

// The number of entries.
const ENTRIES: usize = 1;

// How many threads wait for the turn.
const WAITING: usize = 2;

/// The Air that several threads share. Each call that changes or reads it takes the turn, does the one call of the Air, and
/// gives the turn back. Contracts see which bus it is, and the Air that it was made with.
///
/// A thread that finds the turn taken sleeps until it is given back, and doesn't spin. Who gives it back wakes one thread
/// where one waits. Taking and giving a free turn takes a few atomic steps and no memory. In a round a node that finds nothing
/// to take sleeps until a packet for it is sent.
#[derive(Drop)]
pub struct Bus {
    table: Table<Air, View, Base, Order, Global>,
    // The numbers of the nodes that take no part.
    left_out: Vec<u16>,
    round: Round,
}

impl Model for Bus {
    ghost use Rattle.std.specs.Prelude.{◌≡◌};
    ghost use Rattle.air_bus.specs.Waiting.{LeftOut};
    ghost use Rattle.bus_seat.specs.Seats.{BusId, bus_id};

    ghost Value = { BusId };

    ghost view = { λ b. bus_id b.table.shared.table_id b.table.shared.key };

    ghost invariant = { λ b. (b.table.shared.table_id.words ≡ 3) × (b.table.shared.table_id.slots ≡ 1)
        × LeftOut b.table.shared.key.plan b.table.shared.key.kinds b.left_out.items };
}

impl Bus {
    /// The bus, with a seat for each node in their order, and the run's seat last. It takes memory for the seats and the
    /// table.
    pub fn new(alloc: Global, air: Air) -> Result<(Bus, Vec<Seat>), AllocError>
        requires empty { air.history ≡ [] }
        requires few { count air < 2 ^ 16 }
        ensures air { IfOk result (λ made. made.0.base ≡ air) }
        ensures seats { IfOk result (λ made. made.1.items ≡ fresh_seats made.0) }
    {
        let nodes = air.nodes();
        let left_out = air.left_out(alloc)?;
        let round = Round::new(alloc, nodes, left_out.len())?;
        let base = Base::of(&air);
        let mut seats = Vec::with_capacity(alloc, nodes + 1)?;
        let mut slots = Vec::with_capacity(alloc, 1)?;
        slots.push_reserved(air);
        let (table, mut place) = match Table::new(alloc, &[0, 0, 0], slots, &base) {
            Ok(made) => made,
            Err(Refused { slots: _ }) => return Err(AllocError),
        };
        let bus = Bus {
            table,
            left_out,
            round,
        };
        for node in 0..nodes as u16 {
            seats.push_reserved(bus.deal(&mut place, node));
        }
        seats.push_reserved(Seat { node: None, place });
        Ok((bus, seats))
    }

    // Splits off the next node's seat.
    fn deal(&self, runner: &mut Place, node: u16) -> Seat
        requires table { runner.old.table_id ≡ self.now.table }
        requires runner { runner.old.me ≡ (runner_at self.now.base node, []) }
        requires few { node < count self.now.base }
        ensures table { runner.new.table_id ≡ runner.old.table_id }
        ensures runner { runner.new.me ≡ (runner_at self.now.base (node + 1), []) }
        ensures seat { result ≡ fresh self.now (Some node) }
    {
        let place = self.table.shared.split_seat::<Deal>(runner);
        Seat {
            node: Some(node),
            place,
        }
    }

    /// Ends the bus with all its seats. It takes no memory: the lists go into the room that is handed in.
    ///
    /// Linear in the number of seats.
    pub fn close(self, seats: Vec<Seat>, room: Vec<Seen>) -> (Air, Vec<Seen>)
        requires seats { AreSeatsOf self seats.items }
        requires empty { room.items ≡ [] }
        requires room { length seats.items ≤ vec_capacity room }
        // The same Air, with the history that was made.
        ensures air { result.0 ≡ flown self.base result.0.history }
        // What was seen and made with each seat.
        ensures lists { result.1.items ≡ seats.items }
        // The history is one list: it begins with all that was seen with a seat, and has of its number just what was made.
        ensures history { All (IsIn result.0.history) seats.items }
        // It has no entry of any other number.
        ensures others { (n : ℕ) → count self.base ≤ n → made_by n result.0.history ≡ [] }
        ensures aired { IsAired result.0.plan result.0.kinds result.0.history }
    {
        let lists = seen_of(&seats, room);
        (self.end_with(seats), lists)
    }

    fn end_with(self, seats: Vec<Seat>) -> Air
        requires { AreSeatsOf self seats.items }
        ensures air { result ≡ flown self.base result.history }
        ensures others { (n : ℕ) → count self.base ≤ n → made_by n result.history ≡ [] }
        ensures history { All (IsIn result.history) seats.items }
        ensures aired { IsAired result.plan result.kinds result.history }
    {
        let Bus { table, .. } = self;
        let mut seats = seats;
        let Some(run) = seats.pop() else {
            unreachable!()
        };
        let mut place = run.into_place();
        gather(&table.shared, &mut place, seats);
        let mut closed = table.close_with(place);
        let air = closed.take(0);
        closed.free();
        air.law();
        air
    }

    /// Whether the seat is of a node that takes part in the run: of one that isn't a dead replica.
    pub fn takes_part(&self, seat: &Seat) -> bool
        requires bus { seat.now.bus ≡ self.now }
        requires node { IsSome seat.now.number }
        ensures { IsTrue result ↔ TakesPart seat.now }
    {
        let Some(node) = seat.node else {
            unreachable!()
        };
        !self.left_out.contains(&node)
    }

    /// The round in which the nodes' threads take turns.
    pub fn round(&self) -> &Round {
        &self.round
    }

    /// Opens a turn of the seat's node, which takes part, where it has something to take, as `Air::begin` does. In a round it
    /// sleeps until there is something, and answers `None` only once the round has ended. It takes memory for this entry and
    /// the one that closes the turn, under the turn; with an error no entry is added.
    pub fn begin<R: Wait>(
        &self,
        rt: &R,
        seat: &mut Seat,
        wants: bool,
        tick: bool,
    ) -> Result<Option<Input>, AllocError>
        requires bus { seat.old.bus ≡ self.now }
        requires live { TakesPart seat.old }
        requires closed { MatchOption seat.old.number ⊥ (λ n. phase n seat.old.mine ≢ Busy) }
        ensures kept { (seat.new.bus ≡ seat.old.bus) × (seat.new.number ≡ seat.old.number) }
        ensures did { IfSome seat.old.number (λ n. IfOk result (λ input. Begins n wants tick seat.old input seat.new)) }
        ensures err { OnErr result (Looks seat.old seat.new) }
    {
        let Some(node) = seat.node else {
            unreachable!()
        };
        for _ in rt.forever() {
            let input = self.look(rt, seat, wants, tick);
            if !matches!(&input, Ok(None)) || !self.round.sleep(rt, node) {
                return input;
            }
        }
        unreachable!()
    }

    // Opens a turn of the seat's node where it has something to take. Else the node lies down.
    fn look<R: Wait>(
        &self,
        rt: &R,
        seat: &mut Seat,
        wants: bool,
        tick: bool,
    ) -> Result<Option<Input>, AllocError>
        requires bus { seat.old.bus ≡ self.now }
        requires live { TakesPart seat.old }
        requires closed { MatchOption seat.old.number ⊥ (λ n. phase n seat.old.mine ≢ Busy) }
        ensures kept { (seat.new.bus ≡ seat.old.bus) × (seat.new.number ≡ seat.old.number) }
        ensures did { IfSome seat.old.number (λ n. IfOk result (λ input. Begins n wants tick seat.old input seat.new)) }
        ensures err { OnErr result (Looks seat.old seat.new) }
    {
        let Some(node) = seat.node else {
            unreachable!()
        };
        let place = &mut seat.place;
        self.take_turn(rt, place);
        let input = self.begin_in_hand(place, node, wants, tick);
        self.leave(place, matches!(&input, Ok(Some(_))));
        input
    }

    /// Closes the open turn of the seat's node with its note, and sends its packets, as `Air::end` does. It wakes the
    /// receivers who sleep, once the turn is given back.
    pub fn end<R: Wait>(&self, rt: &R, seat: &mut Seat, note: Option<Payload>, packets: Packets)
        requires bus { seat.old.bus ≡ self.now }
        requires busy { MatchOption seat.old.number ⊥ (λ n. phase n seat.old.mine ≡ Busy) }
        ensures kept { (seat.new.bus ≡ seat.old.bus) × (seat.new.number ≡ seat.old.number) }
        ensures adds { IfSome seat.old.number (λ n. (kept : ℕ) × (kept ≤ length packets) × Adds seat.old (End n note packets kept) seat.new) }
    {
        let Some(node) = seat.node else {
            unreachable!()
        };
        let place = &mut seat.place;
        self.take_turn(rt, place);
        self.end_in_hand(place, node, note, packets);
        self.leave(place, true);
        self.round.wake_rung();
    }

    /// Closes the open turn of the seat's node, which went down within it, as `Air::stop` does.
    pub fn stop<R: Wait>(&self, rt: &R, seat: &mut Seat, landed: Option<Payload>)
        requires bus { seat.old.bus ≡ self.now }
        requires busy { MatchOption seat.old.number ⊥ (λ n. phase n seat.old.mine ≡ Busy) }
        ensures kept { (seat.new.bus ≡ seat.old.bus) × (seat.new.number ≡ seat.old.number) }
        ensures adds { IfSome seat.old.number (λ n. Adds seat.old (Stop n landed) seat.new) }
    {
        let Some(node) = seat.node else {
            unreachable!()
        };
        let place = &mut seat.place;
        self.take_turn(rt, place);
        self.stop_in_hand(place, node, landed);
        self.leave(place, true);
    }

    /// Whether each node but a dead replica is up with no open turn, and no packet waits, after all that the seat has then
    /// seen.
    pub fn quiet<R: Wait>(&self, rt: &R, seat: &mut Seat) -> bool
        requires { seat.old.bus ≡ self.now }
        ensures kept { (seat.new.bus ≡ seat.old.bus) × (seat.new.number ≡ seat.old.number) }
        ensures looks { Looks seat.old seat.new }
        ensures quiet { IsTrue result ↔ IsQuiet (flown self.now.base seat.new.seen) }
    {
        let place = &mut seat.place;
        self.take_turn(rt, place);
        let quiet = self.quiet_in_hand(place);
        self.leave(place, false);
        quiet
    }

    // Waits for the turn, and takes it.
    fn take_turn<R: Wait>(&self, rt: &R, place: &mut Place)
        requires table { place.old.table_id ≡ self.now.table }
        requires idle { (place.old.me.1 ≡ []) × (place.old.me.0.turn ≡ false) × (place.old.me.0.spent ≡ false) }
        requires may { IsSome place.old.me.0.number ⊎ IsSome place.old.me.0.next }
        ensures table { place.new.table_id ≡ place.old.table_id }
        ensures took { Took place.old.me place.new.me }
    {
        for _ in rt.forever() {
            if self
                .table
                .shared
                .compare_exchange::<Take>(place, TURN, 0, 1)
                == 0
            {
                return;
            }
            self.wait(rt, place);
        }
        unreachable!()
    }

    // Sleeps until the turn may be free. It is counted among those that wait before it looks whether the turn is taken, and
    // who gives the turn back looks at the count afterwards, so that no wake is missed.
    fn wait<R: Wait>(&self, rt: &R, place: &mut Place)
        requires table { place.old.table_id ≡ self.now.table }
        ensures table { place.new.table_id ≡ place.old.table_id }
        ensures same { place.new.me ≡ place.old.me }
    {
        let shared = &self.table.shared;
        shared.fetch_add::<Waiting>(place, WAITING, 1);
        shared.park(rt, TURN, 1);
        shared.fetch_sub::<Waiting>(place, WAITING, 1);
    }

    // Counts the entry that the Air in the seat's hand has more than was seen.
    fn count_entry(&self, place: &mut Place)
        requires table { place.old.table_id ≡ self.now.table }
        requires turn { place.old.me.0.turn ≡ true }
        requires hand { place.old.me.1 ≡ (0, flown place.old.me.0.base (in_hand place.old.me.1)) ∷ [] }
        requires entry { Grew place.old.me.0 (in_hand place.old.me.1) }
        ensures table { place.new.table_id ≡ place.old.table_id }
        ensures counted { place.new.me ≡ (caught_up place.old.me.0 (in_hand place.old.me.1), place.old.me.1) }
    {
        self.table.shared.fetch_add::<Add>(place, ENTRIES, 1);
    }

    // Gives the turn back, with the Air.
    fn give_turn(&self, place: &mut Place)
        requires table { place.old.table_id ≡ self.now.table }
        requires turn { (place.old.me.0.turn ≡ true) × (place.old.me.1 ≡ (0, flown place.old.me.0.base place.old.me.0.seen) ∷ []) }
        ensures table { place.new.table_id ≡ place.old.table_id }
        ensures gave { place.new.me ≡ (off place.old.me.0, []) }
    {
        self.table.shared.store::<Give>(place, TURN, 0);
        if self.table.shared.peek(WAITING) > 0 {
            self.table.shared.wake_one(TURN);
        }
    }

    // Gives the turn back, and counts first the entry that the Air in the seat's hand may have more than was seen.
    fn leave(&self, place: &mut Place, grew: bool)
        requires table { place.old.table_id ≡ self.now.table }
        requires turn { place.old.me.0.turn ≡ true }
        requires hand { place.old.me.1 ≡ (0, flown place.old.me.0.base (in_hand place.old.me.1)) ∷ [] }
        requires entry { MatchBool grew (Grew place.old.me.0 (in_hand place.old.me.1)) (in_hand place.old.me.1 ≡ place.old.me.0.seen) }
        ensures table { place.new.table_id ≡ place.old.table_id }
        ensures gave { place.new.me ≡ (off (caught_up place.old.me.0 (in_hand place.old.me.1)), []) }
    {
        if grew {
            self.count_entry(place);
        }
        self.give_turn(place);
    }

    fn begin_in_hand(
        &self,
        place: &mut Place,
        node: u16,
        wants: bool,
        tick: bool,
    ) -> Result<Option<Input>, AllocError>
        requires table { place.old.table_id ≡ self.now.table }
        requires hand { place.old.me.1 ≡ (0, flown place.old.me.0.base place.old.me.0.seen) ∷ [] }
        requires node { (node < count place.old.me.0.base) × (phase node place.old.me.0.seen ≢ Busy) }
        requires live { is_dead place.old.me.0.base.plan.dead place.old.me.0.base.kinds node ≡ false }
        ensures table { place.new.table_id ≡ place.old.table_id }
        ensures view { place.new.me.0 ≡ place.old.me.0 }
        ensures hand { place.new.me.1 ≡ (0, flown place.old.me.0.base (in_hand place.new.me.1)) ∷ [] }
        ensures answer { IfOk result (λ input. input ≡ next_input (phase node place.old.me.0.seen) (next_for place.old.me.0.base node place.old.me.0.seen) tick wants) }
        ensures some { IfOk result (λ input. MatchOption input (in_hand place.new.me.1 ≡ place.old.me.0.seen) (λ i. in_hand place.new.me.1 ≡ place.old.me.0.seen ++ Begin node i ∷ [])) }
        ensures err { OnErr result (in_hand place.new.me.1 ≡ place.old.me.0.seen) }
        ensures short { length (in_hand place.new.me.1) < 2 ^ 63 }
    {
        let air = place.slot_mut(&self.table.shared, 0);
        let input = air.begin(node, wants, tick);
        if matches!(&input, Ok(None)) {
            self.round.lie_down(node);
        }
        input
    }

    fn end_in_hand(&self, place: &mut Place, node: u16, note: Option<Payload>, packets: Packets)
        requires table { place.old.table_id ≡ self.now.table }
        requires hand { place.old.me.1 ≡ (0, flown place.old.me.0.base place.old.me.0.seen) ∷ [] }
        requires node { (node < count place.old.me.0.base) × (phase node place.old.me.0.seen ≡ Busy) }
        ensures table { place.new.table_id ≡ place.old.table_id }
        ensures view { place.new.me.0 ≡ place.old.me.0 }
        ensures hand { place.new.me.1 ≡ (0, flown place.old.me.0.base (in_hand place.new.me.1)) ∷ [] }
        ensures entry { (kept : ℕ) × (kept ≤ length packets) × (in_hand place.new.me.1 ≡ place.old.me.0.seen ++ End node note packets kept ∷ []) }
        ensures short { length (in_hand place.new.me.1) < 2 ^ 63 }
    {
        let air = place.slot_mut(&self.table.shared, 0);
        self.round.ring(&packets);
        air.end(node, note, packets);
    }

    fn stop_in_hand(&self, place: &mut Place, node: u16, landed: Option<Payload>)
        requires table { place.old.table_id ≡ self.now.table }
        requires hand { place.old.me.1 ≡ (0, flown place.old.me.0.base place.old.me.0.seen) ∷ [] }
        requires node { (node < count place.old.me.0.base) × (phase node place.old.me.0.seen ≡ Busy) }
        ensures table { place.new.table_id ≡ place.old.table_id }
        ensures view { place.new.me.0 ≡ place.old.me.0 }
        ensures hand { place.new.me.1 ≡ (0, flown place.old.me.0.base (in_hand place.new.me.1)) ∷ [] }
        ensures entry { in_hand place.new.me.1 ≡ place.old.me.0.seen ++ Stop node landed ∷ [] }
        ensures short { length (in_hand place.new.me.1) < 2 ^ 63 }
    {
        let air = place.slot_mut(&self.table.shared, 0);
        air.stop(node, landed);
    }

    fn quiet_in_hand(&self, place: &mut Place) -> bool
        requires table { place.old.table_id ≡ self.now.table }
        requires hand { place.old.me.1 ≡ (0, flown place.old.me.0.base place.old.me.0.seen) ∷ [] }
        ensures table { place.new.table_id ≡ place.old.table_id }
        ensures me { place.new.me ≡ place.old.me }
        ensures quiet { IsTrue result ↔ IsQuiet (flown place.old.me.0.base place.old.me.0.seen) }
    {
        let air = place.slot_mut(&self.table.shared, 0);
        air.quiet()
    }
}

// Joins the seats into one.
fn gather(shared: &Shared<Air, View, Base, Order>, place: &mut Place, seats: Vec<Seat>)
    requires table { (place.old.table_id ≡ shared.now.table_id) × (0 < shared.now.table_id.words) }
    requires seats { All (λ (s : Sight). s.bus.table ≡ shared.now.table_id) seats.items }
    ensures table { place.new.table_id ≡ place.old.table_id }
    ensures joined { place.new.me ≡ (gathered place.old.me.0 seats.items, place.old.me.1) }
{
    for seat in seats {
        shared.join_seat::<Gather>(place, seat.into_place());
    }
}

// What was seen and made with each seat, in the room.
fn seen_of(seats: &[Seat], room: Vec<Seen>) -> Vec<Seen>
    requires empty { room.items ≡ [] }
    requires room { length seats.now ≤ vec_capacity room }
    ensures { result.items ≡ seats.now }
{
    let mut lists = room;
    for seat in seats {
        lists.push_reserved(Seen::of(seat));
    }
    lists
}
