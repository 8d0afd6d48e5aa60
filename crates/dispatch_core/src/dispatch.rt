// The dispatcher's core: the rows of its turns.
ghost use Rattle.std.specs.Prelude.{◌≡◌, ℕ, ◌<◌, ◌==◌, List, [], ◌∷◌, All, true, false, nat_eq, cond, if◌then◌else◌, IfOk, OnOk, IfSome, IfNone};
ghost use Rattle.dispatch_core.specs.Terms.{deque_len, deque_capacity, contains, spare, IsClick, at, Setting, land, idle, Input, DispatcherKept, DispatcherLive, land_dispatcher, has_room, retries, takes, ends, parks, dispatcher_start, dispatcher_own, dispatcher_tick, dispatcher_gets, dispatcher_wants, dispatcher_looks, dispatcher_unfinished, dispatcher_at_rest};
ghost use Rattle.dispatch_core.specs.Dealing.{GoInTurn};
ghost use Rattle.dispatch_core.specs.Changes.{note_of, changed};
ghost use Rattle.dispatch_core.specs.Spelled.{IsTaken, ArePackets};
ghost use Rattle.dispatch_core.specs.Standing.{live_of, IsOrdered, Stands, StandsAs, HasSameNumbers, IsAlike};
ghost use Rattle.dispatch_core.specs.Standing.{IsKept, IsLineAt, click_at, IsLookedUp, AreClicksAt, Carries, Takes};
ghost use Rattle.dispatch_core.specs.Standing.{out_of, Fits, IsTurn, HasRoom, CanKeep, first_next, Sends, IsDealt};

use crate::dealer::Dealer;
use crate::line::FreshLine;
use crate::outbox::Outbox;
use crate::turns::{Change, Step};
use crate::window::{end_of_done, finish, has_waiting, is_first_done, is_waiting, pass_done};
use crate::{DispatchInput, TakenLine, Turn};
use indexmap::IndexSet;
use log_records::ClickRec;
use std::alloc::{AllocError, Global};
use std::collections::VecDeque;
use turn_defs::{Config, Outcome, Packet, WINDOW};

/// The dispatcher of a site: what it knows while it is up, and which positions its disks keep pending.
///
/// A turn costs constant expected time and O(log n) of the window, a Tick linear time in the window, whose clicks it shares, and a
/// Start in the pending positions, which it copies. The window has at most 64 entries.
#[derive(Debug, Drop)]
pub struct DispatchCore {
    alloc: Global,
    dealer: Dealer,
    place: u64,
    fresh: VecDeque<FreshLine>,
    due: VecDeque<u64>,
    trying: IndexSet<u64>,
    // The positions that the disks keep pending, in no order.
    pending: IndexSet<u64>,
    ended: bool,
}

impl DispatchCore {
    /// The dispatcher of a site, before its Start. It takes no memory.
    pub fn new(alloc: Global, site: u8, config: Config) -> DispatchCore
        requires site { site < 2 }
        requires joiners { 0 < config.joiners }
        ensures site { result.dealer.site ≡ site }
        ensures config { result.dealer.config ≡ config }
        ensures next { result.dealer.next ≡ 0 }
        ensures live { live_of result ≡ record { place = 0; fresh = []; due = []; trying = []; ended = false } }
        ensures pending { (p : ℕ) → contains nat_eq result.pending p ≡ false }
    {
        DispatchCore {
            alloc,
            dealer: Dealer::new(site, config),
            place: 0,
            fresh: VecDeque::new(alloc),
            due: VecDeque::new(alloc),
            trying: IndexSet::new(alloc),
            pending: IndexSet::new(alloc),
            ended: false,
        }
    }

    /// The numbers of its run.
    pub fn config(&self) -> Config
        ensures { result ≡ self.now.dealer.config }
    {
        self.dealer.config
    }

    /// The end of the last line that was taken, where the next one is looked for.
    pub fn place(&self) -> u64
        ensures { result ≡ (live_of self.now).place }
    {
        self.place
    }

    /// The first due position, whose click an Own looks up. Where there is none it looks up the line at the place.
    pub fn first_due(&self) -> Option<u64>
        ensures some { IfSome result (λ p. (rest : List ℕ) × ((live_of self.now).due ≡ p ∷ rest)) }
        ensures none { IfNone result ((live_of self.now).due ≡ []) }
    {
        self.due.front().copied()
    }

    /// The positions in trial, in order, whose clicks a Tick looks up.
    pub fn trying(&self) -> &[u64]
        ensures { result.now ≡ (live_of self.now).trying }
    {
        self.trying.as_slice()
    }

    /// Whether an Own would do something. Constant time.
    pub fn wants(&self) -> bool
        ensures { result ≡ dispatcher_wants (live_of self.now) }
    {
        if is_first_done(&self.fresh) {
            return true;
        }
        self.has_room() && (!self.due.is_empty() || !self.ended)
    }

    /// Whether it waits for an answer, so that it takes a Tick. Linear in the leading done lines of the window.
    pub fn unfinished(&self) -> bool
        ensures { result ≡ dispatcher_unfinished (live_of self.now) }
    {
        has_waiting(&self.fresh) || !self.trying.is_empty()
    }

    /// Whether all is done, as far as it knows the log. Constant time.
    pub fn at_rest(&self) -> bool
        ensures { result ≡ dispatcher_at_rest (live_of self.now) }
    {
        self.ended && self.fresh.is_empty() && self.due.is_empty() && self.trying.is_empty()
    }

    /// Whether an Own looks in the log, for the click at the first due position, or else for the line at the place. Else
    /// what it is given isn't looked at. Constant time.
    pub fn looks(&self) -> bool
        ensures { result ≡ dispatcher_looks (live_of self.now) }
    {
        if is_first_done(&self.fresh) || !self.has_room() {
            return false;
        }
        !self.due.is_empty() || !self.ended
    }

    // At most 64 lines and positions in trial may be in the window.
    fn has_room(&self) -> bool
        ensures { result ≡ has_room (live_of self.now) }
    {
        self.fresh.len() < WINDOW && self.trying.len() < WINDOW - self.fresh.len()
    }

    /// What the input makes it do: at most one note, packets, and the change to keep once the note is written. It makes
    /// room for that change and changes nothing else. An error is want of memory.
    pub fn decide(&mut self, input: DispatchInput) -> Result<Turn, AllocError>
        requires { IsTaken input }
        ensures same { StandsAs self.old self.new }
        ensures numbers { HasSameNumbers self.old self.new }
        ensures next { self.new.dealer.next ≡ self.old.dealer.next }
        ensures ready { IfOk result (λ turn. CanKeep self.new turn.step) }
        ensures turn { (g : Setting) (k : DispatcherKept) (l : DispatcherLive) (i : Input) →
            Takes g self.old k l input → Carries g k l input i →
            IfOk result (λ turn. IsTurn g self.new k l turn (out_of g self.old.dealer.site k l i)) }
        ensures joiners { IfOk result (λ turn. GoInTurn self.old.dealer.site self.old.dealer.config
            (first_next input self.old.dealer.next) turn.packets.items turn.step.next) }
        ensures spelled { IfOk result (λ turn. ArePackets turn.packets.items) }
    {
        self.make_room()?;
        match input {
            DispatchInput::Start { offset, pending } => self.start(offset, pending),
            DispatchInput::Own { line, due } => self.own(line, due),
            DispatchInput::Tick { trying } => self.tick(trying),
            DispatchInput::Packet { from: _, packet } => Ok(self.get(&packet)),
        }
    }

    // Room for one more of each kind. Where there is none it is doubled.
    fn make_room(&mut self) -> Result<(), AllocError>
        ensures room { OnOk result (HasRoom self.new) }
        ensures same { IsAlike self.old self.new }
    {
        self.fresh.reserve(1)?;
        self.trying.reserve(1)?;
        self.pending.reserve(1)
    }

    // A turn without packets.
    fn quiet(&self, change: Change) -> Turn
        ensures { Sends self.now result change [] }
    {
        Turn {
            packets: Vec::new(self.alloc),
            step: Step {
                next: self.dealer.next,
                change,
            },
        }
    }

    // A turn with one Join.
    fn joining(&self, position: u64, click: ClickRec, change: Change) -> Result<Turn, AllocError>
        requires { IsClick click }
        ensures { IfOk result (λ turn. Sends self.now turn change ((position, click) ∷ [])) }
    {
        let mut outbox = Outbox::new(self.alloc, self.dealer);
        outbox.put(position, click)?;
        Ok(outbox.turn(change))
    }

    // Start: the place is the offset, what is pending is due, and nothing is fresh or in trial. Linear in what is pending.
    #[tactic(auto, using(std::proofs::lemmas::List::take_more, std::proofs::lemmas::List::take_all, crate::proofs::Sets::one_more))]
    fn start(&self, offset: u64, pending: Vec<u64>) -> Result<Turn, AllocError>
        ensures turn { (g : Setting) (k : DispatcherKept) (l : DispatcherLive) → g.config ≡ self.now.dealer.config → IsKept k offset pending.items →
            IfOk result (λ turn. IsTurn g self.now k l turn (dispatcher_start k)) }
        ensures joiners { IfOk result (IsDealt self.now 0) }
    {
        let mut kept = IndexSet::with_capacity(self.alloc, pending.len())?;
        for position in &pending {
            kept.insert(*position)?;
        }
        let due = VecDeque::from_vec(pending);
        Ok(Turn {
            packets: Vec::new(self.alloc),
            step: Step {
                next: 0,
                change: Change::Start {
                    place: offset,
                    pending: kept,
                    due,
                },
            },
        })
    }

    // Own, the first that applies: the offset passes the leading done lines; with room in the window a due position is
    // tried again, or else the line at the place is taken.
    fn own(&self, line: Option<TakenLine>, due: Option<ClickRec>) -> Result<Turn, AllocError>
        requires line { IfSome line (λ t. IsClick t.click) }
        requires due { IfSome due IsClick }
        ensures turn { (g : Setting) (k : DispatcherKept) (l : DispatcherLive) → Stands g self.now k l →
            (dispatcher_looks l ≡ true → IsLookedUp g l l.due line due) →
            IfOk result (λ turn. IsTurn g self.now k l turn (dispatcher_own g self.now.dealer.site k l)) }
        ensures joiners { IfOk result (IsDealt self.now self.now.dealer.next) }
    {
        if is_first_done(&self.fresh) {
            let end = end_of_done(&self.fresh, self.place);
            return Ok(self.quiet(Change::Advance(end)));
        }
        if !self.has_room() {
            return Ok(self.quiet(Change::Nothing));
        }
        match self.due.front() {
            Some(position) => self.retry(*position, due),
            None => self.take(line),
        }
    }

    // A due position: a Join of its click, and it is in trial. Without a click it stays due.
    fn retry(&self, position: u64, due: Option<ClickRec>) -> Result<Turn, AllocError>
        requires { IfSome due IsClick }
        ensures turn { (rest : List ℕ) (g : Setting) (k : DispatcherKept) (l : DispatcherLive) → Stands g self.now k l →
            l.due ≡ position ∷ rest → click_at g position ≡ due → IfOk result (λ turn. IsTurn g self.now k l turn
            (retries g self.now.dealer.site k l position rest (at g.clicks position))) }
        ensures joiners { IfOk result (IsDealt self.now self.now.dealer.next) }
    {
        match due {
            Some(click) => self.joining(position, click, Change::Retry),
            None => Ok(self.quiet(Change::Nothing)),
        }
    }

    // The line at the place enters the window, done where its position is pending, else with a Join. Where no whole line
    // follows the place, the log has ended.
    fn take(&self, line: Option<TakenLine>) -> Result<Turn, AllocError>
        requires { IfSome line (λ t. IsClick t.click) }
        ensures turn { (g : Setting) (k : DispatcherKept) (l : DispatcherLive) → Stands g self.now k l →
            (l.ended ≡ false → IsLineAt g l.place line) → IfOk result (λ turn. IsTurn g self.now k l turn
            (if l.ended then idle l else takes g self.now.dealer.site k l (at g.clicks l.place))) }
        ensures joiners { IfOk result (IsDealt self.now self.now.dealer.next) }
    {
        if self.ended {
            return Ok(self.quiet(Change::Nothing));
        }
        match line {
            Some(line) => self.enter(line),
            None => Ok(self.quiet(Change::End)),
        }
    }

    #[tactic(auto, using(crate::proofs::Rows::row_of, crate::proofs::Rows::as_out, crate::proofs::Rows::entered_live))]
    fn enter(&self, line: TakenLine) -> Result<Turn, AllocError>
        requires { IsClick line.click }
        ensures turn { (g : Setting) (k : DispatcherKept) (l : DispatcherLive) → Stands g self.now k l →
            l.place ≡ line.position → line.position < line.end → IfOk result (λ turn. IsTurn g self.now k l turn
            (takes g self.now.dealer.site k l (Some (record { place = line.position; end_ = line.end; click = line.click })))) }
        ensures joiners { IfOk result (IsDealt self.now self.now.dealer.next) }
    {
        let TakenLine {
            position,
            end,
            click,
        } = line;
        if self.pending.contains(&position) {
            let done = FreshLine::new(position, end, click, true);
            return Ok(self.quiet(Change::Take(done)));
        }
        let shared = click.share()?;
        let fresh = FreshLine::new(position, end, click, false);
        self.joining(position, shared, Change::Take(fresh))
    }

    // Tick: a Join of each line that isn't done, and of each position in trial. Linear in the window.
    fn tick(&self, clicks: Vec<ClickRec>) -> Result<Turn, AllocError>
        requires { All IsClick clicks.items }
        ensures turn { (g : Setting) (k : DispatcherKept) (l : DispatcherLive) → Stands g self.now k l →
            AreClicksAt g l.trying clicks.items →
            IfOk result (λ turn. IsTurn g self.now k l turn (dispatcher_tick g self.now.dealer.site k l)) }
        ensures joiners { IfOk result (IsDealt self.now self.now.dealer.next) }
    {
        let mut outbox = Outbox::new(self.alloc, self.dealer);
        outbox.put_waiting(&self.fresh)?;
        outbox.put_trying(self.trying.as_slice(), &clicks)?;
        Ok(outbox.turn(Change::Nothing))
    }

    // A packet: only a Joined is answered. Written, Already and TooOld end a join, NoQuery parks a line, Busy does nothing.
    fn get(&self, packet: &Packet) -> Turn
        ensures turn { (g : Setting) (k : DispatcherKept) (l : DispatcherLive) → Stands g self.now k l →
            IsTurn g self.now k l result (dispatcher_gets g self.now.dealer.site k l packet.now) }
        ensures joiners { IsDealt self.now self.now.dealer.next result }
    {
        match packet {
            Packet::Joined { position, outcome } => match outcome {
                Outcome::Written | Outcome::Already(_) | Outcome::TooOld(_) => self.end_join(
                    *position,
                ),
                Outcome::NoQuery(_) => self.park(*position),
                Outcome::Busy => self.quiet(Change::Nothing),
            },
            _ => self.quiet(Change::Nothing),
        }
    }

    // The join ended: a line that isn't done is done; a position in trial is settled.
    fn end_join(&self, position: u64) -> Turn
        ensures turn { (g : Setting) (k : DispatcherKept) (l : DispatcherLive) → Stands g self.now k l →
            IsTurn g self.now k l result (ends g self.now.dealer.site k l position) }
        ensures joiners { IsDealt self.now self.now.dealer.next result }
    {
        if is_waiting(&self.fresh, position) {
            return self.quiet(Change::Finish(position));
        }
        if self.trying.contains(&position) {
            return self.quiet(Change::Settle(position));
        }
        self.quiet(Change::Nothing)
    }

    // There is no query yet: a line that isn't done is done and parked; a position in trial stays pending and leaves the trial.
    fn park(&self, position: u64) -> Turn
        ensures turn { (g : Setting) (k : DispatcherKept) (l : DispatcherLive) → Stands g self.now k l →
            IsTurn g self.now k l result (parks g self.now.dealer.site k l position) }
        ensures joiners { IsDealt self.now self.now.dealer.next result }
    {
        if is_waiting(&self.fresh, position) {
            return self.quiet(Change::Park(position));
        }
        if self.trying.contains(&position) {
            return self.quiet(Change::Leave(position));
        }
        self.quiet(Change::Nothing)
    }

    /// Makes the next state of a turn that was decided on this very state. It takes no memory. At a Settle or a Leave the
    /// positions in trial behind it move up by one, at most 63; at an Advance it is linear in the lines that leave.
    pub fn keep(&mut self, step: Step)
        requires { CanKeep self.old step }
        ensures stands { (g : Setting) (k : DispatcherKept) (l : DispatcherLive) →
            Fits g self.old k l step.change → Stands g self.new (land land_dispatcher (note_of step.change) k) (changed step.change l) }
        ensures numbers { HasSameNumbers self.old self.new }
        ensures next { self.new.dealer.next ≡ step.next }
    {
        let Step { next, change } = step;
        self.make(change);
        self.dealer.next = next;
    }

    // The change is made.
    #[tactic(auto, using(crate::proofs::Sets::one_more, crate::proofs::Sets::one_less, crate::proofs::Keeping::makes, crate::proofs::Keeping::kept_as, crate::proofs::Keeping::same_pending, crate::proofs::Keeping::ordered_core, crate::proofs::Keeping::retry_ordered, crate::proofs::Keeping::take_ordered, crate::proofs::Keeping::mark_ordered, crate::proofs::Keeping::leave_ordered))]
    fn make(&mut self, change: Change)
        requires { HasRoom self.old }
        ensures stands { (g : Setting) (k : DispatcherKept) (l : DispatcherLive) →
            Fits g self.old k l change → Stands g self.new (land land_dispatcher (note_of change) k) (changed change l) }
        ensures dealer { self.new.dealer ≡ self.old.dealer }
    {
        match change {
            Change::Nothing => {}
            Change::Start {
                place,
                pending,
                due,
            } => self.come_up(place, pending, due),
            Change::Advance(_) => pass_done(&mut self.fresh),
            Change::Retry => self.try_first(),
            Change::Take(line) => self.add_line(line),
            Change::End => self.ended = true,
            Change::Finish(position) => finish(&mut self.fresh, position),
            Change::Park(position) => self.add_pending(position),
            Change::Settle(position) => self.remove_pending(position),
            Change::Leave(position) => self.leave_trial(position),
        }
    }

    fn come_up(&mut self, place: u64, pending: IndexSet<u64>, due: VecDeque<u64>)
        ensures live { live_of self.new ≡ record { place = place; fresh = []; due = due.items; trying = []; ended = false } }
        ensures pending { self.new.pending ≡ pending }
        ensures dealer { self.new.dealer ≡ self.old.dealer }
    {
        self.place = place;
        self.fresh.clear();
        self.due = due;
        self.trying.clear();
        self.pending = pending;
        self.ended = false;
    }

    // The first due position goes last in trial.
    fn try_first(&mut self)
        requires { 0 < spare self.old.trying }
        ensures live { IsOrdered (live_of self.old) → live_of self.new ≡ changed Change.Retry (live_of self.old) }
        ensures pending { self.new.pending ≡ self.old.pending }
        ensures dealer { self.new.dealer ≡ self.old.dealer }
    {
        if let Some(position) = self.due.pop_front() {
            let _ = self.trying.insert(position);
        }
    }

    fn add_line(&mut self, line: FreshLine)
        requires { deque_len self.old.fresh < deque_capacity self.old.fresh }
        ensures live { live_of self.new ≡ changed (Change.Take line) (live_of self.old) }
        ensures pending { self.new.pending ≡ self.old.pending }
        ensures dealer { self.new.dealer ≡ self.old.dealer }
    {
        self.place = line.end;
        self.fresh.push_back_reserved(line);
    }

    // The line at the position is done, and the position is pending.
    fn add_pending(&mut self, position: u64)
        requires { 0 < spare self.old.pending }
        ensures live { IsOrdered (live_of self.old) → live_of self.new ≡ changed (Change.Park position) (live_of self.old) }
        ensures pending { (p : ℕ) → contains nat_eq self.new.pending p ≡ cond (position == p) true (contains nat_eq self.old.pending p) }
        ensures dealer { self.new.dealer ≡ self.old.dealer }
    {
        finish(&mut self.fresh, position);
        let _ = self.pending.insert(position);
    }

    // The position isn't in trial any more, and stays pending.
    #[tactic(auto, using(crate::proofs::Sets::removed))]
    fn leave_trial(&mut self, position: u64)
        ensures live { IsOrdered (live_of self.old) → live_of self.new ≡ changed (Change.Leave position) (live_of self.old) }
        ensures pending { self.new.pending ≡ self.old.pending }
        ensures dealer { self.new.dealer ≡ self.old.dealer }
    {
        self.trying.shift_remove(&position);
    }

    // It isn't pending any more either.
    #[tactic(auto, using(crate::proofs::Sets::removed))]
    fn remove_pending(&mut self, position: u64)
        ensures live { IsOrdered (live_of self.old) → live_of self.new ≡ changed (Change.Settle position) (live_of self.old) }
        ensures pending { (p : ℕ) → contains nat_eq self.new.pending p ≡ cond (position == p) false (contains nat_eq self.old.pending p) }
        ensures dealer { self.new.dealer ≡ self.old.dealer }
    {
        self.trying.shift_remove(&position);
        self.pending.swap_remove(&position);
    }
}
