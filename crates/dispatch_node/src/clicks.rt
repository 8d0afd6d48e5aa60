// The click log, of which a line is read where it is needed.
ghost use Rattle.std.specs.Prelude.{◌≡◌, ◌++◌, ◌∷◌, [], ℕ, List, All, Some, true, IfOk, IfErr, IfSome, OnOk, IsTrue};
ghost use Rattle.dispatch_node.specs.Terms.{AreClicksAt, IsLineAt, IsReadFault, Setting, click_at, has, is_read_fault, tallied, IsNext, IsClick, click_line, Click};
ghost use Rattle.dispatch_core.specs.Places.{IsLogOf, IsReadable, StartsAt};

use dispatch_core::TakenLine;
use log_records::{ClickRec, Why, read_click};
use outside::LogFile;
use site_node::NodeFault;
use std::alloc::Global;
use tail_reader::{Next, Tail};

// The click log. It was checked before, so a line that is no click's counts as its end.
#[derive(Drop)]
pub(crate) struct Clicks<L: LogFile> {
    tail: Tail<L>,
    pub(crate) alloc: Global,
}

impl<L: LogFile> Clicks<L> {
    // It reads nothing yet.
    pub(crate) fn new(alloc: Global, log: L) -> Clicks<L>
        ensures { result.tail.log ≡ log }
    {
        Clicks {
            tail: Tail::new(log, 0),
            alloc,
        }
    }

    pub(crate) fn into_log(self) -> L
        ensures { result ≡ self.tail.log }
    {
        self.tail.into_log()
    }

    // The next line is read at the place. Where the last one ended there, what was read ahead serves.
    fn go_to(&mut self, place: u64)
        ensures place { self.new.tail.place ≡ place }
        ensures log { self.new.tail.log ≡ self.old.tail.log }
    {
        if self.tail.place() != place {
            self.tail.seek(place);
        }
    }

    // What stands at the place.
    fn next_at(&mut self, place: u64) -> Result<Next, NodeFault>
        ensures next { IsTrue L.tells → IfOk result (λ next. IsNext (L.bytes self.old.tail.log) place next self.new.tail.window.0) }
        ensures same { IsTrue L.tells → L.bytes self.new.tail.log ≡ L.bytes self.old.tail.log }
        ensures fault { IfErr result IsReadFault }
        ensures tally { L.faults self.new.tail.log ≡ tallied (L.faults self.old.tail.log) (is_read_fault result) }
    {
        self.go_to(place);
        match self.tail.next() {
            Ok(next) => Ok(next),
            Err(_) => Err(NodeFault::Read),
        }
    }

    // The click of the line that was read last, with its place and the place behind it.
    fn taken(&self, position: u64, end: u64) -> Result<Option<TakenLine>, NodeFault>
        ensures line { (c : Click) → IsClick c → self.now.tail.window.0 ≡ click_line c →
            IfOk result (λ line. line ≡ Some (record { position = position; end = end; click = c })) }
        ensures spelled { IfOk result (λ line. IfSome line (λ t. IsClick t.click)) }
        ensures fault { IfErr result (λ e. e ≡ NodeFault.Memory) }
    {
        match read_click(self.alloc, self.tail.line()) {
            Ok(click) => Ok(Some(TakenLine {
                position,
                end,
                click,
            })),
            Err(Why::Memory) => Err(NodeFault::Memory),
            Err(_) => Ok(None),
        }
    }

    // The whole line at a place where a line begins, or None where the log ends there. It reads a block of 4 KiB, or none
    // where the line was read ahead.
    pub(crate) fn line_at(&mut self, place: u64) -> Result<Option<TakenLine>, NodeFault>
        ensures line { IsTrue L.tells → (g : Setting) → IsLogOf (L.bytes self.old.tail.log) g → IsReadable g place →
            IfOk result (IsLineAt g place) }
        ensures spelled { IfOk result (λ line. IfSome line (λ t. IsClick t.click)) }
        ensures same { IsTrue L.tells → L.bytes self.new.tail.log ≡ L.bytes self.old.tail.log }
        ensures fault { IfErr result IsReadFault }
        ensures tally { L.faults self.new.tail.log ≡ tallied (L.faults self.old.tail.log) (is_read_fault result) }
    {
        match self.next_at(place)? {
            Next::Line { place, end } => self.taken(place, end),
            Next::Long { .. } | Next::End { .. } => Ok(None),
        }
    }

    // The click whose line starts at the position.
    pub(crate) fn click_at(&mut self, position: u64) -> Result<Option<ClickRec>, NodeFault>
        ensures click { IsTrue L.tells → (g : Setting) → IsLogOf (L.bytes self.old.tail.log) g → StartsAt g position →
            IfOk result (λ click. click_at g position ≡ click) }
        ensures spelled { IfOk result (λ click. IfSome click IsClick) }
        ensures same { IsTrue L.tells → L.bytes self.new.tail.log ≡ L.bytes self.old.tail.log }
        ensures fault { IfErr result IsReadFault }
        ensures tally { L.faults self.new.tail.log ≡ tallied (L.faults self.old.tail.log) (is_read_fault result) }
    {
        match self.line_at(position)? {
            Some(
                TakenLine {
                    position: _,
                    end: _,
                    click,
                },
            ) => Ok(Some(click)),
            None => Ok(None),
        }
    }

    // The clicks whose lines start at the positions. It reads a block for each, and each click's text is copied.
    pub(crate) fn clicks_at(&mut self, positions: &[u64]) -> Result<Vec<ClickRec>, NodeFault>
        ensures clicks { IsTrue L.tells → (g : Setting) → IsLogOf (L.bytes self.old.tail.log) g →
            ((p : ℕ) → has positions.now p ≡ true → StartsAt g p) → IfOk result (λ clicks. AreClicksAt g positions.now clicks.items) }
        ensures spelled { IfOk result (λ clicks. All IsClick clicks.items) }
        ensures same { IsTrue L.tells → L.bytes self.new.tail.log ≡ L.bytes self.old.tail.log }
        ensures fault { IfErr result IsReadFault }
        ensures tally { L.faults self.new.tail.log ≡ tallied (L.faults self.old.tail.log) (is_read_fault result) }
    {
        let mut clicks = Vec::with_capacity(self.alloc, positions.len())?;
        for position in positions {
            self.put_click(*position, &mut clicks)?;
        }
        Ok(clicks)
    }

    // One click more, where a line starts at the position.
    #[tactic(auto, using(crate::proofs::Carried::clicks_more, crate::proofs::Carried::pushed_items))]
    fn put_click(&mut self, position: u64, clicks: &mut Vec<ClickRec>) -> Result<(), NodeFault>
        ensures click { IsTrue L.tells → (g : Setting) (before : List ℕ) → IsLogOf (L.bytes self.old.tail.log) g → StartsAt g position →
            AreClicksAt g before clicks.old.items → OnOk result (AreClicksAt g (before ++ position ∷ []) clicks.new.items) }
        ensures spelled { All IsClick clicks.old.items → OnOk result (All IsClick clicks.new.items) }
        ensures same { IsTrue L.tells → L.bytes self.new.tail.log ≡ L.bytes self.old.tail.log }
        ensures fault { IfErr result IsReadFault }
        ensures tally { L.faults self.new.tail.log ≡ tallied (L.faults self.old.tail.log) (is_read_fault result) }
    {
        let Some(click) = self.click_at(position)? else {
            return Ok(());
        };
        if clicks.push(click).is_err() {
            return Err(NodeFault::Memory);
        }
        Ok(())
    }
}
