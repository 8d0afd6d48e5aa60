// A log, read line by line.
ghost use Rattle.std.specs.Prelude.{◌≡◌, IsTrue};
ghost use Rattle.tail_reader.specs.Buffered.{Buffers};

use crate::scan::next_line;
use crate::window::Window;
use outside::{LogFile, ReadFault};

/// What stands at a place of a log.
#[derive(Clone, Copy, Debug, PartialEq, Eq)]
pub enum Next {
    /// A whole line, whose bytes `Tail::line` gives. `end` is the place behind its line feed.
    Line { place: u64, end: u64 },
    /// A whole line of over `MAX_LINE` bytes.
    Long { place: u64, end: u64 },
    /// No line feed follows.
    End { place: u64 },
}

/// A log that is read line by line. It takes no memory: what was read ahead stands in 4 KiB of its own.
#[derive(Drop)]
pub struct Tail<L: LogFile> {
    log: L,
    place: u64,
    window: Window,
    ghost ahead: { IsTrue L.tells → Buffers (L.bytes log) place window.1 },
}

impl<L: LogFile> Tail<L> {
    ghost use Rattle.std.specs.Prelude.{◌≡◌, is_err, IfOk, OnErr, IsTrue};
    ghost use Rattle.outside.specs.Faults.{tallied};
    ghost use Rattle.tail_reader.specs.Next.{IsNext, end_of};

    /// Reads from this place on. It reads nothing yet.
    pub fn new(log: L, place: u64) -> Tail<L>
        ensures log { result.log ≡ log }
        ensures place { result.place ≡ place }
    {
        Tail {
            log,
            place,
            window: Window::new(),
        }
    }

    /// Where the next call begins.
    pub fn place(&self) -> u64
        ensures { result ≡ self.now.place }
    {
        self.place
    }

    /// Goes on from this place. What was read ahead is forgotten.
    pub fn seek(&mut self, place: u64)
        ensures log { self.new.log ≡ self.old.log }
        ensures place { self.new.place ≡ place }
    {
        self.window.clear();
        self.place = place;
    }

    /// Gives the log back.
    pub fn into_log(self) -> L
        ensures { result ≡ self.log }
    {
        let Tail {
            log,
            place: _,
            window: _,
        } = self;
        log
    }

    /// The line that the last `Next::Line` told, without its line feed, until the next call of `next` or `seek`.
    pub fn line(&self) -> &[u8]
        ensures { result.now ≡ self.now.window.0 }
    {
        self.window.line()
    }

    /// What stands at the place; the next call goes on behind it. After a fault the next call begins at the same place.
    ///
    /// It reads blocks of up to 4 KiB, and a byte again only of a line of over `MAX_LINE` bytes that has no line feed yet.
    pub fn next(&mut self) -> Result<Next, ReadFault>
        ensures next { IsTrue L.tells → IfOk result (λ next. IsNext (L.bytes self.old.log) self.old.place next self.new.window.0) }
        ensures place { IfOk result (λ next. self.new.place ≡ end_of next) }
        ensures err { OnErr result (self.new.place ≡ self.old.place) }
        ensures same { IsTrue L.tells → L.bytes self.new.log ≡ L.bytes self.old.log }
        ensures tally { L.faults self.new.log ≡ tallied (L.faults self.old.log) (is_err result) }
    {
        let next = next_line(&mut self.log, self.place, &mut self.window)?;
        self.place = next.end();
        Ok(next)
    }
}

impl Next {
    ghost use Rattle.std.specs.Prelude.{◌≡◌};
    ghost use Rattle.tail_reader.specs.Next.{end_of};

    /// Where the next call goes on.
    pub fn end(self) -> u64
        ensures { result ≡ end_of self }
    {
        match self {
            Next::Line { end, .. } | Next::Long { end, .. } => end,
            Next::End { place } => place,
        }
    }
}
