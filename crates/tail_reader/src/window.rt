// What was read of a log and isn't used up.
ghost use Rattle.std.specs.Prelude.{◌≡◌, ◌≤◌, ◌<◌, ◌+◌, ◌++◌, [], List, ℕ, length, take, drop, is_err, IfOk, OnErr, IsTrue};
ghost use Rattle.outside.specs.Faults.{tallied};
ghost use Rattle.tail_reader.specs.Buffered.{behind};
ghost use Rattle.log_records.specs.declared.lines.TheConstants.{MAX_LINE};
ghost use Rattle.tail_reader.specs.declared.window.TheConstants.{SIZE};

use log_records::{MAX_LINE, MAX_LOG};
use outside::{LogFile, ReadFault};
use std::marker::Model;

const SIZE: usize = 4096;

/// The line that was handed out last, and the bytes behind it that were read ahead.
#[derive(Drop)]
pub struct Window {
    bytes: [u8; SIZE],
    line_start: usize,
    line_end: usize,
    start: usize,
    end: usize,
}

impl Model for Window {
    ghost use Rattle.std.specs.Prelude.{List, ℕ, take, drop, ◌-◌, ◌≤◌};
    ghost use Rattle.tail_reader.specs.declared.window.TheConstants.{SIZE};

    ghost Value = { List ℕ × List ℕ };

    ghost view = { λ w. (take (w.line_end - w.line_start) (drop w.line_start w.bytes), take (w.end - w.start) (drop w.start w.bytes)) };

    ghost invariant = { λ w. (w.line_start ≤ w.line_end) × (w.line_end ≤ SIZE) × (w.start ≤ w.end) × (w.end ≤ SIZE) };
}

impl Window {
    pub fn new() -> Window
        ensures { result ≡ ([], []) }
    {
        Window {
            bytes: [0; SIZE],
            line_start: 0,
            line_end: 0,
            start: 0,
            end: 0,
        }
    }

    /// The line that was handed out last.
    pub fn line(&self) -> &[u8]
        ensures { result.now ≡ self.now.0 }
    {
        &self.bytes[self.line_start..self.line_end]
    }

    /// How many bytes were read ahead.
    pub fn len(&self) -> usize
        ensures len { result ≡ length self.now.1 }
        ensures small { result ≤ SIZE }
    {
        self.end - self.start
    }

    /// What was read ahead.
    pub fn ahead(&self) -> &[u8]
        ensures bytes { result.now ≡ self.now.1 }
        ensures small { length result.now ≤ SIZE }
    {
        &self.bytes[self.start..self.end]
    }

    /// Hands out a line of this length, and passes over the byte behind it.
    pub fn take_line(&mut self, len: usize)
        requires { len < length self.old.1 }
        ensures line { self.new.0 ≡ take len self.old.1 }
        ensures ahead { self.new.1 ≡ drop (len + 1) self.old.1 }
    {
        self.line_start = self.start;
        self.line_end = self.start + len;
        self.start += len + 1;
    }

    /// Forgets what was read.
    pub fn clear(&mut self)
        ensures { self.new ≡ ([], []) }
    {
        self.line_start = 0;
        self.line_end = 0;
        self.start = 0;
        self.end = 0;
    }

    /// Reads some bytes behind those read ahead, which begin at place `at` of the log. Answers how many, none only
    /// at the end of the log or at the limit. The line is forgotten.
    pub fn read_more<L: LogFile>(&mut self, log: &mut L, at: u64) -> Result<usize, ReadFault>
        requires { length self.old.1 ≤ MAX_LINE }
        ensures len { IfOk result (λ n. length self.new.1 ≡ length self.old.1 + n) }
        ensures small { IfOk result (λ n. n ≤ SIZE) }
        ensures bytes { IsTrue L.tells → IfOk result (λ n. (n ≤ length (behind (L.bytes log.old) at)) × (self.new.1 ≡ self.old.1 ++ take n (behind (L.bytes log.old) at))) }
        ensures end { IsTrue L.tells → IfOk result (λ n. n ≡ 0 → behind (L.bytes log.old) at ≡ []) }
        ensures err { OnErr result (self.new.1 ≡ self.old.1) }
        ensures same { IsTrue L.tells → L.bytes log.new ≡ L.bytes log.old }
        ensures tally { L.faults log.new ≡ tallied (L.faults log.old) (is_err result) }
    {
        let len = self.end - self.start;
        move_to_front(&mut self.bytes, self.start, len);
        self.line_start = 0;
        self.line_end = 0;
        self.start = 0;
        self.end = len;
        let n = read_below(log, at, &mut self.bytes[len..])?;
        self.end = len + n;
        Ok(n)
    }
}

// Moves some bytes, which are no more than a line, to the front.
fn move_to_front(bytes: &mut [u8], start: usize, len: usize)
    requires room { start + len ≤ length bytes.old }
    requires short { len ≤ MAX_LINE }
    ensures { take len bytes.new ≡ take len (drop start bytes.old) }
{
    let mut kept = [0; MAX_LINE];
    kept[..len].copy_from_slice(&bytes[start..start + len]);
    bytes[..len].copy_from_slice(&kept[..len]);
}

// Reads some bytes into the front of `buf`, none from the limit on.
fn read_below<L: LogFile>(log: &mut L, at: u64, buf: &mut [u8]) -> Result<usize, ReadFault>
    requires { 0 < length buf.old }
    ensures fits { IfOk result (λ n. n ≤ length buf.old) }
    ensures bytes { IsTrue L.tells → IfOk result (λ n. (n ≤ length (behind (L.bytes log.old) at)) × (take n buf.new ≡ take n (behind (L.bytes log.old) at))) }
    ensures end { IsTrue L.tells → IfOk result (λ n. n ≡ 0 → behind (L.bytes log.old) at ≡ []) }
    ensures same { IsTrue L.tells → L.bytes log.new ≡ L.bytes log.old }
    ensures tally { L.faults log.new ≡ tallied (L.faults log.old) (is_err result) }
{
    if at >= MAX_LOG {
        return Ok(0);
    }
    let room = buf.len().min((MAX_LOG - at) as usize);
    let n = log.read_at(at, &mut buf[..room])?;
    Ok(n)
}
