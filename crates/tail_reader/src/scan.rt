// Looks for the next line feed, over what was read ahead and the log behind it.
ghost use Rattle.std.specs.Prelude.{◌≡◌, ◌≤◌, ◌<◌, ◌+◌, ◌*◌, ◌++◌, ◌∷◌, ◌⊎◌, [], List, ℕ, length, IfOk, IfSome, IfNone, is_err, OnErr, IsTrue};
ghost use Rattle.list_words.specs.Bytes.{Lacks};
ghost use Rattle.outside.specs.Faults.{tallied};
ghost use Rattle.log_records.specs.Log.{line_feed};
ghost use Rattle.tail_reader.specs.Buffered.{behind, Buffers};
ghost use Rattle.tail_reader.specs.Next.{IsNext, end_of};
ghost use Rattle.log_records.specs.declared.check.TheConstants.{MAX_LOG};
ghost use Rattle.log_records.specs.declared.lines.TheConstants.{MAX_LINE};
ghost use Rattle.tail_reader.specs.declared.window.TheConstants.{SIZE};

use crate::Next;
use crate::window::Window;
use list_words::split_once;
use log_records::{MAX_LINE, MAX_LOG};
use outside::{LogFile, ReadFault};

/// Finds the line that begins at the place, of which the window has the front.
pub fn next_line<L: LogFile>(
    log: &mut L,
    place: u64,
    window: &mut Window,
) -> Result<Next, ReadFault>
    requires { IsTrue L.tells → Buffers (L.bytes log.old) place window.old.1 }
    ensures next { IsTrue L.tells → IfOk result (λ next. IsNext (L.bytes log.old) place next window.new.0) }
    ensures ahead { IsTrue L.tells → IfOk result (λ next. Buffers (L.bytes log.old) (end_of next) window.new.1) }
    ensures err { IsTrue L.tells → OnErr result (Buffers (L.bytes log.old) place window.new.1) }
    ensures same { IsTrue L.tells → L.bytes log.new ≡ L.bytes log.old }
    ensures tally { L.faults log.new ≡ tallied (L.faults log.old) (is_err result) }
{
    if place >= MAX_LOG {
        window.clear();
        return Ok(Next::End { place });
    }
    let found = settle(log, place, window)?;
    match found {
        Some(len) => {
            window.take_line(len);
            let end = place + len as u64 + 1;
            if len > MAX_LINE {
                Ok(Next::Long { place, end })
            } else {
                Ok(Next::Line { place, end })
            }
        }
        None => {
            let len = window.len();
            if len <= MAX_LINE {
                return Ok(Next::End { place });
            }
            let behind = skip(log, place + len as u64, window)?;
            match behind {
                Some(end) => Ok(Next::Long { place, end }),
                None => Ok(Next::End { place }),
            }
        }
    }
}

// Reads on until the window has a line feed, or more bytes than a line, or all that there is. Answers the length of
// the line if its line feed is there.
fn settle<L: LogFile>(
    log: &mut L,
    place: u64,
    window: &mut Window,
) -> Result<Option<usize>, ReadFault>
    requires place { place < MAX_LOG }
    requires ahead { IsTrue L.tells → Buffers (L.bytes log.old) place window.old.1 }
    ensures ahead { IsTrue L.tells → Buffers (L.bytes log.old) place window.new.1 }
    ensures found { IfOk result (λ len. IfSome len (λ n. (line rest : List ℕ) × (window.new.1 ≡ line ++ line_feed ∷ rest) × Lacks line_feed line × (length line ≡ n))) }
    ensures short { IfOk result (λ len. IfSome len (λ n. n < SIZE)) }
    ensures none { IsTrue L.tells → IfOk result (λ len. IfNone len (Lacks line_feed window.new.1)) }
    ensures end { IsTrue L.tells → IfOk result (λ len. IfNone len (length window.new.1 ≤ MAX_LINE → behind (L.bytes log.old) place ≡ window.new.1)) }
    ensures same { IsTrue L.tells → L.bytes log.new ≡ L.bytes log.old }
    ensures tally { L.faults log.new ≡ tallied (L.faults log.old) (is_err result) }
{
    while window.len() <= MAX_LINE {
        if let Some(len) = line_len(window) {
            return Ok(Some(len));
        }
        let at = place + window.len() as u64;
        let n = window.read_more(log, at)?;
        if n == 0 {
            return Ok(None);
        }
    }
    Ok(line_len(window))
}

// Finds the end of a line of which the bytes before `from` lack a line feed. Keeps what was read behind that end.
fn skip<L: LogFile>(log: &mut L, from: u64, window: &mut Window) -> Result<Option<u64>, ReadFault>
    requires { from ≤ 2 * MAX_LOG }
    ensures found { IsTrue L.tells → IfOk result (λ end. IfSome end (λ e. (line rest : List ℕ) × (behind (L.bytes log.old) from ≡ line ++ line_feed ∷ rest) × Lacks line_feed line × (e ≡ from + length line + 1))) }
    ensures ahead { IsTrue L.tells → IfOk result (λ end. IfSome end (λ e. Buffers (L.bytes log.old) e window.new.1)) }
    ensures none { IsTrue L.tells → IfOk result (λ end. IfNone end (Lacks line_feed (behind (L.bytes log.old) from))) }
    ensures cleared { IfOk result (λ end. IfNone end (window.new.1 ≡ [])) }
    ensures err { OnErr result (window.new.1 ≡ []) }
    ensures same { IsTrue L.tells → L.bytes log.new ≡ L.bytes log.old }
    ensures tally { L.faults log.new ≡ tallied (L.faults log.old) (is_err result) }
{
    let mut at = from;
    window.clear();
    while at < MAX_LOG {
        let n = window.read_more(log, at)?;
        if n == 0 {
            return Ok(None);
        }
        if let Some(len) = line_len(window) {
            window.take_line(len);
            return Ok(Some(at + len as u64 + 1));
        }
        at += n as u64;
        window.clear();
    }
    Ok(None)
}

// The length of the first line that was read ahead, if its line feed is there.
fn line_len(window: &Window) -> Option<usize>
    ensures found { IfSome result (λ n. (line rest : List ℕ) × (window.now.1 ≡ line ++ line_feed ∷ rest) × Lacks line_feed line × (length line ≡ n)) }
    ensures short { IfSome result (λ n. n < SIZE) }
    ensures none { IfNone result (Lacks line_feed window.now.1) }
{
    let (line, _) = split_once(window.ahead(), b'\n')?;
    Some(line.len())
}
