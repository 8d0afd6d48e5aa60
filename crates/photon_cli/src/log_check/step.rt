// The next line of a log.
ghost use Rattle.std.specs.Prelude.{◌≡◌, ◌↔◌, ◌++◌, ◌∷◌, ◌≤◌, List, ℕ, length, take, IfOk, IsErr, IsTrue};
ghost use Rattle.photon_cli.specs.Terms.{Counts, IsNext, Keeps, Lacks, MAX_LINE, behind, line_feed};
ghost use Rattle.tail_reader.specs.declared.tail.Next.TheVariants as next;
ghost use Rattle.photon_cli.specs.ReadLines.{SoFar, IsStep};

use event_id::EventId;
use log_records::{LogCheck, MAX_LINE, Record, Seen, Why};
use outside::{LogFile, ReadFault};
use tail_reader::{Next, Tail};

/// What the next line of a log came to.
#[derive(Clone, Copy, Debug, PartialEq, Eq)]
pub enum Step {
    /// It is a record's, with this id.
    Line(EventId),
    /// No line ends behind the lines read, but perhaps from place `MAX_LOG` on.
    End,
    /// It is refused.
    Wrong(Why),
}

/// Reads and checks the next line.
pub fn next_step<K: Record, L: LogFile>(
    check: &mut LogCheck<K>,
    tail: &mut Tail<L>,
) -> Result<Step, ReadFault>
    ensures step { IsTrue L.tells → IfOk result (λ step. (rs : List K) → SoFar K.spelled K.is_record K.own_id (L.bytes tail.old.log) tail.old.place rs → Keeps K.spelled K.own_id check.old.places rs
        → IsStep K.spelled K.is_record K.own_id K.whys (L.bytes tail.old.log) tail.new.place check.new.places rs step) }
    ensures same { IsTrue L.tells → L.bytes tail.new.log ≡ L.bytes tail.old.log }
    ensures count { Counts (L.faults tail.old.log) (L.faults tail.new.log) (IsErr result) }
{
    K::long_lines();
    match tail.next() {
        Err(fault) => Err(fault),
        Ok(Next::End { .. }) => Ok(Step::End),
        Ok(Next::Long { .. }) => Ok(Step::Wrong(Why::TooLong)),
        Ok(Next::Line { place, end }) => line_step(check, tail, place, end),
    }
}

// Checks the line that was read.
fn line_step<K: Record, L: LogFile>(
    check: &mut LogCheck<K>,
    tail: &mut Tail<L>,
    place: u64,
    end: u64,
) -> Result<Step, ReadFault>
    ensures step { IsTrue L.tells → IfOk result (λ step. (rs : List K) → IsNext (L.bytes tail.old.log) place (next.Line place end) tail.old.window.0
        → SoFar K.spelled K.is_record K.own_id (L.bytes tail.old.log) place rs → Keeps K.spelled K.own_id check.old.places rs → tail.old.place ≡ end
        → IsStep K.spelled K.is_record K.own_id K.whys (L.bytes tail.old.log) tail.new.place check.new.places rs step) }
    ensures same { IsTrue L.tells → L.bytes tail.new.log ≡ L.bytes tail.old.log }
    ensures count { Counts (L.faults tail.old.log) (L.faults tail.new.log) (IsErr result) }
{
    let (id, seen) = match check.see(place, tail.line()) {
        Ok(seen) => seen,
        Err(why) => return Ok(Step::Wrong(why)),
    };
    match seen {
        Seen::New => Ok(Step::Line(id)),
        Seen::Again(first) => {
            let same = is_as_first(tail, first, end)?;
            if same {
                Ok(Step::Line(id))
            } else {
                Ok(Step::Wrong(Why::Conflict))
            }
        }
    }
}

// Whether the line that was read last is that which begins at `first`. Afterwards the next line is read at `end`.
fn is_as_first<L: LogFile>(tail: &mut Tail<L>, first: u64, end: u64) -> Result<bool, ReadFault>
    ensures same_line { IsTrue L.tells → IfOk result (λ same. length tail.old.window.0 ≤ MAX_LINE → (there rest : List ℕ) → behind (L.bytes tail.old.log) first ≡ there ++ line_feed ∷ rest → Lacks line_feed there
        → IsTrue same ↔ (there ≡ tail.old.window.0)) }
    ensures place { tail.new.place ≡ end }
    ensures same { IsTrue L.tells → L.bytes tail.new.log ≡ L.bytes tail.old.log }
    ensures count { Counts (L.faults tail.old.log) (L.faults tail.new.log) (IsErr result) }
{
    let mut kept = [0; MAX_LINE];
    let len = copy_line(tail.line(), &mut kept);
    let same = is_line_at(tail, first, &kept[..len]);
    tail.seek(end);
    same
}

// Copies a line, or the front of one that is too long, and answers how many bytes.
fn copy_line(line: &[u8], kept: &mut [u8; MAX_LINE]) -> usize
    ensures fits { result ≤ MAX_LINE }
    ensures bytes { length line.now ≤ MAX_LINE → take result kept.new ≡ line.now }
{
    let len = line.len().min(MAX_LINE);
    kept[..len].copy_from_slice(&line[..len]);
    len
}

// Whether the line that begins at the place is this one.
fn is_line_at<L: LogFile>(tail: &mut Tail<L>, place: u64, line: &[u8]) -> Result<bool, ReadFault>
    ensures same_line { IsTrue L.tells → IfOk result (λ same. (there rest : List ℕ) → length line.now ≤ MAX_LINE → behind (L.bytes tail.old.log) place ≡ there ++ line_feed ∷ rest → Lacks line_feed there
        → IsTrue same ↔ (there ≡ line.now)) }
    ensures same { IsTrue L.tells → L.bytes tail.new.log ≡ L.bytes tail.old.log }
    ensures count { Counts (L.faults tail.old.log) (L.faults tail.new.log) (IsErr result) }
{
    tail.seek(place);
    match tail.next() {
        Err(fault) => Err(fault),
        Ok(Next::Line { .. }) => Ok(tail.line() == line),
        Ok(Next::Long { .. }) => Ok(false),
        Ok(Next::End { .. }) => Ok(false),
    }
}
