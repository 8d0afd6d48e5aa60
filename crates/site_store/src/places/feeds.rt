// The last line feed before a place of a log.
ghost use Rattle.std.specs.Prelude.{◌≡◌, ◌≤◌, ◌<◌, ◌+◌, ◌^◌, ℕ, List, length, drop, take, IfOk, IsErr, IsTrue};
ghost use Rattle.site_store.specs.Terms.{Counts};
ghost use Rattle.site_store.specs.Floors.{IsFloorOf, IsFloorFrom, IsBehindFeed};

use memchr::memrchr;
use outside::{LogFile, ReadFault};

/// How many bytes are read at once. A whole line with its line feed is shorter.
const BLOCK: usize = 512;

// The place behind the last line feed, or 0 where there is none.
#[tactic(auto, using(crate::proofs::Stretches::floor_of_last, crate::proofs::Stretches::floor_of_none))]
fn behind_last(bytes: &[u8]) -> usize
    ensures { IsFloorOf (IsBehindFeed bytes.now) (length bytes.now) result }
{
    match memrchr(b'\n', bytes) {
        Some(at) => at + 1,
        None => 0,
    }
}

// The floor of the place behind some bytes, from that of the place before them.
fn floor_behind(bytes: &[u8], at: u64, floor: u64) -> u64
    requires { at + length bytes.now < 2 ^ 64 }
    ensures { (log : List ℕ) (least : ℕ) → take (length bytes.now) (drop at log) ≡ bytes.now → IsFloorFrom (IsBehindFeed log) least at floor
        → IsFloorFrom (IsBehindFeed log) least (at + length bytes.now) result }
{
    let behind = behind_last(bytes);
    if behind == 0 {
        return floor;
    }
    at + behind as u64
}

// The place behind the last line feed from one place to another, or the first place where there is none. It reads the bytes
// between them once.
fn floor_from<L: LogFile>(log: &mut L, from: u64, to: u64) -> Result<u64, ReadFault>
    requires { from ≤ to }
    ensures floor { IsTrue L.tells → IfOk result (IsFloorFrom (IsBehindFeed (L.bytes log.old)) from to) }
    ensures same { IsTrue L.tells → L.bytes log.new ≡ L.bytes log.old }
    ensures count { Counts (L.faults log.old) (L.faults log.new) (IsErr result) }
{
    let mut block = [0; BLOCK];
    let mut floor = from;
    let mut at = from;
    while at < to {
        let room = (to - at).min(BLOCK as u64) as usize;
        let n = log.read_at(at, &mut block[..room])?;
        if n == 0 {
            return Ok(floor);
        }
        floor = floor_behind(&block[..n], at, floor);
        at += n as u64;
    }
    Ok(floor)
}

/// The greatest place up to `at` that is behind a line feed, or 0 where there is none. It reads blocks of 512 bytes backwards,
/// and within whole lines one of them.
pub(crate) fn floor_below<L: LogFile>(log: &mut L, at: u64) -> Result<u64, ReadFault>
    ensures floor { IsTrue L.tells → IfOk result (IsFloorOf (IsBehindFeed (L.bytes log.old)) at) }
    ensures same { IsTrue L.tells → L.bytes log.new ≡ L.bytes log.old }
    ensures count { Counts (L.faults log.old) (L.faults log.new) (IsErr result) }
{
    let mut to = at;
    while to > 0 {
        let from = to.saturating_sub(BLOCK as u64);
        let floor = floor_from(log, from, to)?;
        if floor > from {
            return Ok(floor);
        }
        to = from;
    }
    Ok(0)
}
