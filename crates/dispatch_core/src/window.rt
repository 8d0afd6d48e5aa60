// The window of lines that were taken and are not behind the offset yet.
ghost use Rattle.std.specs.Prelude.{◌≡◌, map};
ghost use Rattle.dispatch_core.specs.Terms.{first_done, done_end, after_done, waits, mark, some_waits};
ghost use Rattle.dispatch_core.specs.Windows.{fresh_of, IsRising, IsFound};

use crate::line::FreshLine;
use std::collections::VecDeque;

// Whether the first is done.
pub(crate) fn is_first_done(fresh: &VecDeque<FreshLine>) -> bool
    ensures { result ≡ first_done (map fresh_of fresh.now.items) }
{
    match fresh.front() {
        Some(line) => line.done,
        None => false,
    }
}

// The end of the last of the leading done ones, or else `from`. Linear in their number.
pub(crate) fn end_of_done(fresh: &VecDeque<FreshLine>, from: u64) -> u64
    ensures { result ≡ done_end from (map fresh_of fresh.now.items) }
{
    let mut end = from;
    for line in fresh {
        if !line.done {
            return end;
        }
        end = line.end;
    }
    end
}

// The leading done ones leave. Linear in their number.
pub(crate) fn pass_done(fresh: &mut VecDeque<FreshLine>)
    ensures { map fresh_of fresh.new.items ≡ after_done (map fresh_of fresh.old.items) }
{
    'leaving: while is_first_done(fresh) {
        let _ = fresh.pop_front();
    }
}

// Where the line at this position stands, if any does. Logarithmic in the window.
fn find(fresh: &VecDeque<FreshLine>, position: u64) -> Result<usize, usize>
    ensures { IsFound fresh.now.items position result }
{
    fresh.binary_search_by_key(&position, |line| line.position)
}

// Whether a line that isn't done has this position. Logarithmic in the window.
#[tactic(auto, using(crate::proofs::Found::waits_at, crate::proofs::Found::lacks_waits))]
pub(crate) fn is_waiting(fresh: &VecDeque<FreshLine>, position: u64) -> bool
    ensures { IsRising (map fresh_of fresh.now.items) → result ≡ waits (map fresh_of fresh.now.items) position }
{
    match find(fresh, position) {
        Ok(index) => match fresh.get(index) {
            Some(line) => !line.done,
            None => false,
        },
        Err(_) => false,
    }
}

// The line of this position is done. Logarithmic in the window, and without memory.
#[tactic(auto, using(crate::proofs::Found::mark_at, crate::proofs::Found::lacks_mark))]
pub(crate) fn finish(fresh: &mut VecDeque<FreshLine>, position: u64)
    ensures { IsRising (map fresh_of fresh.old.items) → map fresh_of fresh.new.items ≡ mark (map fresh_of fresh.old.items) position }
{
    if let Ok(index) = find(fresh, position) {
        fresh[index].done = true;
    }
}

// Whether a line isn't done. Linear in the leading done ones.
pub(crate) fn has_waiting(fresh: &VecDeque<FreshLine>) -> bool
    ensures { result ≡ some_waits (map fresh_of fresh.now.items) }
{
    for line in fresh {
        if !line.done {
            return true;
        }
    }
    false
}
