// Whole logs.
ghost use Rattle.std.specs.Prelude.{◌≡◌, ◌⊎◌, ◌+◌, ◌≤◌, ℕ, List, length, IfOk, IfErr, MatchResult};
ghost use Rattle.log_records.specs.declared.check.TheConstants.{MAX_LOG};
ghost use Rattle.log_records.specs.declared.why.Why.TheVariants as why;
ghost use Rattle.log_records.specs.declared.records.QueryRec.{QueryRec as Query};
ghost use Rattle.log_records.specs.declared.records.ClickRec.{ClickRec as Click};
ghost use Rattle.log_records.specs.Check.{IsLog, Refuses, IsQueryLog, IsClickLog, RefusesQuery, RefusesClick};

use crate::kind::Record;
use crate::seen::accept;
use crate::{ClickRec, QueryRec, Why};
use list_words::split_once;
use std::alloc::Global;
use std::collections::BTreeMap;

/// A log has at most so many bytes.
pub const MAX_LOG: u64 = 1 << 40;

/// The first line of a log that is refused.
#[derive(Clone, Copy, Debug, PartialEq, Eq)]
pub struct BadLine {
    /// Its number, from 1. Where there was no memory, that of the line that was read then.
    pub line: u64,
    /// What is wrong with it: the first that applies.
    pub why: Why,
}

/// Checks a whole query log, and counts its lines. Bytes behind the last line feed are no line yet, and no fault.
///
/// For n lines it takes O(n log n) comparisons of ids, and in memory an id and a place in the log for each distinct id. No
/// line is copied.
pub fn check_queries(alloc: Global, log: &[u8]) -> Result<u64, BadLine>
    // The log holds so many records.
    ensures found { IfOk result (λ n. (qs : List Query) × IsQueryLog log.now qs × (n ≡ length qs)) }
    // A log that holds records is counted, unless memory runs out.
    ensures only { (qs : List Query) → IsQueryLog log.now qs → MatchResult result (λ n. n ≡ length qs) (λ bad. bad.why ≡ why.Memory) }
    // What is told is the first line that is refused, and the first why that applies.
    ensures refused { IfErr result (λ bad. (bad.why ≡ why.Memory) ⊎ RefusesQuery log.now bad) }
{
    count::<QueryRec>(alloc, log)
}

/// Checks a whole click log, and counts its lines, as `check_queries` does of a query log.
pub fn check_clicks(alloc: Global, log: &[u8]) -> Result<u64, BadLine>
    ensures found { IfOk result (λ n. (cs : List Click) × IsClickLog log.now cs × (n ≡ length cs)) }
    ensures only { (cs : List Click) → IsClickLog log.now cs → MatchResult result (λ n. n ≡ length cs) (λ bad. bad.why ≡ why.Memory) }
    ensures refused { IfErr result (λ bad. (bad.why ≡ why.Memory) ⊎ RefusesClick log.now bad) }
{
    count::<ClickRec>(alloc, log)
}

fn count<R: Record>(alloc: Global, log: &[u8]) -> Result<u64, BadLine>
    ensures found { IfOk result (λ n. (rs : List R) × IsLog R.spelled R.is_record R.own_id log.now rs × (n ≡ length rs)) }
    ensures refused { IfErr result (λ bad. (bad.why ≡ why.Memory) ⊎ Refuses R.spelled R.is_record R.own_id R.whys log.now bad) }
{
    let mut seen = BTreeMap::new(alloc);
    let mut lines = 0;
    let mut rest = log;
    while let Some((line, after)) = split_once(rest, b'\n') {
        if (log.len() - after.len()) as u64 > MAX_LOG {
            return Err(bad(lines, Why::TooBig));
        }
        if let Err(why) = accept::<R>(&mut seen, line) {
            return Err(bad(lines, why));
        }
        lines += 1;
        rest = after;
    }
    if log.len() as u64 > MAX_LOG {
        return Err(bad(lines, Why::TooBig));
    }
    Ok(lines as u64)
}

// The line behind so many.
fn bad(lines: usize, why: Why) -> BadLine
    requires { lines ≤ MAX_LOG }
    ensures { result ≡ record { line = lines + 1; why = why } }
{
    BadLine {
        line: lines as u64 + 1,
        why,
    }
}
