//! Laws over these logs.
ghost use Rattle.std.specs.Prelude.{◌≡◌, ◌≤◌, ◌*◌, ◌^◌, ℕ, length};
ghost use Rattle.log_records.specs.Report.{totals};
ghost use Rattle.log_records.specs.Log.{HoldsQueries, HoldsClicks};
ghost use Rattle.bulk_logs.specs.Bulk.{queries, clicks, query_log, click_log, lines, kinds, kinds_made, totals_made};

/// Up to 100,000 clicks, both logs are valid: each line is in the grammar, and no two lines of a log have one id.
pub fn valid_logs()
    ensures queries { (seed n : ℕ) → n ≤ 100000 → HoldsQueries (query_log seed n) (queries seed n) }
    ensures clicks { (seed n : ℕ) → n ≤ 100000 → HoldsClicks (click_log seed n) (clicks seed n) }
{}

/// What a log needs at most: 37 bytes a query, 62 a click.
pub fn sizes()
    ensures queries { (seed n : ℕ) → n ≤ 2 ^ 32 → length (query_log seed n) ≤ 37 * n }
    ensures clicks { (seed n : ℕ) → n ≤ 2 ^ 32 → length (click_log seed n) ≤ 62 * n }
{}

/// Up to 100,000 clicks, how many lines of each kind their report has doesn't depend on the seed.
pub fn report_kinds()
    ensures kinds { (seed n : ℕ) → n ≤ 100000 → kinds (lines seed n) ≡ kinds_made n }
    ensures totals { (seed n : ℕ) → n ≤ 100000 → totals (lines seed n) ≡ totals_made n }
{}
