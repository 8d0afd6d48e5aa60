// Reads the rows of a table's text.
ghost use Rattle.std.specs.Prelude.{◌≡◌, ◌≤◌, ◌^◌, ◌<◌, ◌++◌, ◌∷◌, ℕ, [], ◌↔◌, IfSome, IfNone, MatchOption, decimal};
ghost use Rattle.std.specs.Bool.{OnTrue, OnFalse};
ghost use Rattle.event_id.specs.Numeral.{HasPlainFront};
ghost use Rattle.time_shards.specs.declared.ShardRow.{ShardRow as Row};
ghost use Rattle.time_shards.specs.Shards.{IsRow, BeginsTable};
ghost use Rattle.time_shards.specs.Text.{comma, row_text, HasFirst};

use crate::{MAX_ROWS, MAX_SHARDS, ShardRow};
use list_words::split_once;
use std::str;

// The row that the text begins with and that goes on with these rows, and what stands behind its comma, if one follows.
pub fn next_row<'a>(rows: &[ShardRow], text: &'a [u8]) -> Option<(ShardRow, Option<&'a [u8]>)>
    requires { BeginsTable rows.now }
    ensures goes_on { IfSome result (λ next. BeginsTable (rows.now ++ next.0 ∷ [])) }
    ensures found { IfSome result (λ next. MatchOption next.1 (text.now ≡ row_text next.0) (λ behind. text.now ≡ row_text next.0 ++ comma ∷ behind.now)) }
    ensures none { IfNone result ((row : Row) → HasFirst text.now row → BeginsTable (rows.now ++ row ∷ []) → ⊥) }
{
    let (text, behind) = cut(text);
    let row = ShardRow::read(text)?;
    if goes_on(rows, row) {
        Some((row, behind))
    } else {
        None
    }
}

// What stands before the first comma, and what stands behind it, if there is one.
fn cut(text: &[u8]) -> (&[u8], Option<&[u8]>)
    ensures whole { MatchOption result.1 (text.now ≡ result.0.now) (λ behind. text.now ≡ result.0.now ++ comma ∷ behind.now) }
    ensures first { (row : Row) → IsRow row → HasFirst text.now row → result.0.now ≡ row_text row }
{
    match split_once(text, b',') {
        Some((front, behind)) => (front, Some(behind)),
        None => (text, None),
    }
}

// Whether the row may stand behind these.
fn goes_on(rows: &[ShardRow], row: ShardRow) -> bool
    requires before { BeginsTable rows.now }
    requires row { IsRow row }
    ensures yes { OnTrue result (BeginsTable (rows.now ++ row ∷ [])) }
    ensures no { OnFalse result (BeginsTable (rows.now ++ row ∷ []) → ⊥) }
{
    match rows.last() {
        Some(last) => rows.len() < MAX_ROWS && last.start < row.start,
        None => row.start == 0,
    }
}

impl ShardRow {
    /// Reads the text of a row, all of the bytes: `start:count`, in decimal without leading zeros.
    ///
    /// Linear in the text; it allocates nothing.
    pub fn read(text: &[u8]) -> Option<ShardRow>
        ensures found { IfSome result (λ row. IsRow row × (text.now ≡ row_text row)) }
        ensures only { (row : Row) → IsRow row → text.now ≡ row_text row → result ≡ Some row }
    {
        let (start, count) = split_once(text, b':')?;
        let start = number(start, u64::MAX)?;
        let count = number(count, u64::from(MAX_SHARDS))? as u8;
        if count > 0 {
            Some(ShardRow { start, count })
        } else {
            None
        }
    }
}

// The number that the text is in decimal, without a sign or leading zeros.
fn number(text: &[u8], limit: u64) -> Option<u64>
    ensures found { IfSome result (λ n. (n ≤ limit) × (text.now ≡ decimal n)) }
    ensures only { (n : ℕ) → n ≤ limit → text.now ≡ decimal n → result ≡ Some n }
{
    if !has_plain_front(text) {
        return None;
    }
    let n: u64 = str::from_utf8(text).ok()?.parse().ok()?;
    if n <= limit { Some(n) } else { None }
}

// Whether the text begins with neither a plus sign nor a leading zero, which `u64::parse` would take.
fn has_plain_front(text: &[u8]) -> bool
    ensures plain { OnTrue result (HasPlainFront text.now) }
    ensures other { OnFalse result (HasPlainFront text.now → ⊥) }
{
    !matches!(text, [b'+', ..] | [b'0', _, ..])
}
