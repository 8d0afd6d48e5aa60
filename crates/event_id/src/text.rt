// The text of an id, `a.b.c.d:pid:micros`, in decimal without leading zeros.
ghost use Rattle.std.specs.Prelude.{◌≡◌, ◌≤◌, ◌<◌, ◌^◌, ◌+◌, ◌*◌, ℕ, List, [], length, take, ◌∷◌, ◌++◌, IfSome, IfNone, IfOk, IsSomeAnd, decimal};
ghost use Rattle.std.specs.Char.{IsAsciiDigit};
ghost use Rattle.std.specs.Option.{SomeIff};
ghost use Rattle.event_id.specs.Numeral.{BeginsWithNoDigit};
ghost use Rattle.event_id.specs.EventId.{colon, dotted, spell, IsId};

use crate::EventId;
use itoa::Buffer;
use std::alloc::{AllocError, Global};

/// The length of the longest text, in bytes.
pub const MAX_TEXT: usize = 47;

impl EventId {
    /// The text of the id, in one allocation.
    pub fn to_text(self, alloc: Global) -> Result<Vec<u8>, AllocError>
        ensures { IfOk result (λ text. text.items ≡ spell self) }
    {
        let mut buf = [0; MAX_TEXT];
        let len = self.text_into(&mut buf);
        Vec::from_slice(alloc, &buf[..len])
    }

    /// Writes the text of the id at the front of `buf`, and answers its length. Nothing is allocated.
    #[tactic(auto, using(crate::proofs::Spelling::octet_short, crate::proofs::Spelling::pid_short, crate::proofs::Spelling::micros_short))]
    pub fn text_into(self, buf: &mut [u8; MAX_TEXT]) -> usize
        ensures len { result ≡ length (spell self) }
        ensures text { take result buf.new ≡ spell self }
    {
        let [a, b, c, d] = self.ip.to_be_bytes();
        let at = put(buf, 0, u64::from(a), b'.');
        let at = put(buf, at, u64::from(b), b'.');
        let at = put(buf, at, u64::from(c), b'.');
        let at = put(buf, at, u64::from(d), b':');
        let at = put(buf, at, u64::from(self.pid), b':');
        put_number(buf, at, self.micros)
    }
}

/// The bytes are no id's text.
#[derive(Clone, Copy, Debug, PartialEq, Eq)]
pub struct BadId;

/// Reads the text of an id, all of the bytes: `a.b.c.d:pid:micros`, in decimal without leading zeros.
///
/// One pass: each byte of the text is looked at once, a separator where the digits before it stop; nothing is allocated.
/// It stops at the first byte that is neither a digit nor the separator due, at the end of a number beyond its range, and
/// at the digit that takes a number beyond 64 bits.
pub fn parse(text: &[u8]) -> Result<EventId, BadId>
    // What is read is spelled so.
    ensures found { IfOk result (λ id. IsId id × (text.now ≡ spell id)) }
    // What is spelled so is read.
    ensures only { (id : _) → IsId id → text.now ≡ spell id → result ≡ Ok id }
{
    fields(text).ok_or(BadId)
}

#[tactic(auto, using(crate::proofs::Spelling::after_address, crate::proofs::Spelling::spell_is, crate::proofs::Numerals::none_is_some, crate::proofs::Spelling::spell_joins, crate::proofs::Spelling::same_id, std::proofs::lemmas::Option::same_Some))]
fn fields(text: &[u8]) -> Option<EventId>
    ensures found { IfSome result (λ id. IsId id × (text.now ≡ spell id)) }
    ensures only { (id : _) → IsId id → text.now ≡ spell id → result ≡ Some id }
{
    let (ip, rest) = take_address(text)?;
    let (pid, rest) = take_part(rest, u64::from(u32::MAX), b':')?;
    Some(EventId {
        ip,
        pid: pid as u32,
        micros: last_number(rest, u64::MAX)?,
    })
}

// The address that the text begins with, and what stands behind its colon.
#[tactic(auto, using(crate::proofs::Spelling::behind_first, crate::proofs::Spelling::address_is, crate::proofs::Spelling::behind_second, crate::proofs::Spelling::behind_third, crate::proofs::Spelling::address_joins, crate::proofs::Spelling::address_of))]
fn take_address(text: &[u8]) -> Option<(u32, &[u8])>
    ensures found { IfSome result (λ taken. (taken.0 < 2 ^ 32) × (text.now ≡ dotted taken.0 ++ colon ∷ taken.1.now)) }
    ensures only { (ip : ℕ) (rest : List ℕ) → ip < 2 ^ 32 → text.now ≡ dotted ip ++ colon ∷ rest
        → IsSomeAnd result (λ taken. (taken.0 ≡ ip) × (taken.1.now ≡ rest)) }
{
    let (a, rest) = take_octet(text, b'.')?;
    let (b, rest) = take_octet(rest, b'.')?;
    let (c, rest) = take_octet(rest, b'.')?;
    let (d, rest) = take_octet(rest, b':')?;
    Some((u32::from_be_bytes([a, b, c, d]), rest))
}

fn take_octet(text: &[u8], after: u8) -> Option<(u8, &[u8])>
    requires { IsAsciiDigit after → ⊥ }
    ensures found { IfSome result (λ taken. (taken.0 < 256) × (text.now ≡ decimal taken.0 ++ after ∷ taken.1.now)) }
    ensures only { (n : ℕ) (rest : List ℕ) → n < 256 → text.now ≡ decimal n ++ after ∷ rest
        → IsSomeAnd result (λ taken. (taken.0 ≡ n) × (taken.1.now ≡ rest)) }
{
    let (octet, rest) = take_part(text, 255, after)?;
    Some((octet as u8, rest))
}

// The number that the text begins with, and what stands behind the separator after it.
fn take_part(text: &[u8], limit: u64, after: u8) -> Option<(u64, &[u8])>
    requires { IsAsciiDigit after → ⊥ }
    ensures found { IfSome result (λ taken. (taken.0 ≤ limit) × (text.now ≡ decimal taken.0 ++ after ∷ taken.1.now)) }
    ensures only { (n : ℕ) (rest : List ℕ) → n ≤ limit → text.now ≡ decimal n ++ after ∷ rest
        → IsSomeAnd result (λ taken. (taken.0 ≡ n) × (taken.1.now ≡ rest)) }
{
    let (number, rest) = take_number(text, limit)?;
    match rest {
        [byte, rest @ ..] if *byte == after => Some((number, rest)),
        _ => None,
    }
}

// The number that is all of the text.
fn last_number(text: &[u8], limit: u64) -> Option<u64>
    ensures found { IfSome result (λ n. (n ≤ limit) × (text.now ≡ decimal n)) }
    ensures only { (n : ℕ) → n ≤ limit → text.now ≡ decimal n → result ≡ Some n }
{
    match take_number(text, limit)? {
        (number, []) => Some(number),
        _ => None,
    }
}

// The number that the text begins with, in decimal without a sign or leading zeros, and what stands behind it. Behind
// a zero more digits may stand.
#[tactic(auto, using(crate::proofs::Numerals::no_number, crate::proofs::Numerals::number_begins))]
fn take_number(text: &[u8], limit: u64) -> Option<(u64, &[u8])>
    ensures found { IfSome result (λ taken. (taken.0 ≤ limit) × (text.now ≡ decimal taken.0 ++ taken.1.now)) }
    ensures only { (n : ℕ) (rest : List ℕ) → n ≤ limit → BeginsWithNoDigit rest → text.now ≡ decimal n ++ rest
        → IsSomeAnd result (λ taken. (taken.0 ≡ n) × (taken.1.now ≡ rest)) }
{
    let (first, rest) = take_digit(text)?;
    if first == 0 {
        return Some((0, rest));
    }
    take_digits(first, rest, limit)
}

// The number that goes on from these first digits with those that the text begins with, and what stands behind them.
fn take_digits(front: u64, text: &[u8], limit: u64) -> Option<(u64, &[u8])>
    requires { 0 < front }
    ensures found { IfSome result (λ taken. (taken.0 ≤ limit) × (decimal front ++ text.now ≡ decimal taken.0 ++ taken.1.now)) }
    ensures only { (n : ℕ) (rest : List ℕ) → n ≤ limit → BeginsWithNoDigit rest → decimal front ++ text.now ≡ decimal n ++ rest
        → IsSomeAnd result (λ taken. (taken.0 ≡ n) × (taken.1.now ≡ rest)) }
{
    let mut number = front;
    let mut rest = text;
    while let Some((digit, behind)) = take_digit(rest) {
        number = with_digit(number, digit)?;
        rest = behind;
    }
    if number <= limit {
        Some((number, rest))
    } else {
        None
    }
}

// The number with one more digit, unless it exceeds 64 bits.
fn with_digit(number: u64, digit: u64) -> Option<u64>
    ensures { SomeIff result (number * 10 + digit < 2 ^ 64) (number * 10 + digit) }
{
    number.checked_mul(10)?.checked_add(digit)
}

// The value of the digit that the text begins with, and what stands behind it.
fn take_digit(text: &[u8]) -> Option<(u64, &[u8])>
    ensures found { IfSome result (λ taken. (taken.0 < 10) × (text.now ≡ (48 + taken.0) ∷ taken.1.now)) }
    ensures none { IfNone result (BeginsWithNoDigit text.now) }
{
    match text {
        [byte @ b'0'..=b'9', rest @ ..] => Some((u64::from(byte - b'0'), rest)),
        _ => None,
    }
}

// Writes the number in decimal from `at` on, and the byte behind it. Answers the place after that.
fn put(buf: &mut [u8], at: usize, n: u64, after: u8) -> usize
    requires { at + length (decimal n) < length buf.old }
    ensures end { result ≡ at + length (decimal n) + 1 }
    ensures text { take result buf.new ≡ take at buf.old ++ (decimal n ++ after ∷ []) }
{
    let end = put_number(buf, at, n);
    buf[end] = after;
    end + 1
}

fn put_number(buf: &mut [u8], at: usize, n: u64) -> usize
    requires { at + length (decimal n) ≤ length buf.old }
    ensures end { result ≡ at + length (decimal n) }
    ensures text { take result buf.new ≡ take at buf.old ++ decimal n }
{
    let mut digits = Buffer::new();
    let digits = digits.format(n).as_bytes();
    let end = at + digits.len();
    buf[at..end].copy_from_slice(digits);
    end
}
