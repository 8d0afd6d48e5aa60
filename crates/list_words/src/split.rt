// Cuts a byte string at the first of a byte: a line at its spaces, a log at its line feeds.
ghost use Rattle.std.specs.Prelude.{◌≡◌, ◌==◌, ◌++◌, ◌∷◌, ℕ, List, Contains, IfSome, IfNone, IsSomeAnd};
ghost use Rattle.std.specs.List.{before_first, after_first};
ghost use Rattle.list_words.specs.Bytes.{Lacks};

use memchr::memchr;

/// What stands before the first such byte, and what stands behind it.
///
/// One pass, as far as that byte. Nothing is copied.
pub fn split_once(text: &[u8], byte: u8) -> Option<(&[u8], &[u8])>
    // The parts are the text again, and they are those at the first such byte.
    ensures found { IfSome result (λ parts. text.now ≡ parts.0.now ++ byte ∷ parts.1.now) }
    ensures parts { IfSome result (λ parts. (parts.0.now ≡ before_first (λ b. b == byte) text.now) × (parts.1.now ≡ after_first (λ b. b == byte) text.now)) }
    // A text with such a byte is cut, and one without isn't.
    ensures only { (front rest : List ℕ) → Lacks byte front → text.now ≡ front ++ byte ∷ rest
        → IsSomeAnd result (λ parts. (parts.0.now ≡ front) × (parts.1.now ≡ rest)) }
    ensures none { IfNone result (Contains text.now byte → ⊥) }
{
    let at = memchr(byte, text)?;
    Some((&text[..at], &text[at + 1..]))
}
