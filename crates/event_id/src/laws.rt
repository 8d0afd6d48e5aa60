//! Laws over ids and their texts.
ghost use Rattle.std.specs.Prelude.{◌≡◌, ◌≤◌, length};
ghost use Rattle.event_id.specs.declared.id.EventId.{EventId as Id};
ghost use Rattle.list_words.specs.Bytes.{Lacks};
ghost use Rattle.event_id.specs.EventId.{spell, id_cmp, IsId};

use crate::EventId;

/// No two ids have one text.
#[tactic(auto, using(crate::proofs::Spelling::spell_same))]
pub fn one_text()
    ensures { (x y : Id) → IsId x → IsId y → spell x ≡ spell y → x ≡ y }
{}

/// A text has at most 47 bytes, and no space or line feed among them.
pub fn text_bytes()
    ensures len { (x : Id) → IsId x → length (spell x) ≤ 47 }
    ensures no_space { (x : Id) → IsId x → Lacks 32 (spell x) }
    ensures no_line_feed { (x : Id) → IsId x → Lacks 10 (spell x) }
{}

/// Ids are ordered by address, then process id, then timestamp.
pub fn order()
    ensures { (x y : Id) → ⟦<EventId as Ord>⟧.cmp x y ≡ id_cmp x y }
{}
