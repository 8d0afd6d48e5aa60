//! The history of a run: the list that contracts see, and the little that is kept of it.
ghost use Rattle.std.specs.Prelude.{◌≡◌, ℕ, ◌<◌, ◌^◌, [], ◌∷◌, ◌++◌, ◌||◌, length, IfSome, IsSomeAnd};
ghost use Rattle.std.specs.List.{list_any};
ghost use Rattle.air_bus.specs.Kept.{is_stop_from, reaches};

use crate::entry::Entry;
use crate::trail::Trail;
use std::marker::Model;

/// The entries so far, of which contracts see the list.
#[derive(Drop)]
pub(crate) struct History {
    told: Trail<Entry>,
    count: usize,
    // The highest number of a node that stopped.
    highest_stop: Option<u16>,
    // The entries themselves, where a record of them is kept and each found room.
    entries: Option<Vec<Entry>>,
}

impl Model for History {
    ghost use Rattle.std.specs.Prelude.{List, option_map};
    ghost use Rattle.air_bus.specs.declared.entry.Entry.{Entry};
    ghost use Rattle.air_bus.specs.Kept.{IsKept};

    ghost Value = { List Entry };

    ghost view = { λ h. h.told };

    ghost invariant = { λ h. IsKept h.told h.count h.highest_stop (option_map (λ r. r.items) h.entries) };
}

impl History {
    /// No entry yet. Those that come go into the list, if there is one.
    pub(crate) fn new(entries: Option<Vec<Entry>>) -> History
        requires { IfSome entries (λ r. r.items ≡ []) }
        ensures { result ≡ [] }
    {
        History {
            told: Trail::new(),
            count: 0,
            highest_stop: None,
            entries,
        }
    }

    pub(crate) fn len(&self) -> usize
        ensures { result ≡ length self.now }
    {
        self.count
    }

    pub(crate) fn has_stop_from(&self, first: u16) -> bool
        ensures { result ≡ list_any (is_stop_from first) self.now }
    {
        match self.highest_stop {
            Some(node) => first <= node,
            None => false,
        }
    }

    pub(crate) fn record(&self) -> Option<&[Entry]>
        ensures { IfSome result (λ r. r.now ≡ self.now) }
    {
        match &self.entries {
            Some(entries) => Some(entries),
            None => None,
        }
    }

    /// One entry more. It takes memory only where a record is kept, which is given up where there is none.
    pub(crate) fn add(&mut self, entry: Entry)
        requires { length self.old < 2 ^ 63 }
        ensures { self.new ≡ self.old ++ entry ∷ [] }
    {
        self.told.tell(&entry);
        self.count += 1;
        self.highest_stop = highest_stop(self.highest_stop, &entry);
        self.entries = record_with(self.entries.take(), entry);
    }
}

// The highest number of a node that stopped, with one entry more.
fn highest_stop(before: Option<u16>, entry: &Entry) -> Option<u16>
    ensures { (first : ℕ) → reaches first result ≡ (reaches first before || is_stop_from first entry.now) }
{
    match (before, entry) {
        (Some(highest), Entry::Stop { node, .. }) => Some(highest.max(*node)),
        (None, Entry::Stop { node, .. }) => Some(*node),
        _ => before,
    }
}

// The record with the entry, if there is one and it finds room.
fn record_with(before: Option<Vec<Entry>>, entry: Entry) -> Option<Vec<Entry>>
    ensures { IfSome result (λ r. IsSomeAnd before (λ b. r.items ≡ b.items ++ entry ∷ [])) }
{
    let mut entries = before?;
    match entries.push(entry) {
        Ok(()) => Some(entries),
        Err(_) => None,
    }
}
