// The records at hand.
ghost use Rattle.std.specs.Prelude.{◌≡◌, ◌≤◌, [], List, Option, Some, IfOk, IfErr, IfSome, IsTrue};
ghost use Rattle.log_records.specs.declared.records.QueryRec.{QueryRec as Query};
ghost use Rattle.log_records.specs.Line.{IsQuery};
ghost use Rattle.event_store.specs.declared.store.LookFault.TheVariants as fault;
ghost use Rattle.event_store.specs.Found.{found};
ghost use Rattle.event_store.specs.Held.{IsCache};

use crate::LookFault;
use event_id::EventId;
use log_records::QueryRec;
use lru::LruCache;
use std::alloc::{AllocError, Global};
use std::hash::RandomState;
use std::marker::Model;
use std::num::NonZeroUsize;

// A look-up by the index is behind the one before it where its line begins so few bytes from where that one stopped reading.
const NEAR: u64 = 1_024;

/// A record that has a line, seen as the record.
#[derive(Drop)]
pub struct Kept {
    query: QueryRec,
}

impl Model for Kept {
    ghost Value = { Query };

    ghost view = { λ k. k.query };

    ghost invariant = { λ k. IsQuery k.query };
}

impl Kept {
    fn new(query: QueryRec) -> Kept
        requires { IsQuery query }
        ensures { result ≡ query }
    {
        Kept { query }
    }

    // The record once more. No byte of its text is copied.
    fn share(&self) -> Result<QueryRec, LookFault>
        ensures same { IfOk result (λ query. query ≡ self.now) }
        ensures spelled { IfOk result IsQuery }
        ensures memory { IfErr result (λ e. e ≡ fault.Memory) }
    {
        match self.query.share() {
            Ok(query) => Ok(query),
            Err(_) => Err(LookFault::Memory),
        }
    }
}

/// Records by their ids, the last used of them, and where look-ups by the index stand.
#[derive(Drop)]
pub struct Recent {
    records: LruCache<EventId, Kept, RandomState>,
    reached: u64,
}

impl Recent {
    /// None, and this is the most.
    pub(crate) fn new(alloc: Global, keys: RandomState, most: u32) -> Result<Recent, AllocError>
        requires { 1 ≤ most }
        ensures none { IfOk result (λ recent. recent.records.entries ≡ []) }
        ensures most { IfOk result (λ recent. recent.records.cap ≡ most) }
    {
        let Some(most) = NonZeroUsize::new(most as usize) else {
            unreachable!()
        };
        let records = LruCache::with_hasher(alloc, most, keys)?;
        Ok(Recent {
            records,
            reached: 0,
        })
    }

    /// Keeps the record at hand if it is the first with its id; where there is no memory for it, it isn't kept.
    ///
    /// Constant expected time. The record that was used least lately goes where there are as many as may be.
    pub(crate) fn remember(&mut self, is_first: bool, query: QueryRec)
        requires { IsQuery query }
        ensures kept { (lines : List (Option Query)) → IsCache self.old.records.entries lines → (IsTrue is_first → found lines query.id ≡ Some query) → IsCache self.new.records.entries lines }
        ensures most { self.new.records.cap ≡ self.old.records.cap }
    {
        if is_first {
            let _ = self.records.put(query.id, Kept::new(query));
        }
    }

    /// The record at hand that has the id, which becomes the last used. Constant expected time.
    pub(crate) fn recall(&mut self, id: EventId) -> Result<Option<QueryRec>, LookFault>
        ensures kept { (lines : List (Option Query)) → IsCache self.old.records.entries lines → IsCache self.new.records.entries lines }
        ensures hit { (lines : List (Option Query)) → IsCache self.old.records.entries lines → IfOk result (λ hit. IfSome hit (λ q. found lines id ≡ Some q)) }
        ensures spelled { IfOk result (λ hit. IfSome hit IsQuery) }
        ensures memory { IfErr result (λ e. e ≡ fault.Memory) }
        ensures most { self.new.records.cap ≡ self.old.records.cap }
    {
        let query = match self.records.peek(&id) {
            Some(kept) => kept.share()?,
            None => return Ok(None),
        };
        let _ = self.records.promote(&id);
        Ok(Some(query))
    }

    /// Whether a look-up by the index that found its line at the place is behind the one before it.
    pub(crate) fn is_behind(&self, place: u64) -> bool {
        self.reached.abs_diff(place) <= NEAR
    }

    /// A look-up by the index stopped reading at the place.
    pub(crate) fn reach(&mut self, place: u64)
        ensures { self.new.records ≡ self.old.records }
    {
        self.reached = place;
    }
}
