// Where the first line of each id begins.
ghost use Rattle.std.specs.Prelude.{◌≡◌, Some, false, unwrap_or, IfOk, OnOk, OnErr};
ghost use Rattle.event_id.specs.declared.id.EventId.{EventId as Id};
ghost use Rattle.log_records.specs.Seen.{is_at};
ghost use Rattle.log_records.specs.FirstPlaces.{place_at, seen_of};

use crate::Why;
use crate::kind::Record;
use event_id::EventId;
use std::alloc::{AllocError, Global};
use std::collections::BTreeMap;
use std::marker::PhantomData;

/// Whether an earlier line has a line's id.
#[derive(Clone, Copy, Debug, PartialEq, Eq)]
pub enum Seen {
    New,
    /// The first of those lines begins at this place.
    Again(u64),
}

/// The lines of a log that were seen so far, none of which is copied. It takes under 64 bytes of memory for each distinct id, in
/// blocks of under 512 bytes.
#[derive(Drop)]
pub struct LogCheck<R: Record> {
    places: BTreeMap<EventId, u64>,
    kind: PhantomData<R>,
}

impl<R: Record> LogCheck<R> {
    ghost use Rattle.std.specs.Prelude.{◌≡◌, ◌++◌, [], ◌∷◌, List, ℕ, None, length, map, IfOk, IfErr, OnErr};
    ghost use Rattle.event_id.specs.declared.id.EventId.{EventId as Id};
    ghost use Rattle.log_records.specs.Line.{OrMemory};
    ghost use Rattle.log_records.specs.Log.{whole};
    ghost use Rattle.log_records.specs.FirstPlaces.{place_at, first_place, seen_of, Keeps};

    /// No line was seen.
    pub fn new(alloc: Global) -> LogCheck<R>
        ensures { (id : Id) → place_at result.places id ≡ None }
    {
        LogCheck {
            places: BTreeMap::new(alloc),
            kind: PhantomData,
        }
    }

    /// Sees the line that begins at the place, and answers its id and whether an earlier line has it. A line that isn't in the
    /// grammar is refused, and isn't kept.
    ///
    /// One look-up, and for a new id another.
    pub fn see(&mut self, place: u64, line: &[u8]) -> Result<(EventId, Seen), Why>
        // Where the lines of some records were seen, it answers where the first of them with the id begins.
        ensures ok { IfOk result (λ seen. (r : R) × R.is_record r × (line.now ≡ R.spelled r) × (R.own_id r ≡ seen.0)
            × ((rs : List R) → Keeps R.spelled R.own_id self.old.places rs → place ≡ length (whole (map R.spelled rs))
            → (seen.1 ≡ seen_of (first_place R.spelled R.own_id 0 rs seen.0)) × Keeps R.spelled R.own_id self.new.places (rs ++ r ∷ []))) }
        ensures why { IfErr result (OrMemory (R.whys line.now)) }
        ensures same { OnErr result ((id : Id) → place_at self.new.places id ≡ place_at self.old.places id) }
    {
        let id = R::id_in(line)?;
        match keep(&mut self.places, id, place) {
            Ok(seen) => Ok((id, seen)),
            Err(_) => Err(Why::Memory),
        }
    }
}

// Keeps the place under the id if none is there.
fn keep(places: &mut BTreeMap<EventId, u64>, id: EventId, place: u64) -> Result<Seen, AllocError>
    ensures seen { IfOk result (λ seen. seen ≡ seen_of (place_at places.old id)) }
    ensures kept { OnOk result (place_at places.new id ≡ Some (unwrap_or (place_at places.old id) place)) }
    ensures others { OnOk result ((k : Id) → is_at id k ≡ false → place_at places.new k ≡ place_at places.old k) }
    ensures same { OnErr result ((k : Id) → place_at places.new k ≡ place_at places.old k) }
{
    if let Some(first) = places.get(&id) {
        return Ok(Seen::Again(*first));
    }
    places.insert(id, place)?;
    Ok(Seen::New)
}
