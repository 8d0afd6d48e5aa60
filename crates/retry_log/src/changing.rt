// Changes of what is pending, and their records.
ghost use Rattle.std.specs.Prelude.{◌≡◌, ◌<◌, ◌≤◌, ◌+◌, ◌++◌, [], ◌∷◌, true, false, None, Some, nat_eq, IfOk};
ghost use Rattle.indexmap.specs.IndexSet.{spare, IsUnique};
ghost use Rattle.retry_log.specs.Pending.{record_of, change_in, changed, is_among};

use indexmap::IndexSet;
use std::alloc::AllocFailed;

const PARK: u8 = 4;

const SETTLE: u8 = 5;

/// A change of what is pending.
#[derive(Clone, Copy)]
pub enum Change {
    /// A position that isn't pending is, behind the others.
    Park(u64),
    /// A pending position is no longer.
    Settle(u64),
}

/// The record of a change.
pub fn change_record(change: Change) -> [u8; 9]
    ensures { result ≡ record_of change }
{
    let (tag, position) = match change {
        Change::Park(position) => (PARK, position),
        Change::Settle(position) => (SETTLE, position),
    };
    let b = position.to_be_bytes();
    [tag, b[0], b[1], b[2], b[3], b[4], b[5], b[6], b[7]]
}

/// The change of a record, if it is one of this kind.
pub fn read_change(payload: &[u8]) -> Option<Change>
    ensures { result ≡ change_in payload.now }
{
    if payload.len() != 9 {
        return None;
    }
    let position = u64::from_be_bytes([
        payload[1], payload[2], payload[3], payload[4], payload[5], payload[6], payload[7],
        payload[8],
    ]);
    match payload[0] {
        PARK => Some(Change::Park(position)),
        SETTLE => Some(Change::Settle(position)),
        _ => None,
    }
}

/// Makes a change of what is pending, and says whether it is one.
pub fn make_change(pending: &mut IndexSet<u64>, change: Change) -> Result<bool, AllocFailed<u64>>
    ensures made { IfOk result (λ made. made ≡ true → changed pending.old.keys (Some change) ≡ Some pending.new.keys) }
    ensures no_change { IfOk result (λ made. made ≡ false → changed pending.old.keys (Some change) ≡ None) }
    ensures unique { IsUnique nat_eq pending.new }
{
    match change {
        Change::Park(position) => pending.insert(position),
        Change::Settle(position) => Ok(pending.shift_remove(&position)),
    }
}

/// Puts a position that isn't pending behind the others, where room was made for it.
pub fn put_last(pending: &mut IndexSet<u64>, position: u64)
    requires new { is_among pending.old.keys position ≡ false }
    requires place { 0 < spare pending.old }
    ensures keys { pending.new.keys ≡ pending.old.keys ++ position ∷ [] }
    ensures room { spare pending.old ≤ spare pending.new + 1 }
    ensures unique { IsUnique nat_eq pending.new }
{
    let _ = pending.insert(position);
}
