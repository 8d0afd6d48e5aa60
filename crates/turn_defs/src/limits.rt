// The limits that rows of the turn table cite.

/// A dispatcher's window: how many lines are in it, those in trial among them.
pub const WINDOW: usize = 64;

/// How many joins of a joiner may be in flight.
pub const MOST_FLIGHTS: usize = 32;

/// The last round and the last slot: a server that has come to it begins no other.
pub const LAST_SLOT: u64 = (1 << 48) - 1;
