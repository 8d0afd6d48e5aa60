//! Worked rows of the definitions.
ghost use Rattle.event_store.specs.StoreRows.{EntriesAreCounted, LinesAreRead};

/// How many entries the index of some lines has.
pub fn entries()
    ensures { EntriesAreCounted }
{}

/// Which lines of a small log are read up to a place.
pub fn reading()
    ensures { LinesAreRead }
{}
