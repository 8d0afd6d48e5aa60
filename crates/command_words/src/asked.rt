//! What the words ask for.
ghost use Rattle.std.specs.Prelude.{◌≡◌};

use std::alloc::AllocError;

/// What the nodes of both sites are run for. A site has so many joiners, and a batch so many inserts at most. The shards are the
/// text of a table as it was written, which is not read here.
#[derive(Clone, Copy, Debug)]
pub struct NodeOptions<'a> {
    pub joiners: u8,
    pub shards: &'a str,
    pub batch: u8,
}

/// What both sites are run for: two logs by their names. Ids whose microseconds lie below the horizon are too old.
#[derive(Clone, Copy, Debug)]
pub struct RunOptions<'a> {
    pub queries: &'a str,
    pub clicks: &'a str,
    pub horizon: u64,
    pub nodes: NodeOptions<'a>,
}

/// What a bulk run is for: logs with so many clicks, at most 100,000, that the program makes from the seed.
#[derive(Clone, Copy, Debug)]
pub struct BulkOptions<'a> {
    pub seed: u64,
    pub clicks: u32,
    pub nodes: NodeOptions<'a>,
}

/// A command with the values of its options.
#[derive(Clone, Copy, Debug)]
pub enum Asked<'a> {
    /// Join over the directory of that name.
    Join { run: RunOptions<'a>, state: &'a str },
    /// Join in a run with the losses and stops of the plan of that name.
    Drill { run: RunOptions<'a>, plan: &'a str },
    /// Check what the directory of that name keeps against the log of clicks.
    Verify { clicks: &'a str, state: &'a str },
    /// Join logs that the program makes.
    Bulk { run: BulkOptions<'a> },
    /// Put a row behind the table that the directory of that name keeps. The row's text isn't read here.
    Reshard { state: &'a str, add: &'a str },
}

/// Why the words were not read.
#[derive(Debug, Drop)]
pub enum WordsFault {
    /// The words are refused, or ask for help. Its text is for the user, on standard error.
    Refused(clap::Error),
    /// There was no memory. No clause says when.
    Memory,
}

impl From<AllocError> for WordsFault {
    ghost use Rattle.command_words.specs.declared.asked.WordsFault.TheVariants.{Memory};

    ghost from_gives = { λ _ f. f ≡ Memory };

    fn from(_error: AllocError) -> WordsFault {
        WordsFault::Memory
    }
}
