// What a run leaves.
ghost use Rattle.std.specs.Prelude.{◌≡◌, None, false, true};

use air_bus::{Air, Trail};
use bus_seat::Seen;
use site_store::OpenedDisk;
use verify_pass::Journals;

/// What a run that came to rest leaves: the journals that its disks keep, read back.
#[derive(Debug, Drop)]
pub struct Outcome {
    pub journals: Journals,
}

/// The history of a run, with the plan by which packets went, and what was seen and made with each node's seat and with the
/// run's, which is the last.
#[derive(Drop)]
pub struct RunLog {
    pub air: Air,
    pub seen: Vec<Seen>,
    /// What the disks kept when they were opened, in the order of their names, but for the topology's. It has no bytes.
    pub opened: Trail<OpenedDisk>,
}

/// What the last run left: nothing where none began.
#[derive(Drop)]
pub struct Ran {
    pub log: Option<RunLog>,
    /// Whether a run is to keep the entries of its history.
    pub is_recorded: bool,
}

impl Ran {
    /// Of no run. The next one keeps no entries.
    pub fn new() -> Ran
        ensures { result ≡ record { log = None; is_recorded = false } }
    {
        Ran {
            log: None,
            is_recorded: false,
        }
    }

    /// Of no run. The next one keeps the entries of its history.
    pub fn recorded() -> Ran
        ensures { result ≡ record { log = None; is_recorded = true } }
    {
        Ran {
            log: None,
            is_recorded: true,
        }
    }
}
