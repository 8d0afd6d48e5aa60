// What a server's disk holds.
ghost use Rattle.std.specs.Prelude.{◌≤◌};
ghost use Rattle.registry_server.specs.Terms.{LAST_EPOCH};

use ballot_core::LAST_EPOCH;

/// How often a server has started, as its disk holds it and as a start notes it.
#[derive(Clone, Copy, Debug)]
pub struct HeldEpoch {
    pub(crate) epoch: u32,
    ghost limit: { epoch ≤ LAST_EPOCH },
}
