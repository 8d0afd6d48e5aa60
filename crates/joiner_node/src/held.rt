// What a joiner is told of its disks.
ghost use Rattle.std.specs.Prelude.{◌≤◌};
ghost use Rattle.joiner_node.specs.Terms.{LAST_EPOCH};

/// The epoch on a disk.
#[derive(Clone, Copy)]
pub struct HeldEpoch {
    pub(crate) epoch: u32,
    ghost limit: { epoch ≤ LAST_EPOCH },
}
