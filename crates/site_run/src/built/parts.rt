// What nodes are made of, and the room for it.
ghost use Rattle.std.specs.Prelude.{◌≡◌, ◌<◌, ◌+◌, ◌++◌, [], ◌∷◌, map, length, vec_capacity, IfOk};
ghost use Rattle.site_run.specs.Heard.{kinds_of};
ghost use Rattle.site_run.specs.Naming.{as_lent};

use lossy_link::Kind;
use outside::DiskName;
use site_store::LentDisk;
use std::alloc::{AllocError, Global};
use std::hash::RandomState;
use std::random::RandomSource;
use turn_defs::Config;

/// Disks under their names, and logs.
#[derive(Drop)]
pub struct Parts<D, L> {
    pub disks: Vec<LentDisk<D>>,
    pub logs: Vec<L>,
}

impl<D, L> Parts<D, L> {
    // Puts a disk to the others.
    pub(crate) fn put(&mut self, name: DiskName, disk: D)
        requires { length self.old.disks.items < vec_capacity self.old.disks }
        ensures disks { map as_lent self.new.disks.items ≡ map as_lent self.old.disks.items ++ record { name = name; disk = disk } ∷ [] }
        ensures count { length self.new.disks.items ≡ length self.old.disks.items + 1 }
        ensures room { vec_capacity self.new.disks ≡ vec_capacity self.old.disks }
        ensures logs { self.new.logs.items ≡ self.old.logs.items }
        ensures log_room { vec_capacity self.new.logs ≡ vec_capacity self.old.logs }
    {
        self.disks.push_reserved(LentDisk { name, disk });
    }
}

/// The kinds of the nodes of both sites in the order of their numbers, the memory for the nodes and for what they are made of,
/// and keys for the hash of the queries that joiners keep at hand.
#[derive(Drop)]
pub struct Room<D, L, N> {
    pub(crate) kinds: Vec<Kind>,
    pub(crate) nodes: Vec<N>,
    pub(crate) parts: Parts<D, L>,
    pub(crate) keys: RandomState,
}

impl<D: Drop, L: Drop, N: Drop> Room<D, L, N> {
    ghost use Rattle.site_run.specs.Making.{IsRoomFor};

    /// Room for all nodes: two disks and a log a node, and the topology's disk. Where there are no random keys it answers as for want of
    /// memory.
    pub fn new(
        rt: &impl RandomSource,
        alloc: Global,
        config: &Config,
    ) -> Result<Room<D, L, N>, AllocError>
        ensures { IfOk result (IsRoomFor config.now) }
    {
        let Ok(keys) = RandomState::new(rt) else {
            return Err(AllocError);
        };
        let kinds = kinds(alloc, config)?;
        let count = kinds.len();
        Ok(Room {
            kinds,
            nodes: Vec::with_capacity(alloc, count)?,
            parts: Parts {
                disks: Vec::with_capacity(alloc, 2 * count + 1)?,
                logs: Vec::with_capacity(alloc, count)?,
            },
            keys,
        })
    }
}

// The kinds of all nodes in the order of their numbers.
fn kinds(alloc: Global, config: &Config) -> Result<Vec<Kind>, AllocError>
    ensures { IfOk result (λ kinds. kinds.items ≡ kinds_of config.now.joiners config.now.replicas) }
{
    let sites = [
        Kind::Dispatcher,
        Kind::Dispatcher,
        Kind::Server,
        Kind::Server,
    ];
    let first_joiner = 4 + usize::from(config.replicas);
    let mut kinds = Vec::from_array(alloc, sites)?;
    kinds.resize(first_joiner, Kind::Replica)?;
    kinds.resize(first_joiner + 2 * usize::from(config.joiners), Kind::Joiner)?;
    Ok(kinds)
}
