// The topology that is kept on a disk.
ghost use Rattle.std.specs.Prelude.{◌≡◌, ◌≤◌, Option, None, Some, MatchOption, IfSome};
ghost use Rattle.std.proofs.Common.{arith, refl};
ghost use Rattle.std.proofs.Props.{props};
ghost use Rattle.gate_journal.specs.Fold.{folds_to, fails_at};
ghost use Rattle.gate_journal.specs.FoldLaws.{once};
ghost use Rattle.topology_journal.specs.declared.topology.TheConstants.{LONGEST as longest};
ghost use Rattle.topology_journal.specs.declared.topology.Topology.{Topology};
ghost use Rattle.topology_journal.specs.Topologies.{topology_record, topologies, HasJoiners, IsTopology, MayCome};
ghost use Rattle.topology_journal.specs.TopologyLaws.{coded_kept, comes_next as topology_comes_next, fits as topology_fits};

use crate::Topology;
use crate::reading::next_topology;
use crate::topology::LONGEST;
use gate_journal::{Appends, Origin, Record, RecordJournal};
use std::alloc::{AllocError, Global};

/// The topology that a disk keeps, that of its last record, or none on a new disk. A record is up to 40 bytes.
///
/// The first record is in version 1 or 2. Each later one is in version 2, and is of the topology before with a row more.
#[derive(Drop)]
pub struct Topologies {
    kept: Option<Topology>,
    ghost joiners: { IfSome kept HasJoiners } by { Prim.hlevel props },
}

/// A topology on a disk.
pub type TopologyJournal<D> = RecordJournal<D, Topologies>;

impl Topologies {
    /// The kept topology, if there is one.
    pub fn kept(&self) -> Option<&Topology>
        ensures kept { MatchOption result (self.now.kept ≡ None) (λ t. self.now.kept ≡ Some t.now) }
        ensures is_topology { IfSome result (λ t. IsTopology t.now) }
    {
        match &self.kept {
            Some(topology) => {
                let _rows = topology.table.rows();
                Some(topology)
            }
            None => None,
        }
    }
}

impl Record for Topologies {
    type One = Topology;

    ghost Kept = { Option Topology };

    ghost keeps = { folds_to topologies };

    ghost damaged = { fails_at topologies };

    ghost keeps_once = { once topologies coded_kept };

    ghost kept = { λ t. t.kept };

    ghost may_come = { MayCome };

    ghost after = { λ _ topology. Some topology };

    fn new(_: Global) -> Result<Topologies, AllocError> {
        Ok(Topologies { kept: None })
    }

    fn take(&mut self, origin: Origin, payload: &[u8]) -> Result<bool, AllocError> {
        match next_topology(origin.alloc, &self.kept, payload)? {
            Some(topology) => {
                self.kept = Some(topology);
                Ok(true)
            }
            None => Ok(false),
        }
    }

    ghost gates_first = { λ _. refl };
}

impl Appends for Topologies {
    ghost spelled = { topology_record };

    const LONGEST: u32 = LONGEST;

    ghost LONGEST = { longest };

    ghost places = { λ _. 1 };

    ghost takes_places = { λ _. 0 };

    fn reserve(&mut self) -> Result<(), AllocError> {
        Ok(())
    }

    fn put(&mut self, one: Topology) {
        self.kept = Some(one);
    }

    ghost short = { Prim.omega arith };

    ghost takes_one = { λ _. Prim.omega arith };

    ghost fits = { topology_fits };

    ghost comes_next = { topology_comes_next };
}
