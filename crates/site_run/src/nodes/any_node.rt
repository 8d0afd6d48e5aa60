// A node of the system, whatever its kind.
ghost use Rattle.site_run.specs.AnyNodes.{AnyState, GoesOn};

use dispatch_node::DispatchNode;
use joiner_node::JoinerNode;
use outside::{Disk, LogFile};
use registry_server::ServerNode;
use replica_node::ReplicaNode;
use site_node::SiteNode;
use site_workers::OneOf;

/// A node of any of the four kinds.
pub type AnyNode<D, L> = OneOf<DispatchNode<D, L>, ServerNode<D>, ReplicaNode<D>, JoinerNode<L, D>>;

/// A kind of node that stands at states of nodes of the system.
pub trait SystemNode: SiteNode {
    /// Whether it stands at the state.
    ghost places: { Self → AnyState → Type 0 };

    /// What leads it on leads a node of the system on, and it says of its rest, and of its last epoch, what that node says.
    ghost walks: { (v : Self) (u : AnyState) → places v u → GoesOn Self.leads Self.phase_of Self.stands Self.at_rest_as Self.spends places v u };
}

impl<D: Disk, L: LogFile> SystemNode for AnyNode<D, L> {
    ghost use Rattle.std.proofs.Common.{refl};
    ghost use Rattle.site_run.specs.Spending.{at_last};

    ghost places = { ⟦<AnyNode<D, L> as SiteNode>⟧.stands };

    ghost walks = { λ v u at. record {
      from = u;
      at = at;
      led = record { phased = refl; placed = λ w h. h; rested = λ b r. r; spent = λ s n i epoch led is. at_last s n i u epoch led is };
      on = λ es t p. (t, p, record { phased = refl; placed = λ w h. h; rested = λ b r. r; spent = λ s n i epoch led is. at_last s n i t epoch led is });
    } };
}
