// The disks of all nodes, under their names: what whatever a stop leaves of them keeps, how they have gone on, and whose
// faults a node's are. And what a run leaves of replicas' notes and of joiners' stops.

ghost use Rattle.std.specs.Prelude.{IsTrue};
ghost use Rattle.site_run.specs.Laws.{AreHeld, AreMet, NoneStops};
ghost use Rattle.site_run.specs.Stops.{ArePlanned};

use crate::built::Parting;
use crate::nodes::{AnyNode, SystemNode};
use outside::{Disk, LogFile};
use site_node::SiteNode;

// Whatever a stop now leaves of a node's disks is what the state that it stands at keeps.
fn images<N: SiteNode>()
    ensures { (node : N) (s : N.State) → IsTrue N.tells → N.stands node s → (c : N.Contents) → N.image node c → N.keeps s c }
{}

/// Where no joiner's entries on the bus have a stop, no joiner stops in the run.
pub fn none_stops()
    ensures { NoneStops }
{
    turn_defs::laws::node_numbers();
}

/// All that is known of what the disks of a node of any kind hold.
pub fn all_held<D: Disk, L: LogFile>()
    ensures { IsTrue D.tells → IsTrue L.tells → AreHeld D.image ⟦<AnyNode<D, L> as SystemNode>⟧.places ⟦<AnyNode<D, L> as SiteNode>⟧.grown ⟦<AnyNode<D, L> as Parting<D, L>>⟧.disks_of }
{
    images::<AnyNode<D, L>>();
    site_laws::stores::read();
}

/// The stops that are left to a node are those of its disks, which keep to their plan where it does.
pub fn all_planned<D: Disk, L: LogFile>()
    ensures planned { IsTrue D.planned → IsTrue ⟦<AnyNode<D, L> as SiteNode>⟧.planned }
    ensures disks { IsTrue D.planned → ArePlanned D.stops D.made D.faults D.is_down ⟦<AnyNode<D, L> as SiteNode>⟧.stops_left ⟦<AnyNode<D, L> as SiteNode>⟧.faults ⟦<AnyNode<D, L> as SiteNode>⟧.waits ⟦<AnyNode<D, L> as Parting<D, L>>⟧.disks_of }
{}

/// All that is known of whose faults a node's are.
pub fn all_met<D: Disk, L: LogFile>()
    ensures { AreMet D.faults L.faults ⟦<AnyNode<D, L> as SiteNode>⟧ ⟦<AnyNode<D, L> as SystemNode>⟧.places ⟦<AnyNode<D, L> as Parting<D, L>>⟧.disks_of ⟦<AnyNode<D, L> as Parting<D, L>>⟧.logs_of }
{}
