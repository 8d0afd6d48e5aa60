// The store of a plan.
ghost use Rattle.std.specs.Prelude.{◌≡◌, ◌≤◌, ◌++◌, ◌∷◌, [], ℕ, ◌&&◌, Some, IfOk, OnOk, if◌then◌else◌};
ghost use Rattle.photon_cli.specs.Terms.{DiskName, MOST_JOINERS, fuses_for, is_planned};
ghost use Rattle.outside.specs.Disk.{Only};
ghost use Rattle.photon_cli.specs.Planned.{named_by, place_of, is_at, is_for, fuse_of, planned_for};

use crate::drill_store::names::{disk_at, is_named};
use lossy_link::{Plan, PlanStop};
use mem_outside::{Fuse, MemStore, Stop};
use outside::Store;
use std::alloc::{AllocError, Global};
use turn_defs::MOST_JOINERS;

// No kind has more disks: those of the joiners of two sites.
const MOST_OF_A_KIND: u8 = 2 * MOST_JOINERS;

/// An empty store in memory whose disks stop as the plan says, for so many joiners a site. A stop of a disk that such a run
/// doesn't have stops none.
///
/// It takes memory for each disk that a stop names, and time linear in the plan's stops.
pub fn store_for(alloc: Global, plan: &Plan, joiners: u8) -> Result<MemStore, AllocError>
    requires { joiners ≤ MOST_JOINERS }
    ensures kept { IfOk result (λ store. store.kept.items ≡ []) }
    ensures faults { IfOk result (λ store. store.faults ≡ 0) }
    ensures stops { IfOk result (λ store. (name : DiskName) → fuses_for store.stops.items name ≡ planned_for joiners plan.now.stops name) }
    ensures images { IfOk result (λ store. (name : DiskName) → Only [] (⟦<MemStore as Store>⟧.image store name) × ⟦<MemStore as Store>⟧.image store name []) }
    ensures calls { IfOk result (λ store. (name : DiskName) (call : ℕ) → ⟦<MemStore as Store>⟧.stops store name call ≡ is_planned (planned_for joiners plan.now.stops name) call) }
    ensures made { IfOk result (λ store. (name : DiskName) → ⟦<MemStore as Store>⟧.made store name ≡ 0) }
{
    let stops = stops_for(alloc, plan.stops(), joiners)?;
    Ok(MemStore::new(alloc, stops))
}

// The stops of the disks, in the plan's order.
fn stops_for(alloc: Global, planned: &[PlanStop], joiners: u8) -> Result<Vec<Stop>, AllocError>
    requires { joiners ≤ MOST_JOINERS }
    ensures { IfOk result (λ stops. (name : DiskName) → fuses_for stops.items name ≡ planned_for joiners planned.now name) }
{
    let mut stops = Vec::new(alloc);
    for stop in planned {
        add_stop(&mut stops, stop, joiners)?;
    }
    Ok(stops)
}

// Adds a stop for each disk that the plan's stop is for.
fn add_stop(stops: &mut Vec<Stop>, stop: &PlanStop, joiners: u8) -> Result<(), AllocError>
    requires { joiners ≤ MOST_JOINERS }
    ensures { OnOk result ((name : DiskName) → fuses_for stops.new.items name ≡ fuses_for stops.old.items name ++ (if is_for joiners stop.now name then fuse_of stop.now ∷ [] else [])) }
{
    for number in 0..MOST_OF_A_KIND {
        add_disk(stops, stop, number, joiners)?;
    }
    Ok(())
}

// Adds one for the disk of this number, where the plan's stop is for it.
#[tactic(auto, using(crate::proofs::Fuses::pushed))]
fn add_disk(
    stops: &mut Vec<Stop>,
    stop: &PlanStop,
    number: u8,
    joiners: u8,
) -> Result<(), AllocError>
    requires { joiners ≤ MOST_JOINERS }
    ensures { OnOk result ((name : DiskName) → fuses_for stops.new.items name ≡ fuses_for stops.old.items name ++ (if named_by stop.now.which number && is_at stop.now.disk (Some number) (place_of joiners name) then fuse_of stop.now ∷ [] else [])) }
{
    if !is_named(stop.which, number) {
        return Ok(());
    }
    if let Some(name) = disk_at(joiners, stop.disk, number) {
        stops.push(Stop {
            name,
            fuse: fuse_of(stop),
        })?;
    }
    Ok(())
}

fn fuse_of(stop: &PlanStop) -> Fuse
    ensures { result ≡ fuse_of stop.now }
{
    Fuse {
        call: stop.call,
        image: stop.image,
    }
}
