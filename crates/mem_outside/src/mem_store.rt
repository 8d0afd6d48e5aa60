// A store of disks in memory.
ghost use Rattle.std.specs.Prelude.{◌≡◌, ◌≢◌, ◌≤◌, ◌+◌, ◌++◌, ◌∷◌, [], ℕ, List, false, IsSome, IfNone, IfOk, OnOk, if◌then◌else◌};
ghost use Rattle.outside.specs.declared.store.DiskName.{DiskName};
ghost use Rattle.mem_outside.specs.Kept.{AreCalmed, same_name, disk_of, ImageIn, fuses_for, stops_in, made_in};
ghost use Rattle.mem_outside.specs.Room.{spare};

use crate::store::{Kept, Stop};
use crate::{Fuse, MemDisk};
use outside::{Disk, DiskName, Store, StoreFault};
use std::alloc::{AllocError, Global};

/// Disks in memory, by name, with the stops that are planned for them. A look-up takes time linear in the disks that it
/// keeps, a new disk in the stops besides.
#[derive(Drop)]
pub struct MemStore {
    kept: Vec<Kept>,
    stops: Vec<Stop>,
    faults: u64,
}

impl MemStore {
    /// An empty store, with these stops. It allocates nothing.
    pub fn new(alloc: Global, stops: Vec<Stop>) -> MemStore
        ensures kept { result.kept.items ≡ [] }
        ensures stops { result.stops ≡ stops }
        ensures faults { result.faults ≡ 0 }
    {
        MemStore {
            kept: Vec::new(alloc),
            stops,
            faults: 0,
        }
    }

    /// Takes out the stops that are still planned: no later call of a disk that it keeps or makes anew fails. Linear in the disks
    /// that it keeps; it allocates nothing.
    #[tactic(auto, using(crate::proofs::Calming::calm_stops, crate::proofs::Calming::calm_images, crate::proofs::Calming::calm_made))]
    pub fn calm(&mut self)
        ensures stops { (name : DiskName) (call : ℕ) → stops_in self.new.stops.items name (disk_of self.new.kept.items name) call ≡ false }
        ensures images { (name : DiskName) (c : List ℕ) → ImageIn (disk_of self.new.kept.items name) c → ImageIn (disk_of self.old.kept.items name) c }
        ensures made { (name : DiskName) → made_in (disk_of self.new.kept.items name) ≡ made_in (disk_of self.old.kept.items name) }
        ensures places { spare self.old.kept ≤ spare self.new.kept }
        ensures faults { self.new.faults ≡ self.old.faults }
    {
        self.stops.clear();
        calm_all(&mut self.kept);
    }

    /// How many faults it has met, those of the disks given back included.
    pub fn faults(&self) -> u64
        ensures { result ≡ self.now.faults }
    {
        self.faults
    }
}

fn is_same(a: DiskName, b: DiskName) -> bool
    ensures { result ≡ same_name a b }
{
    a == b
}

// Takes the stops of each disk out.
#[tactic(auto, using(crate::proofs::Calming::first_all))]
fn calm_all(kept: &mut Vec<Kept>)
    ensures calmed { AreCalmed kept.old.items kept.new.items }
    ensures room { spare kept.old ≤ spare kept.new }
{
    for i in 0..kept.len() {
        kept[i].disk.calm();
    }
}

/// Takes the first disk of this name out of the list.
fn take_out(kept: &mut Vec<Kept>, name: DiskName) -> Option<MemDisk>
    ensures disk { result ≡ disk_of kept.old.items name }
    ensures others { (other : DiskName) → other ≢ name → disk_of kept.new.items other ≡ disk_of kept.old.items other }
    ensures room { spare kept.old ≤ spare kept.new }
    ensures none { IfNone result (kept.new.items ≡ kept.old.items) }
    ensures one_more { IsSome result → spare kept.old + 1 ≤ spare kept.new }
{
    let mut i = 0;
    while i < kept.len() {
        if is_same(kept[i].name, name) {
            return Some(kept.remove(i).disk);
        }
        i += 1;
    }
    None
}

/// The stops that are planned for a disk.
fn fuses_of(alloc: Global, stops: &[Stop], name: DiskName) -> Result<Vec<Fuse>, AllocError>
    ensures { IfOk result (λ fuses. fuses.items ≡ fuses_for stops.now name) }
{
    let mut fuses = Vec::new(alloc);
    for stop in stops {
        add_fuse(&mut fuses, stop, name)?;
    }
    Ok(fuses)
}

/// Adds a stop's fuse if the stop is planned for this disk.
fn add_fuse(fuses: &mut Vec<Fuse>, stop: &Stop, name: DiskName) -> Result<(), AllocError>
    ensures { OnOk result (fuses.new.items ≡ fuses.old.items ++ (if same_name stop.now.name name then stop.now.fuse ∷ [] else [])) }
{
    if is_same(stop.name, name) {
        fuses.push(stop.fuse)?;
    }
    Ok(())
}

impl Store for MemStore {
    type Disk = MemDisk;

    ghost image = { λ store name c. ImageIn (disk_of store.kept.items name) c };

    ghost faults = { λ store. store.faults };

    ghost stops = { λ store name n. stops_in store.stops.items name (disk_of store.kept.items name) n };

    ghost made = { λ store name. made_in (disk_of store.kept.items name) };

    ghost places_left = { λ store. spare store.kept };

    fn place(&mut self, _alloc: Global, _dir: &str) -> Result<(), StoreFault> {
        Ok(())
    }

    fn take(&mut self, alloc: Global, name: DiskName) -> Result<MemDisk, StoreFault> {
        match take_out(&mut self.kept, name) {
            Some(disk) => {
                let mut disk = disk;
                match disk.take_up() {
                    Ok(()) => Ok(disk),
                    Err(_) => {
                        self.kept.insert(0, Kept { name, disk }).unwrap();
                        Err(StoreFault::Memory)
                    }
                }
            }
            None => {
                let places = self.kept.capacity() - self.kept.len() + 1;
                self.kept.reserve(places)?;
                Ok(MemDisk::new(alloc, fuses_of(alloc, &self.stops, name)?))
            }
        }
    }

    #[tactic(auto, using(crate::proofs::Keeping::same_self))]
    fn give(&mut self, name: DiskName, disk: MemDisk) {
        self.faults = self.faults.saturating_add(disk.faults());
        self.kept.insert(0, Kept { name, disk }).unwrap();
    }
}
