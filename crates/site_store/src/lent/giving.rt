// Giving disks back.
ghost use Rattle.std.specs.Prelude.{◌≡◌, ◌≤◌, ◌+◌, ℕ, List, length, IsTrue};
ghost use Rattle.site_store.specs.Terms.{DiskName, Each, Mem, Rose, Within};
ghost use Rattle.site_store.specs.Lent.{Lent, Lacks, MayBeLeft};
ghost use Rattle.site_store.specs.LentDisks.{all_lent};

use crate::lent::LentDisk;
use outside::Store;

/// Gives each disk back to the store, under its name. It takes no memory.
#[tactic(auto, using(crate::proofs::Handing::none_out))]
pub fn give_all<S: Store>(store: &mut S, disks: Vec<LentDisk<S::Disk>>)
    requires { length disks.items ≤ S.places_left store.old }
    // What a stop may leave of a disk is what it might have left of it before it was given back, or of what stood in the store.
    ensures left { IsTrue S.Disk.tells → (name : DiskName) (c : List ℕ) → S.image store.new name c → MayBeLeft S.Disk.image (S.image store.old) (all_lent disks.items) name c }
    ensures others { IsTrue S.Disk.tells → (name : DiskName) → Lacks (all_lent disks.items) name → Within (S.image store.old name) (S.image store.new name) }
    ensures places { S.places_left store.old ≤ S.places_left store.new + length disks.items }
    ensures count { S.faults store.old ≤ S.faults store.new }
    // What a disk met while it was out counts, also where nothing is told of what it holds.
    ensures rose { (d : Lent S.Disk) → Mem d (all_lent disks.items) → 1 ≤ S.Disk.faults d.disk → Rose (S.faults store.old) (S.faults store.new) }
    ensures calm { Each (λ l. S.Disk.faults l.disk ≡ 0) (all_lent disks.items) → S.faults store.new ≡ S.faults store.old }
{
    let mut disks = disks;
    while let Some(one) = disks.pop() {
        let LentDisk { name, disk } = one;
        store.give(name, disk);
    }
    disks.destroy_empty();
}
