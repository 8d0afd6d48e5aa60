// What a node is made of is taken out of the rest.
ghost use Rattle.std.specs.Prelude.{◌≡◌, ◌<◌, ◌++◌, [], ◌∷◌, map, vec_len, vec_capacity};
ghost use Rattle.site_run.specs.Terms.{Mem};
ghost use Rattle.site_run.specs.Naming.{IsTakenFrom};

use outside::{Disk, DiskName};
use site_store::OpenDisk;

/// Takes the disk of this name out of the others.
#[tactic(auto, using(crate::proofs::Making::taken_is))]
pub(crate) fn take_disk<D: Disk>(disks: &mut Vec<OpenDisk<D>>, name: DiskName) -> OpenDisk<D>
    requires there { Mem name (map (λ o. o.name) disks.old.items) }
    ensures name { result.name ≡ name }
    ensures taken { IsTakenFrom disks.old.items result disks.new.items }
{
    for i in 0..disks.len() {
        if disks[i].name() == name {
            return disks.remove(i);
        }
    }
    unreachable!()
}

/// Takes the last of some logs out.
pub(crate) fn take_last<L>(logs: &mut Vec<L>) -> L
    requires { 0 < vec_len logs.old }
    ensures items { logs.old.items ≡ logs.new.items ++ result ∷ [] }
    ensures room { vec_len logs.new < vec_capacity logs.new }
{
    let Some(log) = logs.pop() else {
        unreachable!()
    };
    log
}
