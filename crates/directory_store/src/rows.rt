//! Worked rows of the names.
ghost use Rattle.std.specs.Prelude.{◌≡◌, codes};
ghost use Rattle.outside.specs.declared.store.DiskName.TheVariants.{Topology, Offset, Retry, Server, Replica, Epoch, Output};
ghost use Rattle.outside.specs.declared.store.DiskName.{DiskName};
ghost use Rattle.directory_store.specs.Names.{name_text, path_text, IsOfBytes};

/// The disks of the two sites, and one of a site beyond them.
pub fn names()
    ensures topology { name_text Topology ≡ codes "topology" }
    ensures offset { name_text (Offset 0) ≡ codes "offset-A" }
    ensures retry { name_text (Retry 1) ≡ codes "retry-B" }
    ensures server { name_text (Server 0) ≡ codes "server-A" }
    ensures replica { name_text (Replica 2) ≡ codes "replica-2" }
    ensures epoch { name_text (Epoch 0 0) ≡ codes "epoch-A0" }
    ensures output { name_text (Output 1 3) ≡ codes "output-B3" }
    ensures beyond { name_text (Output 12 3) ≡ codes "output-12-3" }
{}

/// A file in its directory.
pub fn paths()
    ensures { path_text (codes "run/state") (Retry 0) ≡ codes "run/state/retry-A" }
{}

/// No two disks have one name.
pub fn told_apart()
    ensures { (a b : DiskName) → IsOfBytes a → IsOfBytes b → name_text a ≡ name_text b → a ≡ b }
{}
