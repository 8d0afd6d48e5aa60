// The names of the disks, in the order in which they are opened.
ghost use Rattle.std.specs.Prelude.{◌≡◌, ◌<◌, ◌++◌, ℕ, IfOk, OnOk};
ghost use Rattle.site_store.specs.Terms.{DiskName, values_from};
ghost use Rattle.site_store.specs.Refusals.{other_names};

use outside::DiskName;
use std::alloc::{AllocError, Global};

const SITES: [DiskName; 6] = [
    DiskName::Offset(0),
    DiskName::Offset(1),
    DiskName::Retry(0),
    DiskName::Retry(1),
    DiskName::Server(0),
    DiskName::Server(1),
];

// Puts the names of so many numbers, from 0 on, behind the others.
fn put_each<F: Fn(u8) -> DiskName>(
    names: &mut Vec<DiskName>,
    count: u8,
    named: F,
) -> Result<(), AllocError>
    requires { F.IsAlwaysCallable named }
    ensures { OnOk result ((f : ℕ → DiskName) → ((n : ℕ) → n < 256 → (name : DiskName) → F.post named n name → name ≡ f n) → names.new.items ≡ names.old.items ++ values_from f 0 count) }
{
    for number in 0..count {
        names.push(named(number))?;
    }
    Ok(())
}

/// The names of all disks but the topology's, with so many joiners a site and so many replicas.
pub(crate) fn names_of(
    alloc: Global,
    joiners: u8,
    replicas: u8,
) -> Result<Vec<DiskName>, AllocError>
    ensures { IfOk result (λ names. names.items ≡ other_names joiners replicas) }
{
    let mut names = Vec::new(alloc);
    names.extend_from_slice(&SITES)?;
    put_each(&mut names, replicas, |replica| DiskName::Replica(replica))?;
    put_each(&mut names, joiners, |joiner| DiskName::Epoch(0, joiner))?;
    put_each(&mut names, joiners, |joiner| DiskName::Epoch(1, joiner))?;
    put_each(&mut names, joiners, |joiner| DiskName::Output(0, joiner))?;
    put_each(&mut names, joiners, |joiner| DiskName::Output(1, joiner))?;
    Ok(names)
}
