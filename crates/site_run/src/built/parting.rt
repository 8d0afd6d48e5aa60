// Nodes are taken apart.
ghost use Rattle.std.specs.Prelude.{◌≡◌, ◌≤◌, ◌<◌, ◌+◌, ◌-◌, ◌*◌, ◌++◌, [], ◌∷◌, ℕ, List, map, length, vec_len, vec_capacity, refl};
ghost use Rattle.outside.specs.declared.store.DiskName.TheVariants as name;
ghost use Rattle.site_run.specs.Terms.{Config, Lent};
ghost use Rattle.site_run.specs.Naming.{as_lent, all_from, disks_by, joiner_of, place_of, site_of};
ghost use Rattle.site_workers.specs.FourKinds as one;

use crate::built::Parts;
use crate::nodes::{AnyNode, SystemNode};
use outside::{Disk, DiskName, LogFile};
use site_workers::OneOf;
use turn_defs::Config;

/// A kind of node that is taken apart into disks under their names, and logs.
pub trait Parting<D, L>: SystemNode {
    /// Its disks under the names that a node of this number has.
    ghost disks_of: { Config → ℕ → Self → List (Lent D) };

    /// Its logs.
    ghost logs_of: { Self → List L };

    /// Puts its disks and its logs to the others. It takes no memory.
    fn part(self, config: &Config, number: u8, parts: &mut Parts<D, L>)
        requires disk_room { length parts.old.disks.items + 2 ≤ vec_capacity parts.old.disks }
        requires log_room { length parts.old.logs.items < vec_capacity parts.old.logs }
        ensures disks { map as_lent parts.new.disks.items ≡ map as_lent parts.old.disks.items ++ disks_of config.now number self }
        ensures logs { parts.new.logs.items ≡ parts.old.logs.items ++ logs_of self }
        ensures disk_count { length parts.new.disks.items ≤ length parts.old.disks.items + 2 }
        ensures log_count { length parts.new.logs.items ≤ length parts.old.logs.items + 1 }
        ensures disk_room { vec_capacity parts.new.disks ≡ vec_capacity parts.old.disks }
        ensures log_room { vec_capacity parts.new.logs ≡ vec_capacity parts.old.logs };

    /// There are as many of its disks under their names as it has.
    ghost counted: { (config : Config) (number : ℕ) (node : Self) → length (disks_of config number node) ≡ Self.disk_count node };
}

/// The name of a server's disk, by the server's number.
pub(crate) fn server_disk(number: u8) -> DiskName
    ensures { result ≡ name.Server (number - 2) }
{
    DiskName::Server(number.saturating_sub(2))
}

/// The site of a joiner and its place there, by which its disks have their names, by the joiner's number.
pub(crate) fn joiner_place(config: &Config, number: u8) -> (u8, u8)
    ensures { result ≡ (site_of config.now number, joiner_of config.now number) }
{
    let place = number.saturating_sub(4).saturating_sub(config.replicas);
    if place < config.joiners {
        (0, place)
    } else {
        (1, place - config.joiners)
    }
}

impl<D: Disk, L: LogFile> Parting<D, L> for AnyNode<D, L> {
    ghost disks_of = { disks_by (record {
      offset = λ d. d.records.offset.journal.disk;
      retry = λ d. d.records.retry.journal.disk;
      server = λ s. s.records.journal.journal.disk;
      replica = λ r. r.records.journal.disk;
      epochs = λ j. j.records.epochs.journal.disk;
      outputs = λ j. j.records.log.disk;
    }) };

    ghost logs_of = { one.by (λ d. d.core.clicks.tail.log ∷ []) (λ s. []) (λ r. []) (λ j. j.core.queries.store.tail.log ∷ []) };

    ghost counted = { λ config number. one.counted _ _ _ _ _ _ _ _ (λ d. refl) (λ s. refl) (λ r. refl) (λ j. refl) };

    fn part(self, config: &Config, number: u8, parts: &mut Parts<D, L>) {
        match self {
            OneOf::First(node) => {
                let (offset, retry, log) = dispatch_node::into_disks(node);
                parts.put(DiskName::Offset(number), offset);
                parts.put(DiskName::Retry(number), retry);
                parts.logs.push_reserved(log);
            }
            OneOf::Second(node) => {
                parts.put(server_disk(number), registry_server::into_disk(node));
            }
            OneOf::Third(node) => parts.put(
                DiskName::Replica(number.saturating_sub(4)),
                replica_node::into_disk(node),
            ),
            OneOf::Fourth(node) => {
                let (epochs, outputs, log) = joiner_node::into_disks(node);
                let (site, joiner) = joiner_place(config, number);
                parts.put(DiskName::Epoch(site, joiner), epochs);
                parts.put(DiskName::Output(site, joiner), outputs);
                parts.logs.push_reserved(log);
            }
        }
    }
}

/// Takes nodes apart, each under the names that its kind has at its place in the list, and puts all to the parts. It takes no
/// memory: the parts have room for two disks and a log a node.
pub fn apart<D, L, N: Parting<D, L>>(
    nodes: Vec<N>,
    config: &Config,
    parts: Parts<D, L>,
) -> Parts<D, L>
    requires few { length nodes.items ≤ 255 }
    requires disk_room { length parts.disks.items + 2 * length nodes.items ≤ vec_capacity parts.disks }
    requires log_room { length parts.logs.items + length nodes.items ≤ vec_capacity parts.logs }
    ensures disks { map as_lent result.disks.items ≡ map as_lent parts.disks.items ++ all_from (N.disks_of config.now) 0 nodes.items }
    ensures logs { result.logs.items ≡ parts.logs.items ++ all_from (λ _. N.logs_of) 0 nodes.items }
    ensures disk_count { length result.disks.items ≤ length parts.disks.items + 2 * length nodes.items }
    ensures disk_room { vec_capacity result.disks ≡ vec_capacity parts.disks }
    ensures log_room { vec_capacity result.logs ≡ vec_capacity parts.logs }
{
    let mut parts = parts;
    let mut number = 0u8;
    let mut nodes = nodes.into_iter();
    while let Some(node) = nodes.next() {
        node.part(config, number, &mut parts);
        number = number.saturating_add(1);
    }
    nodes.destroy_empty();
    parts
}
