// Nodes in the making.
ghost use Rattle.std.specs.Prelude.{◌≡◌, ◌≤◌, ◌<◌, ◌*◌, vec_capacity};
ghost use Rattle.site_run.specs.Naming.{count_of};

use crate::built::taking::{take_disk, take_last};
use crate::built::{Logs, Parting, Parts, joiner_place};
use crate::nodes::{AnyNode, SystemNode};
use dispatch_node::dispatch_node;
use joiner_node::joiner_node;
use outside::{Disk, DiskName, LogFile};
use registry_server::server_node;
use replica_node::replica_node;
use site_node::SiteNode;
use site_store::OpenDisk;
use site_workers::OneOf;
use std::alloc::Global;
use std::hash::RandomState;
use turn_defs::Config;

/// The open disks and the logs of the nodes to come, and those of a node that wasn't made.
#[derive(Drop)]
pub struct Stock<D: Disk, L: LogFile> {
    pub(crate) alloc: Global,
    pub(crate) config: Config,
    pub(crate) rest: Vec<OpenDisk<D>>,
    pub(crate) logs: Logs<L>,
    pub(crate) parts: Parts<D, L>,
    pub(crate) keys: RandomState,
    ghost disk_room: { 2 * count_of config < vec_capacity parts.disks },
    ghost log_room: { count_of config ≤ vec_capacity parts.logs },
}

impl<D: Disk, L: LogFile> Stock<D, L> {
    ghost use Rattle.std.specs.Prelude.{◌≤◌, ◌<◌, ◌+◌, Some};
    ghost use Rattle.site_run.specs.Making.{AreFrom, Makes, view_of};

    // The dispatcher of a site, down, over its journals and the click log.
    fn dispatcher(&mut self, number: u8) -> Option<AnyNode<D, L>>
        requires number { number < 2 }
        requires left { AreFrom number (view_of self.old) }
        ensures { Makes ⟦<AnyNode<D, L> as SiteNode>⟧.number ⟦<AnyNode<D, L> as SiteNode>⟧.waits ⟦<AnyNode<D, L> as SystemNode>⟧.places ⟦<AnyNode<D, L> as Parting<D, L>>⟧.disks_of ⟦<AnyNode<D, L> as Parting<D, L>>⟧.logs_of
            D.tells L.bytes number (view_of self.old) result (view_of self.new) }
    {
        let offset = take_disk(&mut self.rest, DiskName::Offset(number)).into_offset();
        let retry = take_disk(&mut self.rest, DiskName::Retry(number)).into_retry();
        let log = take_last(&mut self.logs.clicks);
        match dispatch_node(self.alloc, number, self.config, offset, retry, log) {
            Ok(node) => Some(OneOf::First(node)),
            Err((offset, retry, log)) => {
                self.parts.put(DiskName::Offset(number), offset.into_disk());
                self.parts.put(DiskName::Retry(number), retry.into_disk());
                self.parts.logs.push_reserved(log);
                None
            }
        }
    }

    // The server of a site, down, over its journal.
    fn server(&mut self, number: u8) -> Option<AnyNode<D, L>>
        requires number { (2 ≤ number) × (number < 4) }
        requires left { AreFrom number (view_of self.old) }
        ensures { Makes ⟦<AnyNode<D, L> as SiteNode>⟧.number ⟦<AnyNode<D, L> as SiteNode>⟧.waits ⟦<AnyNode<D, L> as SystemNode>⟧.places ⟦<AnyNode<D, L> as Parting<D, L>>⟧.disks_of ⟦<AnyNode<D, L> as Parting<D, L>>⟧.logs_of
            D.tells L.bytes number (view_of self.old) result (view_of self.new) }
    {
        let site = number - 2;
        let journal = take_disk(&mut self.rest, DiskName::Server(site)).into_epochs();
        match server_node(self.alloc, site, self.config, journal) {
            Ok(node) => Some(OneOf::Second(node)),
            Err(journal) => {
                self.parts.put(DiskName::Server(site), journal.into_disk());
                None
            }
        }
    }

    // A replica, down, over its journal.
    fn replica(&mut self, number: u8) -> AnyNode<D, L>
        requires number { (4 ≤ number) × (number < 4 + self.old.config.replicas) }
        requires left { AreFrom number (view_of self.old) }
        ensures { Makes ⟦<AnyNode<D, L> as SiteNode>⟧.number ⟦<AnyNode<D, L> as SiteNode>⟧.waits ⟦<AnyNode<D, L> as SystemNode>⟧.places ⟦<AnyNode<D, L> as Parting<D, L>>⟧.disks_of ⟦<AnyNode<D, L> as Parting<D, L>>⟧.logs_of
            D.tells L.bytes number (view_of self.old) (Some result) (view_of self.new) }
    {
        let votes = take_disk(&mut self.rest, DiskName::Replica(number - 4)).into_votes();
        let node = replica_node(self.alloc, number - 4, self.config, votes);
        OneOf::Third(node)
    }

    // A joiner, down, over its journals and the query log.
    fn joiner(&mut self, number: u8) -> Option<AnyNode<D, L>>
        requires number { (4 + self.old.config.replicas ≤ number) × (number < count_of self.old.config) }
        requires left { AreFrom number (view_of self.old) }
        ensures { Makes ⟦<AnyNode<D, L> as SiteNode>⟧.number ⟦<AnyNode<D, L> as SiteNode>⟧.waits ⟦<AnyNode<D, L> as SystemNode>⟧.places ⟦<AnyNode<D, L> as Parting<D, L>>⟧.disks_of ⟦<AnyNode<D, L> as Parting<D, L>>⟧.logs_of
            D.tells L.bytes number (view_of self.old) result (view_of self.new) }
    {
        let (site, place) = joiner_place(&self.config, number);
        let epochs = take_disk(&mut self.rest, DiskName::Epoch(site, place)).into_epochs();
        let outputs = take_disk(&mut self.rest, DiskName::Output(site, place)).into_output();
        let log = take_last(&mut self.logs.queries);
        let (config, keys) = (self.config, self.keys);
        match joiner_node(self.alloc, site, place, config, epochs, outputs, keys, log) {
            Ok(node) => Some(OneOf::Fourth(node)),
            Err((_, epochs, outputs, log)) => {
                self.parts
                    .put(DiskName::Epoch(site, place), epochs.into_disk());
                self.parts
                    .put(DiskName::Output(site, place), outputs.into_disk());
                self.parts.logs.push_reserved(log);
                None
            }
        }
    }
}

/// A kind of node that is made, down, of what there is for its number.
pub trait Making<D: Disk, L: LogFile>: Parting<D, L> {
    ghost use Rattle.std.specs.Prelude.{◌<◌};
    ghost use Rattle.site_run.specs.Making.{AreFrom, Makes, view_of};

    /// The node of this number, where memory isn't wanting for it.
    fn make(stock: &mut Stock<D, L>, number: u8) -> Option<Self>
        requires number { number < count_of stock.old.config }
        requires left { AreFrom number (view_of stock.old) }
        ensures { Makes Self.number Self.waits Self.places Self.disks_of Self.logs_of D.tells L.bytes number (view_of stock.old) result (view_of stock.new) };
}

impl<D: Disk, L: LogFile> Making<D, L> for AnyNode<D, L> {
    fn make(stock: &mut Stock<D, L>, number: u8) -> Option<AnyNode<D, L>> {
        if number < 2 {
            stock.dispatcher(number)
        } else if number < 4 {
            stock.server(number)
        } else if u16::from(number) < 4 + u16::from(stock.config.replicas) {
            Some(stock.replica(number))
        } else {
            stock.joiner(number)
        }
    }
}
