// What is told of the faults of nodes.
ghost use Rattle.std.specs.Prelude.{◌≡◌, ◌<◌};
ghost use Rattle.site_run.specs.Causes.{of_node, log_of, disk_of};

use crate::built::{joiner_place, server_disk};
use crate::{Config, LogName, RunFault, StorePlace};
use outside::DiskName;
use site_node::{NodeDisk, NodeFault};

// The log that a node reads.
fn log_read(number: u8) -> LogName
    ensures { result ≡ log_of number }
{
    if number < 2 {
        LogName::Clicks
    } else {
        LogName::Queries
    }
}

// The name of one of a node's disks.
fn disk_named(config: &Config, number: u8, disk: NodeDisk) -> DiskName
    ensures { result ≡ disk_of config.now number disk }
{
    if number < 2 {
        return match disk {
            NodeDisk::First => DiskName::Offset(number),
            NodeDisk::Second => DiskName::Retry(number),
        };
    }
    if number < 4 {
        return server_disk(number);
    }
    if u16::from(number) < 4 + u16::from(config.replicas) {
        return DiskName::Replica(number.saturating_sub(4));
    }
    let (site, joiner) = joiner_place(config, number);
    match disk {
        NodeDisk::First => DiskName::Epoch(site, joiner),
        NodeDisk::Second => DiskName::Output(site, joiner),
    }
}

// What is told of a node's fault, by its number.
pub(crate) fn fault_of_node(config: &Config, number: u8, fault: NodeFault) -> RunFault
    ensures { result ≡ of_node config.now number fault }
{
    match fault {
        NodeFault::Stopped => RunFault::Store(StorePlace::Node(u16::from(number))),
        NodeFault::Disk(disk) => RunFault::Store(StorePlace::Disk(disk_named(
            config, number, disk,
        ))),
        NodeFault::Damaged { disk, at } => RunFault::Damaged {
            disk: disk_named(config, number, disk),
            at,
        },
        NodeFault::Read => RunFault::Read(log_read(number)),
        NodeFault::Spent(epoch) => RunFault::Limit {
            disk: disk_named(config, number, NodeDisk::First),
            value: u64::from(epoch),
        },
        NodeFault::Memory => RunFault::Memory,
    }
}
