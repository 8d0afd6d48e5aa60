// The dispatcher over its disks and the click log.
ghost use Rattle.std.specs.Prelude.{◌≡◌, ◌<◌, false, IfOk, IfErr};
ghost use Rattle.dispatch_node.specs.Terms.{Ready, Setting, StandsAt, down_over};
ghost use Rattle.dispatch_node.specs.Kept.{kept_as};
ghost use Rattle.dispatch_core.specs.Places.{AreKeptPlaces, IsLogOf};

use crate::clicks::Clicks;
use crate::dispatcher::{Dispatcher, PlacesKept};
use crate::journals::Journals;
use dispatch_core::DispatchCore;
use offset_journal::OffsetJournal;
use outside::{Disk, LogFile};
use retry_log::RetryLog;
use site_node::{Core, Node, Records, SiteNode};
use std::alloc::Global;
use turn_defs::Config;

/// The dispatcher of a site over its offset journal, its retry log and the click log: down, up, or stopped in an open turn.
///
/// While it is down it has a copy of the pending positions in memory. A line of the log is read where a turn takes it. A
/// turn costs what the core's decision costs, and is linear in the bytes of its packets; it reads a block of 4 KiB for a
/// line that was not read ahead, and one for each position in trial at a Tick.
pub type DispatchNode<D, L> = Node<PlacesKept, Dispatcher<L>, Journals<D>>;

/// A dispatcher that is down, over its journals and the click log, which was checked before. It takes memory for the
/// pending positions, and hands journals and log back where there is none.
pub fn dispatch_node<D: Disk, L: LogFile>(
    alloc: Global,
    site: u8,
    config: Config,
    offset: OffsetJournal<D>,
    retry: RetryLog<D>,
    log: L,
) -> Result<DispatchNode<D, L>, (OffsetJournal<D>, RetryLog<D>, L)>
    requires site { site < 2 }
    requires joiners { 0 < config.joiners }
    requires ready { (offset.journal.state ≡ Ready) × (retry.journal.state ≡ Ready) }
    ensures number { IfOk result (λ n. n.number ≡ site) }
    ensures journals { IfOk result (λ n. (n.records.offset ≡ offset) × (n.records.retry ≡ retry)) }
    ensures log { IfOk result (λ n. n.core.clicks.tail.log ≡ log) }
    ensures up { IfOk result (λ n. ⟦<DispatchNode<D, L> as SiteNode>⟧.waits n ≡ false) }
    ensures stands { (g : Setting) → g.config ≡ config → IsLogOf (L.bytes log) g → AreKeptPlaces g (kept_as offset.value.offset retry.value.pending.keys)
        → IfOk result (λ n. StandsAt ⟦<Dispatcher<L> as Core<PlacesKept>>⟧ ⟦<Journals<D> as Records<PlacesKept, Dispatcher<L>>>⟧ n.config n.in_doubt n.core n.records (down_over g (record { number = site; disk = kept_as offset.value.offset retry.value.pending.keys }))) }
    ensures refused { IfErr result (λ back. back ≡ (offset, retry, log)) }
{
    let records = Journals {
        offset,
        retry,
        in_doubt: None,
    };
    let held = match records.held(alloc) {
        Ok(held) => held,
        Err(_) => return Err((records.offset, records.retry, log)),
    };
    let core = DispatchCore::new(alloc, site, config);
    let config = core.config();
    let clicks = Clicks::new(alloc, log);
    let dispatcher = Dispatcher { core, clicks, held };
    Ok(Node::new(alloc, u16::from(site), config, dispatcher, records))
}

/// The disks, which hold the journals, that of the offset first, and the log.
pub fn into_disks<D: Disk, L: LogFile>(node: DispatchNode<D, L>) -> (D, D, L)
    ensures offset { result.0 ≡ node.records.offset.journal.disk }
    ensures retry { result.1 ≡ node.records.retry.journal.disk }
    ensures log { result.2 ≡ node.core.clicks.tail.log }
{
    let (core, records) = node.into_parts();
    (
        records.offset.into_disk(),
        records.retry.into_disk(),
        core.clicks.into_log(),
    )
}
