// The joiner over its disks and the query log.
ghost use Rattle.std.specs.Prelude.{◌≡◌, ◌<◌, ◌+◌, ◌*◌, false, IsTrue, IfOk, IfErr};
ghost use Rattle.joiner_node.specs.Terms.{Ready, IsQueryLog, JoinerKept, Setting, site_of_joiner};
ghost use Rattle.site_node.specs.Shell.{StandsAt, down_over};

use crate::disks::Disks;
use crate::held::HeldEpoch;
use crate::joining::{Joining, PairsKept};
use epoch_journal::EpochJournal;
use output_log::OutputLog;
use outside::{Disk, LogFile};
use site_node::{Core, Node, Records, SiteNode};
use std::alloc::{AllocError, Global};
use std::hash::RandomState;
use turn_defs::Config;

/// A joiner over its epoch journal, the log of the pairs that it wrote, and the query log: down, up, or stopped in an
/// open turn.
///
/// A turn costs what the core's decision costs, and is linear in the bytes of its packet, its note and its packets. A Join
/// that is not in flight reads the query log on until its query is found, and each line read costs a look at those before
/// it; after a query is found, later look-ups for it read nothing more.
pub type JoinerNode<L, D> = Node<PairsKept, Joining<L>, Disks<D>>;

/// The joiner of this place at this site, down, over its opened journals and the query log, with keys for the hash of the
/// queries at hand. Hands journals and log back where memory is wanting.
pub fn joiner_node<L: LogFile, D: Disk>(
    alloc: Global,
    site: u8,
    joiner: u8,
    config: Config,
    epochs: EpochJournal<D>,
    log: OutputLog<D>,
    keys: RandomState,
    queries: L,
) -> Result<JoinerNode<L, D>, (AllocError, EpochJournal<D>, OutputLog<D>, L)>
    requires site { site < 2 }
    requires joiner { joiner < config.joiners }
    requires ready { (epochs.journal.state ≡ Ready) × (log.journal.state ≡ Ready) }
    ensures number { IfOk result (λ node. node.number ≡ 4 + config.replicas + site * config.joiners + joiner) }
    ensures disks { IfOk result (λ node. (node.records.epochs ≡ epochs) × (node.records.log ≡ log.journal)) }
    ensures log { IfOk result (λ node. node.core.queries.store.tail.log ≡ queries) }
    ensures up { IfOk result (λ node. ⟦<JoinerNode<L, D> as SiteNode>⟧.waits node ≡ false) }
    ensures stands { IsTrue D.tells → (g : Setting) (k : JoinerKept) → g.config ≡ config → IsQueryLog (L.bytes queries) g.queries → epochs.value.epoch ≡ k.epoch → log.value.pairs.items ≡ k.pairs
        → IfOk result (λ node. StandsAt ⟦<Joining<L> as Core<PairsKept>>⟧ ⟦<Disks<D> as Records<PairsKept, Joining<L>>>⟧ node.config node.in_doubt node.core node.records (down_over g (record { number = node.number; disk = k }))) }
    ensures err { IfErr result (λ e. (e.1 ≡ epochs) × (e.2 ≡ log) × (e.3 ≡ queries)) }
{
    let number = joiner_number(config.replicas, config.joiners, site, joiner);
    let held = HeldEpoch {
        epoch: epochs.value().epoch(),
    };
    match Joining::new(alloc, number, site, held, keys, queries) {
        Ok(joining) => {
            let (log, outputs) = log.into_parts();
            let written = outputs.pairs().len() as u64;
            let records = Disks {
                epochs,
                log,
                written,
            };
            Ok(Node::new(alloc, number, config, joining, records))
        }
        Err((error, queries)) => Err((error, epochs, log, queries)),
    }
}

// The number of a joiner of a site, by its place there.
fn joiner_number(replicas: u8, joiners: u8, site: u8, joiner: u8) -> u16
    requires site { site < 2 }
    requires joiner { joiner < joiners }
    ensures number { result ≡ 4 + replicas + site * joiners + joiner }
    ensures site { (g : Setting) → g.config.replicas ≡ replicas → g.config.joiners ≡ joiners → site ≡ site_of_joiner g result }
{
    let first = 4 + u16::from(replicas);
    first + u16::from(site) * u16::from(joiners) + u16::from(joiner)
}

/// The disk of its epochs, that of its pairs, and the query log.
pub fn into_disks<L: LogFile, D: Disk>(node: JoinerNode<L, D>) -> (D, D, L)
    ensures epochs { result.0 ≡ node.records.epochs.journal.disk }
    ensures pairs { result.1 ≡ node.records.log.disk }
    ensures log { result.2 ≡ node.core.queries.store.tail.log }
{
    let (joining, disks) = node.into_parts();
    (
        disks.epochs.into_disk(),
        disks.log.into_disk(),
        joining.into_log(),
    )
}
