// The registry server over its disk.
ghost use Rattle.std.specs.Prelude.{◌≡◌, ◌≤◌, ◌<◌, ◌+◌, false, IsTrue, IfOk, IfErr};
ghost use Rattle.registry_server.specs.Terms.{MOST_INSERTS, MOST_REPLICAS, Ready, Setting};
ghost use Rattle.site_node.specs.Shell.{StandsAt, down_over};

use crate::epoch_records::EpochRecords;
use crate::notes::HeldEpoch;
use crate::registrar::{EpochKept, Registrar};
use crate::station::Station;
use epoch_journal::EpochJournal;
use outside::Disk;
use site_node::{Core, Node, Records, SiteNode};
use std::alloc::Global;
use turn_defs::Config;

/// A registry server over its epochs: down, up, or stopped in an open turn.
///
/// The disk holds nothing but how often the server has started; what it learned it is told again. A turn costs what the
/// core's decision costs, and is linear in the bytes of its packet and of its answers. A start writes one record.
pub type ServerNode<D> = Node<EpochKept, Registrar, EpochRecords<D>>;

/// A server of a site that is down, over its journal. It takes memory for the table's shards, and hands the journal
/// back where there is none.
pub fn server_node<D: Disk>(
    alloc: Global,
    site: u8,
    config: Config,
    journal: EpochJournal<D>,
) -> Result<ServerNode<D>, EpochJournal<D>>
    requires site { site < 2 }
    requires batch { config.batch ≤ MOST_INSERTS }
    requires replicas { config.replicas ≤ MOST_REPLICAS }
    requires ready { journal.journal.state ≡ Ready }
    ensures site { IfOk result (λ n. n.number ≡ 2 + site) }
    ensures journal { IfOk result (λ n. n.records.journal ≡ journal) }
    ensures up { IfOk result (λ n. ⟦<ServerNode<D> as SiteNode>⟧.waits n ≡ false) }
    ensures stands { IsTrue D.tells → (g : Setting) → g.config ≡ config
        → IfOk result (λ n. StandsAt ⟦<Registrar as Core<EpochKept>>⟧ ⟦<EpochRecords<D> as Records<EpochKept, Registrar>>⟧ n.config n.in_doubt n.core n.records (down_over g (record { number = site; disk = record { epoch = journal.value.epoch } }))) }
    ensures refused { IfErr result (λ j. j ≡ journal) }
{
    let numbers = &config;
    let station = Station {
        site,
        config: *numbers,
        alloc,
    };
    let held = HeldEpoch {
        epoch: journal.value().epoch(),
    };
    let registrar = match Registrar::new(station, held) {
        Ok(registrar) => registrar,
        Err(_) => return Err(journal),
    };
    let records = EpochRecords { journal };
    let number = 2 + u16::from(site);
    Ok(Node::new(alloc, number, config, registrar, records))
}

/// The disk, which holds the journal.
pub fn into_disk<D: Disk>(node: ServerNode<D>) -> D
    ensures { result ≡ node.records.journal.journal.disk }
{
    let (_, records) = node.into_parts();
    records.journal.into_disk()
}
