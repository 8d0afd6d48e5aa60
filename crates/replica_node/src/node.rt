// The replica over its disk.
ghost use Rattle.std.specs.Prelude.{◌≡◌, ◌+◌, false, IsTrue};
ghost use Rattle.replica_node.specs.Terms.{Ready, Setting, kept_of};
ghost use Rattle.site_node.specs.Shell.{StandsAt, down_over};

use crate::vote_records::VoteRecords;
use crate::voter::{Voter, VotesKept};
use output_log::VoteJournal;
use outside::Disk;
use site_node::{Core, Node, Records, SiteNode};
use std::alloc::Global;
use turn_defs::Config;

/// A replica over its journal: down, up, or stopped in an open turn.
///
/// While it is down it has the notes of its journal in memory, and while it is up what they say of each place. A turn
/// costs what the core's decision costs, and is linear in the bytes of its packet, its note and its answer.
pub type ReplicaNode<D> = Node<VotesKept, Voter, VoteRecords<D>>;

/// A replica that is down, over its journal. It takes no memory.
pub fn replica_node<D: Disk>(
    alloc: Global,
    replica: u8,
    config: Config,
    votes: VoteJournal<D>,
) -> ReplicaNode<D>
    requires { votes.journal.state ≡ Ready }
    ensures number { result.number ≡ 4 + replica }
    ensures disk { result.records.journal.disk ≡ votes.journal.disk }
    ensures up { ⟦<ReplicaNode<D> as SiteNode>⟧.waits result ≡ false }
    ensures stands { IsTrue D.tells → (g : Setting) → g.config ≡ config
        → StandsAt ⟦<Voter as Core<VotesKept>>⟧ ⟦<VoteRecords<D> as Records<VotesKept, Voter>>⟧ result.config result.in_doubt result.core result.records (down_over g (kept_of votes.value.notes.items)) }
{
    let (journal, votes) = votes.into_parts();
    let kept = votes.notes().len() as u64;
    let records = VoteRecords { journal, kept };
    let number = 4 + u16::from(replica);
    Node::new(alloc, number, config, Voter::new(alloc, votes), records)
}

/// The disk, which holds the journal.
pub fn into_disk<D: Disk>(node: ReplicaNode<D>) -> D
    ensures { result ≡ node.records.journal.disk }
{
    let (_, records) = node.into_parts();
    records.journal.into_disk()
}
