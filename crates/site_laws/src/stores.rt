// When a store is sound, by what a stop now may leave of its disks, and what keeps it so: disks that are opened, the
// topology's record, a row more, a run of both sites, longer logs.
ghost use Rattle.site_laws.specs.Terms.{DiskName, Setting};
ghost use Rattle.site_laws.specs.Stores.{IsSoundStore};
ghost use Rattle.site_laws.specs.StoreLaws.{HoldSameRecords, KeepOneTopology, LeavesNothing, LeftIsHeld, LongerStaysSound, OpenedIsWhole, ReadNotesAreKept, ReadTopologyIsKept, RowIsSound, RunStaysSound, SameIsSound, SameIsWhole, StaysSound, TopologyFits, TopologyIsFirst, WrittenIsSound};
ghost use Rattle.site_laws.specs.StoreExample.{SoundBytes};

use outside::Store;
use packet_codec::Field;
use paxos_acceptor::ReplicaNote;

/// A store whose disks have no bytes is sound.
#[tactic(auto, using(crate::proofs::Opening::empty_sound))]
pub fn empty_store<S: Store>()
    ensures { (g : Setting) (s : S) → LeavesNothing g (S.image s) → IsSoundStore g (S.image s) }
{
    photon_model::whole_stores();
}

/// Bytes keep one topology or none, and of each node of the setting the same records.
#[tactic(auto, using(crate::proofs::Keeping::keep_one_topology))]
pub fn once()
    ensures topology { KeepOneTopology }
    ensures records { HoldSameRecords }
{
    output_log::laws::told_apart();
    ReplicaNote::told_apart();
}

/// What is read of the topology's disk, and of a replica's, is what the bytes keep.
#[tactic(auto, using(crate::proofs::Keeping::read_topology, crate::proofs::Keeping::read_notes))]
pub fn read()
    ensures topology { ReadTopologyIsKept }
    ensures notes { ReadNotesAreKept }
{}

/// Whether records are sound is told by those of the setting's nodes alone.
pub fn same()
    ensures records { SameIsSound }
    ensures store { SameIsWhole }
{}

/// The topology's record is a sound store's first, and it is the setting's.
#[tactic(auto, using(crate::proofs::Opening::topology_first))]
pub fn fits()
    ensures first { TopologyIsFirst }
    ensures only { TopologyFits }
{
    once();
}

/// Records that are read from a sound store, each from what a stop may leave of its disk, are a sound store.
pub fn opened<S: Store>()
    ensures { (g : Setting) (s : S) → OpenedIsWhole g (S.image s) }
{
    once();
    same();
}

/// A store stays sound where no disk stands for anything new.
pub fn stays<S: Store>()
    ensures { (g : Setting) (before after : S) → StaysSound g (S.image before) (S.image after) }
{}

/// It stays sound where the topology's disk may keep the setting's besides.
pub fn topology_first<S: Store>()
    ensures { (g : Setting) (before after : S) → WrittenIsSound g (S.image before) (S.image after) }
{
    photon_model::whole_stores();
}

/// Where a row is put behind the table of the topology that its disk keeps, and nothing that is accepted forbids the row's start, it stays
/// sound for the setting while that disk stands for nothing new, and is sound for the setting with the row where it keeps the longer table.
pub fn row_added<S: Store>()
    ensures { (g : Setting) (before after : S) → RowIsSound g (S.image before) (S.image after) }
{
    once();
    same();
    photon_model::added_rows();
}

/// It stays sound where both logs grow by bytes at their ends and stay valid.
pub fn longer<S: Store>()
    ensures { (s : S) → LongerStaysSound (S.image s) }
{
    photon_model::whole_stores();
}

/// After a run from a sound store with its topology, disks that keep what their nodes' states may hold are a sound store.
pub fn run<S: Store>()
    ensures { (g : Setting) (s : S) → RunStaysSound g (S.image s) }
{
    crate::left_on_disks();
}

/// Whatever a stop leaves of such disks keeps records that the nodes may leave.
pub fn left<S: Store>()
    ensures { (g : Setting) (s : S) → LeftIsHeld g (S.image s) }
{}

/// A store of the topology's record alone is sound; one of another topology's isn't, nor one of a pair alone.
#[tactic(auto, using(crate::proofs::Working::worked_bytes))]
pub fn example()
    ensures { SoundBytes }
{
    fits();
    once();
    photon_model::whole_stores();
}
