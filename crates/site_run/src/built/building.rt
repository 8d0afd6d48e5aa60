// The nodes of both sites, over opened disks and logs.
ghost use Rattle.std.specs.Prelude.{◌≡◌, ◌≤◌, ◌<◌, ◌+◌, ◌*◌, ◌++◌, [], ◌∷◌, ℕ, length, map, slice_index_or, vec_capacity, IsTrue, IfOk, IfErr, false};
ghost use Rattle.std.specs.List.{All};
ghost use Rattle.std.specs.List.Sorted.{IsPermutation};
ghost use Rattle.site_run.specs.Terms.{Disks, IsRunnable, Setting, lent_all, other_names, topology_lent};
ghost use Rattle.site_run.specs.Making.{AreEnough, IsRoomFor, IsStart, disks_in, logs_in, view_of};
ghost use Rattle.site_run.specs.Running.{AreDownOver};
ghost use Rattle.site_run.specs.Heard.{kinds_of};
ghost use Rattle.site_run.specs.Naming.{as_lent, all_from, count_of};

use crate::built::stock::{Making, Stock};
use crate::built::{Logs, Parting, Parts, Room, apart};
use lossy_link::Kind;
use outside::{Disk, DiskName, LogFile};
use site_store::{OpenDisk, OpenStore};
use std::alloc::Global;
use topology_journal::TopologyJournal;
use turn_defs::Config;
use turn_defs::laws::node_numbers;

/// All nodes of both sites, in the order of their numbers, with their kinds, and the topology's journal. The parts are empty, with
/// room for what the nodes are made of.
#[derive(Drop)]
pub struct Built<D: Disk, L, N> {
    pub topology: TopologyJournal<D>,
    pub kinds: Vec<Kind>,
    pub nodes: Vec<N>,
    pub parts: Parts<D, L>,
}

/// Builds the nodes of both sites, down, over opened disks and logs. Where memory is wanting for one, all disks and logs come
/// back. It takes memory for all nodes but the replicas.
pub fn build<D: Disk, L: LogFile, N: Making<D, L>>(
    alloc: Global,
    config: &Config,
    opened: OpenStore<D>,
    logs: Logs<L>,
    room: Room<D, L, N>,
) -> Result<Built<D, L, N>, Parts<D, L>>
    requires ranges { IsRunnable config.now }
    requires room { IsRoomFor config.now room }
    requires named { map (λ o. o.name) opened.disks.items ≡ other_names config.now.joiners config.now.replicas }
    requires logs { AreEnough config.now.joiners logs }
    ensures kinds { IfOk result (λ b. b.kinds.items ≡ kinds_of config.now.joiners config.now.replicas) }
    ensures count { IfOk result (λ b. length b.nodes.items ≡ count_of config.now) }
    ensures numbers { IfOk result (λ b. (i : ℕ) (d : _) → i < length b.nodes.items → N.number (slice_index_or b.nodes.items i d) ≡ i) }
    ensures up { IfOk result (λ b. All (λ n. N.waits n ≡ false) b.nodes.items) }
    // Each node is down over what its own disks keep.
    ensures places { IsTrue D.tells → (g : Setting) (d : Disks) → IsStart L.bytes logs.clicks.items logs.queries.items opened.disks.items config.now g d
        → IfOk result (λ b. AreDownOver N.places g d b.nodes.items) }
    // Under the names of their places they have the disks that were opened.
    ensures held { IfOk result (λ b. IsPermutation (lent_all opened.disks.items) (all_from (N.disks_of config.now) 0 b.nodes.items)) }
    ensures topology { IfOk result (λ b. b.topology ≡ opened.topology) }
    ensures none { IfOk result (λ b. (b.parts.disks.items ≡ []) × (b.parts.logs.items ≡ [])) }
    ensures room { IfOk result (λ b. (2 * count_of config.now < vec_capacity b.parts.disks) × (count_of config.now ≤ vec_capacity b.parts.logs)) }
    // Where one isn't made all disks come back under their names, and all logs.
    ensures disks { IfErr result (λ p. IsPermutation (topology_lent opened.topology.journal.disk ∷ lent_all opened.disks.items) (map as_lent p.disks.items)) }
    ensures logs { IfErr result (λ p. IsPermutation (logs.clicks.items ++ logs.queries.items) p.logs.items) }
{
    node_numbers();
    let OpenStore { topology, disks } = opened;
    let Room {
        kinds,
        nodes,
        parts,
        keys,
    } = room;
    let mut nodes = nodes;
    let mut stock = Stock {
        alloc,
        config: *config,
        rest: disks,
        logs,
        parts,
        keys,
    };
    for number in 0..4 + config.replicas + 2 * config.joiners {
        match N::make(&mut stock, number) {
            Some(node) => nodes.push_reserved(node),
            None => return Err(give_up(stock, nodes, topology)),
        }
    }
    let Stock {
        alloc: _,
        config: _,
        rest,
        logs,
        parts,
        keys: _,
    } = stock;
    rest.destroy_empty();
    logs.clicks.destroy_empty();
    logs.queries.destroy_empty();
    Ok(Built {
        topology,
        kinds,
        nodes,
        parts,
    })
}

// Takes the nodes that were made apart, and puts all to the parts.
fn give_up<D: Disk, L: LogFile, N: Parting<D, L>>(
    stock: Stock<D, L>,
    nodes: Vec<N>,
    topology: TopologyJournal<D>,
) -> Parts<D, L>
    requires few { length nodes.items ≤ 255 }
    requires disks { length stock.parts.disks.items + 2 * length nodes.items ≤ 2 * count_of stock.config }
    requires logs { length stock.parts.logs.items + length nodes.items ≤ count_of stock.config }
    requires all_disks { length (disks_in (view_of stock)) + length (all_from (N.disks_of stock.config) 0 nodes.items) ≤ 2 * count_of stock.config }
    requires all_logs { length (logs_in (view_of stock)) + length (all_from (λ _. N.logs_of) 0 nodes.items) ≤ count_of stock.config }
    ensures disks { IsPermutation (topology_lent topology.journal.disk ∷ (disks_in (view_of stock) ++ all_from (N.disks_of stock.config) 0 nodes.items)) (map as_lent result.disks.items) }
    ensures logs { IsPermutation (logs_in (view_of stock) ++ all_from (λ _. N.logs_of) 0 nodes.items) result.logs.items }
{
    let Stock {
        alloc: _,
        config,
        rest,
        logs,
        parts,
        keys: _,
    } = stock;
    let mut parts = apart(nodes, &config, parts);
    put_open(rest, &mut parts);
    parts.put(DiskName::Topology, topology.into_disk());
    put_all(logs.clicks, &mut parts.logs);
    put_all(logs.queries, &mut parts.logs);
    parts
}

// Puts open disks to the parts.
fn put_open<D: Disk, L>(disks: Vec<OpenDisk<D>>, parts: &mut Parts<D, L>)
    requires { length parts.old.disks.items + length disks.items ≤ vec_capacity parts.old.disks }
    ensures disks { map as_lent parts.new.disks.items ≡ map as_lent parts.old.disks.items ++ lent_all disks.items }
    ensures room { vec_capacity parts.new.disks ≡ vec_capacity parts.old.disks }
    ensures logs { parts.new.logs.items ≡ parts.old.logs.items }
    ensures log_room { vec_capacity parts.new.logs ≡ vec_capacity parts.old.logs }
{
    let mut disks = disks.into_iter();
    while let Some(open) = disks.next() {
        parts.put(open.name(), open.into_disk());
    }
    disks.destroy_empty();
}

// Puts logs to the others.
fn put_all<L>(more: Vec<L>, logs: &mut Vec<L>)
    requires { length logs.old.items + length more.items ≤ vec_capacity logs.old }
    ensures items { logs.new.items ≡ logs.old.items ++ more.items }
    ensures room { vec_capacity logs.new ≡ vec_capacity logs.old }
{
    let mut more = more.into_iter();
    while let Some(log) = more.next() {
        logs.push_reserved(log);
    }
    more.destroy_empty();
}
