// Reading records of topologies.
ghost use Rattle.std.specs.Prelude.{◌≡◌, IfOk, IfSome, if◌then◌else◌, Some, None};
ghost use Rattle.topology_journal.specs.Topologies.{HasJoiners, follows as comes_after, has_front, is_longer as has_row_more, next_topology as topology_next, one_more, read_in};

use crate::Topology;
use crate::tables::{has_rows, read_rows, table_of};
use crate::topology::{TAG, VERSION};
use std::alloc::{AllocError, Global};
use time_shards::{MOST_JOINERS, ShardRow, Table};

/// The topology that a record puts in the place of the kept one, or None where it may not come next.
pub fn next_topology(
    alloc: Global,
    kept: &Option<Topology>,
    payload: &[u8],
) -> Result<Option<Topology>, AllocError>
    ensures next { IfOk result (λ next. next ≡ topology_next kept.now payload.now) }
    ensures joiners { IfOk result (λ next. IfSome next HasJoiners) }
{
    match read_topology(alloc, payload)? {
        Some((version, topology)) => Ok(follow(kept, version, topology)),
        None => Ok(None),
    }
}

// A record's version and topology, or None where it is no topology's.
fn read_topology(alloc: Global, payload: &[u8]) -> Result<Option<(u8, Topology)>, AllocError>
    ensures read { IfOk result (λ read. read ≡ read_in payload.now) }
    ensures joiners { IfOk result (λ read. IfSome read (λ one. HasJoiners one.1)) }
{
    if !is_front(payload) {
        return Ok(None);
    }
    let rows = read_rows(alloc, &payload[4..])?;
    match table_of(alloc, &rows)? {
        Some(table) => Ok(Some((
            payload[1],
            Topology {
                joiners: payload[2],
                table,
            },
        ))),
        None => Ok(None),
    }
}

// Whether the bytes before the rows are a topology's, and the rows have as many as they should.
fn is_front(payload: &[u8]) -> bool
    ensures { result ≡ has_front payload.now }
{
    payload.len() >= 4
        && payload[0] == TAG
        && payload[1] >= 1
        && payload[1] <= VERSION
        && payload[2] >= 1
        && payload[2] <= MOST_JOINERS
        && payload.len() == 4 + 9 * payload[3] as usize
}

// The topology of a record of this version, if it may stand behind the kept one.
fn follow(kept: &Option<Topology>, version: u8, topology: Topology) -> Option<Topology>
    ensures { result ≡ comes_after kept.now (version, topology) }
{
    match kept {
        Some(kept) => {
            if version == VERSION && is_longer(kept, &topology) {
                Some(topology)
            } else {
                None
            }
        }
        None => Some(topology),
    }
}

// Whether a topology is another one with a row more.
fn is_longer(topology: &Topology, longer: &Topology) -> bool
    ensures { result ≡ has_row_more topology.now longer.now }
{
    topology.joiners == longer.joiners && has_one_more(&topology.table, longer.table.rows())
}

fn has_one_more(table: &Table, longer: &[ShardRow]) -> bool
    ensures { result ≡ one_more table.now longer.now }
{
    match longer.split_last() {
        Some((_, earlier)) => has_rows(table, earlier),
        None => false,
    }
}
