// A topology and its record.
ghost use Rattle.std.specs.Prelude.{◌≡◌, ◌++◌, IfOk, OnOk};
ghost use Rattle.topology_journal.specs.Topologies.{IsTopology, row_bytes, rows_bytes, topology_record};

use std::alloc::{AllocError, Global};
use time_shards::{ShardRow, Table};
use wire_core::Bytes;

/// The first byte of a record.
pub(crate) const TAG: u8 = 1;

/// The second byte of a record: the version in which it is written. A first record is read in version 1 as well.
pub(crate) const VERSION: u8 = 2;

/// The most bytes that a record has.
pub(crate) const LONGEST: u32 = 40;

/// How many joiners each site has, and the table of shards.
#[derive(Clone, Copy, Debug)]
pub struct Topology {
    pub joiners: u8,
    pub table: Table,
}

/// The record of a topology as it is written to its journal: the bytes 01 and 02, the joiners, the number of rows, and of
/// each row its start as eight bytes, the high one first, and its count. One allocation.
pub fn topology_frame(alloc: Global, topology: &Topology) -> Result<Bytes, AllocError>
    requires { IsTopology topology.now }
    ensures { IfOk result (λ frame. frame ≡ topology_record topology.now) }
{
    let rows = topology.table.rows();
    let mut bytes = Bytes::with_capacity(alloc, LONGEST as usize)?;
    bytes.put_u8(TAG)?;
    bytes.put_u8(VERSION)?;
    bytes.put_u8(topology.joiners)?;
    bytes.put_u8(rows.len() as u8)?;
    put_rows(&mut bytes, rows)?;
    Ok(bytes)
}

// Puts the bytes of rows behind the others.
fn put_rows(bytes: &mut Bytes, rows: &[ShardRow]) -> Result<(), AllocError>
    ensures { OnOk result (bytes.new ≡ bytes.old ++ rows_bytes rows.now) }
{
    for row in rows {
        put_row(bytes, row)?;
    }
    Ok(())
}

fn put_row(bytes: &mut Bytes, row: &ShardRow) -> Result<(), AllocError>
    ensures { OnOk result (bytes.new ≡ bytes.old ++ row_bytes row.now) }
{
    bytes.put_u64(row.start)?;
    bytes.put_u8(row.count)
}
