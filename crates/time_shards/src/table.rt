// A table, and what it says of an id.
ghost use Rattle.std.specs.Prelude.{◌≡◌, ◌≤◌, ◌<◌, ℕ, List, take, IfOk, IfErr};
ghost use Rattle.time_shards.specs.declared.TheConstants.{MAX_SHARDS};
ghost use Rattle.time_shards.specs.declared.ShardRow.{ShardRow as Row};
ghost use Rattle.time_shards.specs.Shards.{IsTable, added, count_at, shard_of, shard_count};
ghost use Rattle.time_shards.specs.Text.{table_text, IsFirstBad};

use crate::text::next_row;
use crate::{AddFault, BadTable, MAX_ROWS, ShardRow};
use event_id::EventId;
use std::marker::Model;

/// One to four rows: the first starts at 0, each starts later than the row before it, and each has 1 to 16 shards.
///
/// It holds no memory of the heap.
#[derive(Clone, Copy, Debug)]
pub struct Table {
    rows: [ShardRow; MAX_ROWS],
    len: usize,
}

impl Model for Table {
    ghost use Rattle.std.specs.Prelude.{◌≡◌, ◌≤◌, List, length, take};
    ghost use Rattle.time_shards.specs.declared.ShardRow.{ShardRow as Row};
    ghost use Rattle.time_shards.specs.Shards.{IsTable};
    ghost use Rattle.time_shards.specs.Spares.{padded, IsSpareFrom};
    ghost use Rattle.time_shards.specs.Spares.{fields_back};
    ghost use Rattle.time_shards.specs.declared.TheConstants.{MAX_ROWS};

    ghost Value = { List Row };

    ghost view = { λ t. take t.len t.rows };

    ghost invariant = { λ t. (length t.rows ≡ MAX_ROWS) × (t.len ≤ MAX_ROWS) × IsTable (take t.len t.rows) × IsSpareFrom t.len t.rows };

    ghost inverse = { λ rows. record { rows = padded MAX_ROWS rows; len = length rows } };

    ghost inverse_ok = { λ t h. fields_back (λ rows len. record { rows = rows; len = len }) t.rows t.len h.0 h.1 h.3 };
}

impl Table {
    /// Reads the text of a table, all of the bytes: rows `start:count` with commas between them, in decimal without
    /// leading zeros.
    ///
    /// Linear in the text, which is cut from the front to the end or to the first bad row. It allocates nothing.
    pub fn read(text: &[u8]) -> Result<Table, BadTable>
        // What is read is a table, and spelled so.
        ensures found { IfOk result (λ table. IsTable table × (text.now ≡ table_text table)) }
        // Each table's text is read as that table.
        ensures only { (table : List Row) → IsTable table → text.now ≡ table_text table → result ≡ Ok table }
        // The told row is the first bad one, and the first bad row is told.
        ensures bad { IfErr result (λ bad. IsFirstBad text.now bad.row) }
        ensures told { (row : ℕ) → IsFirstBad text.now row → result ≡ Err (record { row = row }) }
    {
        let mut rows = [ShardRow { start: 0, count: 0 }; MAX_ROWS];
        let mut rest = text;
        for row in 0..MAX_ROWS as u8 {
            let at = usize::from(row);
            let Some((next, behind)) = next_row(&rows[..at], rest) else {
                return Err(BadTable { row });
            };
            rows[at] = next;
            match behind {
                Some(behind) => rest = behind,
                None => return Ok(Table { rows, len: at + 1 }),
            }
        }
        Err(BadTable {
            row: MAX_ROWS as u8,
        })
    }

    /// The rows, from the earliest on.
    pub fn rows(&self) -> &[ShardRow]
        ensures rows { result.now ≡ self.now }
        ensures table { IsTable self.now }
    {
        &self.rows[..self.len]
    }

    /// The table with a row behind its others. It allocates nothing.
    pub fn add(&self, start: u64, count: u8) -> Result<Table, AddFault>
        requires some { 1 ≤ count }
        requires few { count ≤ MAX_SHARDS }
        ensures added { result ≡ added self.now (record { start = start; count = count }) }
        ensures table { IfOk result IsTable }
    {
        if self.len == MAX_ROWS {
            return Err(AddFault::Rows);
        }
        let last = self.rows[self.len - 1].start;
        if start <= last {
            return Err(AddFault::Start { last });
        }
        let mut rows = self.rows;
        rows[self.len] = ShardRow { start, count };
        Ok(Table {
            rows,
            len: self.len + 1,
        })
    }

    /// The shard of an id, from 0: the sum of address, process id and timestamp, which may exceed 64 bits, modulo the
    /// count of the last row that doesn't start later than the id.
    pub fn shard_of(&self, id: EventId) -> u8
        ensures shard { result ≡ shard_of self.now id }
        ensures below { result < shard_count self.now }
    {
        let sum = u128::from(id.ip) + u128::from(id.pid) + u128::from(id.micros);
        (sum % u128::from(self.count_at(id.micros))) as u8
    }

    /// How many shards there are: the greatest count of a row.
    pub fn shards(&self) -> u8
        ensures count { result ≡ shard_count self.now }
        ensures some { 1 ≤ result }
        ensures few { result ≤ MAX_SHARDS }
    {
        let mut most = 0;
        for row in self.rows() {
            most = row.count.max(most);
        }
        most
    }

    // The count of the last row that doesn't start later.
    fn count_at(&self, micros: u64) -> u8
        ensures count { result ≡ count_at 1 self.now micros }
        ensures some { 1 ≤ result }
        ensures below { result ≤ shard_count self.now }
    {
        let mut count = 1;
        for row in self.rows() {
            if row.start > micros {
                return count;
            }
            count = row.count;
        }
        count
    }
}
