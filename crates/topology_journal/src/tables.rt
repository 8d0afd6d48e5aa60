// Rows and tables.
ghost use Rattle.std.specs.Prelude.{◌≡◌, ◌↔◌, ◌<◌, ◌%◌, ◌^◌, ◌++◌, length, IfOk, IfSome, IfNone, OnOk, IsTrue};
ghost use Rattle.std.specs.Int.{to_be_bytes, w64};
ghost use Rattle.list_words.specs.Lists.{Each};
ghost use Rattle.time_shards.specs.Shards.{IsTable};
ghost use Rattle.time_shards.specs.Text.{row_text, table_text};
ghost use Rattle.topology_journal.specs.Topologies.{row_bytes, rows_bytes, rest_text};

use itoa::Buffer;
use std::alloc::{AllocError, Global};
use time_shards::{ShardRow, Table};

/// The table of these rows, if they are one. It is read from its text, which takes one allocation or a few.
pub fn table_of(alloc: Global, rows: &[ShardRow]) -> Result<Option<Table>, AllocError>
    ensures some { IfOk result (λ read. IfSome read (λ table. IsTable table × (table ≡ rows.now))) }
    ensures none { IfOk result (λ read. IfNone read (IsTable rows.now → ⊥)) }
{
    let text = text_of(alloc, rows)?;
    match Table::read(&text) {
        Ok(table) => Ok(if has_rows(&table, rows) {
            Some(table)
        } else {
            None
        }),
        Err(_) => Ok(None),
    }
}

/// Whether these are the table's rows.
pub fn has_rows(table: &Table, rows: &[ShardRow]) -> bool
    ensures { IsTrue result ↔ (table.now ≡ rows.now) }
{
    table.rows() == rows
}

// The text of rows, as that of a table.
fn text_of(alloc: Global, rows: &[ShardRow]) -> Result<Vec<u8>, AllocError>
    ensures { IfOk result (λ text. text.items ≡ table_text rows.now) }
{
    let mut text = Vec::new(alloc);
    let Some((first, rest)) = rows.split_first() else {
        return Ok(text);
    };
    put_text(&mut text, first)?;
    put_rest(&mut text, rest)?;
    Ok(text)
}

// Puts the texts of rows behind the others, each behind a comma.
fn put_rest(text: &mut Vec<u8>, rows: &[ShardRow]) -> Result<(), AllocError>
    ensures { OnOk result (text.new.items ≡ text.old.items ++ rest_text rows.now) }
{
    for row in rows {
        text.push(b',')?;
        put_text(text, row)?;
    }
    Ok(())
}

#[tactic(auto, unfolding(time_shards::specs::Text::row_text))]
fn put_text(text: &mut Vec<u8>, row: &ShardRow) -> Result<(), AllocError>
    ensures { OnOk result (text.new.items ≡ text.old.items ++ row_text row.now) }
{
    let mut start = Buffer::new();
    let mut count = Buffer::new();
    text.extend_from_slice(start.format(row.start).as_bytes())?;
    text.push(b':')?;
    text.extend_from_slice(count.format(row.count).as_bytes())?;
    Ok(())
}

/// The rows that these bytes are, nine of each.
pub fn read_rows(alloc: Global, bytes: &[u8]) -> Result<Vec<ShardRow>, AllocError>
    requires { length bytes.now % 9 ≡ 0 }
    ensures bytes { IfOk result (λ rows. bytes.now ≡ rows_bytes rows.items) }
    ensures starts { IfOk result (λ rows. Each (λ row. row.start < 2 ^ 64) rows.items) }
{
    let mut rows = Vec::new(alloc);
    let mut rest = bytes;
    'rows: while rest.len() >= 9 {
        let (front, behind) = rest.split_at(9);
        rows.push(row_of(front))?;
        rest = behind;
    }
    Ok(rows)
}

fn row_of(bytes: &[u8]) -> ShardRow
    requires { length bytes.now ≡ 9 }
    ensures bytes { bytes.now ≡ row_bytes result }
    ensures start { result.start < 2 ^ 64 }
{
    let (start, count) = bytes.split_at(8);
    ShardRow {
        start: u64_of(start),
        count: count[0],
    }
}

fn u64_of(bytes: &[u8]) -> u64
    requires { length bytes.now ≡ 8 }
    ensures { bytes.now ≡ to_be_bytes w64 result }
{
    u64::from_be_bytes([
        bytes[0], bytes[1], bytes[2], bytes[3], bytes[4], bytes[5], bytes[6], bytes[7],
    ])
}
