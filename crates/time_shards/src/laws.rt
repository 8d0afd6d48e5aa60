//! Laws over tables, their texts and the rows they choose.
ghost use Rattle.std.specs.Prelude.{◌≡◌, ◌≤◌, ◌<◌, ◌++◌, ◌∷◌, ◌↔◌, ℕ, List, [], true, codes};
ghost use Rattle.list_words.specs.Lists.{Each};
ghost use Rattle.event_id.specs.declared.id.EventId.{EventId as Id};
ghost use Rattle.time_shards.specs.declared.ShardRow.{ShardRow as Row};
ghost use Rattle.time_shards.specs.Shards.{IsTable, is_table, count_at, shard_of, shard_count};
ghost use Rattle.time_shards.specs.Text.{table_text, IsFirstBad};

/// Whether rows are a table is told exactly.
pub fn decided()
    ensures { (rows : List Row) → (is_table rows ≡ true) ↔ IsTable rows }
{}

/// No two tables have one text.
pub fn one_text()
    ensures { (x y : List Row) → IsTable x → IsTable y → table_text x ≡ table_text y → x ≡ y }
{}

/// A table's text has no bad row, and another text has one first bad row.
pub fn one_first_bad()
    ensures none { (text : List ℕ) (row : ℕ) (table : List Row) → IsFirstBad text row → IsTable table → text ≡ table_text table → ⊥ }
    ensures one { (text : List ℕ) (m n : ℕ) → IsFirstBad text m → IsFirstBad text n → m ≡ n }
{}

/// The row that counts for a timestamp is the one that doesn't start later while all behind it do.
pub fn last_row()
    ensures { (earlier later : List Row) (row : Row) (micros : ℕ) → IsTable (earlier ++ row ∷ later)
        → row.start ≤ micros → Each (λ next. micros < next.start) later
        → count_at 1 (earlier ++ row ∷ later) micros ≡ row.count }
{}

/// A row that is put behind the others leaves each earlier id in its shard.
pub fn added_row()
    ensures { (table : List Row) (row : Row) (id : Id) → id.micros < row.start → shard_of (table ++ row ∷ []) id ≡ shard_of table id }
{}

/// The table `0:4,3000:8`, and ids just before its second row and at it.
pub fn worked_rows()
    ensures text { table_text (record { start = 0; count = 4 } ∷ record { start = 3000; count = 8 } ∷ []) ≡ codes "0:4,3000:8" }
    ensures before { shard_of (record { start = 0; count = 4 } ∷ record { start = 3000; count = 8 } ∷ []) (record { ip = 0x0a00_0002; pid = 9; micros = 2999 }) ≡ 2 }
    ensures at { shard_of (record { start = 0; count = 4 } ∷ record { start = 3000; count = 8 } ∷ []) (record { ip = 0x0a00_0002; pid = 9; micros = 3000 }) ≡ 3 }
    ensures shards { shard_count (record { start = 0; count = 4 } ∷ record { start = 3000; count = 8 } ∷ []) ≡ 8 }
{}
