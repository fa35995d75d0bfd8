//! Builds maps from rows of a key and a value, and sets from rows of a key.
ghost use Rattle.std.specs.Prelude.{◌≡◌, ◌<◌, IfOk, OnErr, length, map as map_list, reverse};
ghost use Rattle.std.specs.FinMap as map;
ghost use Rattle.office_schema.specs.rows.Inner.Filled.{filled, key_entry};
ghost use Rattle.office_schema.specs.rows.Reads.{Reads, IsAny};
ghost use Rattle.office_schema.specs.rows.Rows.{key_rows};

use room_types::{Grammar, OutOfMemory, Table, Text};
use std::alloc::Global;

/// Builds the map whose entries are exactly `rows`. The rows may be in any order. Returns `None` if a key occurs
/// twice. Fails only if an allocation fails, and cannot fail if `rows` is empty.
pub fn read_table<G: Grammar, V: Drop>(
    alloc: Global,
    rows: Vec<(Text<G>, V)>,
) -> Result<Option<Table<G, V>>, OutOfMemory>
    ensures reads { IfOk result (λ found. Reads IsAny map.entries rows.items found) }
    ensures memory { OnErr result (0 < length rows.items) }
{
    fill(alloc, rows)
}

// Inserts the rows into a new map, from the last row to the first. Returns `None` if a key occurs twice.
fn fill<G: Grammar, V: Drop>(
    alloc: Global,
    rows: Vec<(Text<G>, V)>,
) -> Result<Option<Table<G, V>>, OutOfMemory>
    ensures fills { IfOk result (λ found. found ≡ filled map.empty (reverse rows.items)) }
    ensures memory { OnErr result (0 < length rows.items) }
{
    let mut rows = rows;
    let mut table = Table::new(alloc);
    while let Some((key, value)) = rows.pop() {
        if table.contains_key(&key) {
            return Ok(None);
        }
        table.insert(key, value)?;
    }
    Ok(Some(table))
}

/// Builds the set whose keys are exactly `rows`. The rows may be in any order. Returns `None` if a key occurs twice.
/// Fails only if an allocation fails, and cannot fail if `rows` is empty.
pub fn read_keys<G: Grammar>(
    alloc: Global,
    rows: Vec<Text<G>>,
) -> Result<Option<Table<G, ()>>, OutOfMemory>
    ensures reads { IfOk result (λ found. Reads IsAny key_rows rows.items found) }
    ensures memory { OnErr result (0 < length rows.items) }
{
    fill_keys(alloc, rows)
}

// Inserts the keys into a new set, from the last key to the first. Returns `None` if a key occurs twice.
fn fill_keys<G: Grammar>(
    alloc: Global,
    rows: Vec<Text<G>>,
) -> Result<Option<Table<G, ()>>, OutOfMemory>
    ensures fills { IfOk result (λ found. found
        ≡ filled map.empty (reverse (map_list key_entry rows.items))) }
    ensures memory { OnErr result (0 < length rows.items) }
{
    let mut rows = rows;
    let mut set = Table::new(alloc);
    while let Some(key) = rows.pop() {
        if set.contains_key(&key) {
            return Ok(None);
        }
        set.insert(key, ())?;
    }
    Ok(Some(set))
}
