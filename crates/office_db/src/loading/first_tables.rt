//! Tests the first tables of a database. Any tables may follow them.
ghost use Rattle.std.specs.Prelude.{◌≡◌, ◌&&◌, [], ◌∷◌, Decides, length, nat_le, take};
ghost use Rattle.office_schema.specs.tables.FirstTables.{Begins, BeginsOffice};
ghost use Rattle.office_db.specs.loading.Inner.Indexes.{has_indexes, index_count};
ghost use Rattle.office_schema.specs.tables.Layouts.{schema_of, table_count};
ghost use Rattle.office_schema.specs.tables.Schema.{person, room, round};

use crate::loading::layout::{are_these_tables, has_indexes, has_tables, own_indexes};
use office_schema::tables::layouts::Layout;
use sqlite_schema::schema::{Index, Schema, Table};

/// Returns whether the first three tables are `room`, `person` and `round`, each declared as that table of an office
/// and in the tree that all layouts give it, and there are no views.
pub fn begins_office(schema: &Schema) -> bool
    ensures { Decides result (BeginsOffice schema.now) }
{
    if !schema.views.as_slice().is_empty() {
        return false;
    }
    are_first(schema.tables.as_slice())
}

// Returns whether the first three tables are `room`, `person` and `round`, each in its tree.
fn are_first(tables: &[Table]) -> bool
    ensures { Decides result (take 3 tables.now ≡ room 0 ∷ person 2 ∷ round 6 ∷ []) }
{
    if tables.len() < 3 {
        return false;
    }
    are_these_tables(&tables[..3], &Layout::Own.order()[..3])
}

/// Returns whether the schema begins with the tables and the indexes of the layout, and has no views. Others may
/// follow.
pub fn begins_with(schema: &Schema, layout: Layout) -> bool
    ensures { Decides result (Begins layout schema.now) }
{
    if !schema.views.as_slice().is_empty() {
        return false;
    }
    if !has_first_tables(schema.tables.as_slice(), layout) {
        return false;
    }
    has_first_indexes(schema.indexes.as_slice(), layout)
}

// Returns whether the first tables are those of the layout, in the same order.
fn has_first_tables(tables: &[Table], layout: Layout) -> bool
    ensures { Decides result (take (table_count layout) tables.now ≡ (schema_of layout).tables) }
{
    let count = layout.tables();
    if tables.len() < count {
        return false;
    }
    has_tables(&tables[..count], layout)
}

// Returns whether the first indexes are those that enforce the constraints of the layout's tables.
fn has_first_indexes(indexes: &[Index], layout: Layout) -> bool
    ensures { result ≡ (nat_le (index_count layout) (length indexes.now)
        && has_indexes layout (take (index_count layout) indexes.now)) }
{
    let count = index_count(layout);
    count <= indexes.len() && has_indexes(&indexes[..count], layout)
}

// Returns the number of indexes that enforce the constraints of the layout's tables.
fn index_count(layout: Layout) -> usize
    ensures { result ≡ index_count layout }
{
    own_indexes(layout).len()
}
