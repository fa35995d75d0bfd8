//! Determines which layout the tables of a database have.
ghost use Rattle.std.specs.Prelude.{◌≡◌, ◌≢◌, None as nothing, Decides, IfSome, length, map};
ghost use Rattle.std.specs.List.{AllByRecursion};
ghost use Rattle.office_db.specs.loading.Finding.{DeclaresTables, names_round};
ghost use Rattle.office_db.specs.loading.Inner.Declared.{IsAmong};
ghost use Rattle.office_db.specs.loading.Inner.Indexes.{has_indexes, index_count, is_this_index, unique_index};
ghost use Rattle.office_db.specs.loading.Inner.Lists.{pass_all};
ghost use Rattle.office_schema.specs.tables.Layouts.{schema_of};
ghost use Rattle.office_schema.specs.tables.Schema.{office_table};
ghost use Rattle.office_schema.specs.declared.tables.layouts.Layout.{Layout as AnyLayout};

mod indexes;

use crate::loading::declared::is_declared;
use crate::loading::layout::indexes::{DOCUMENTED, EARLIER, OWN, OwnIndex};
use office_schema::tables::layouts::Layout;
use office_schema::tables::names::TableName;
use sqlite_catalog::layout::is_used;
use sqlite_schema::schema::{Index, Schema, Table};

/// Returns whether a table, an index or a view has the name of table `round`, in upper or lower case. The engine
/// lists triggers, and tables that it does not understand, among the views.
pub fn names_round(schema: &Schema) -> bool
    ensures { result ≡ names_round schema.now }
{
    is_used(schema, b"round")
}

/// Returns the known layout whose schema this is, or `None` if there is none. The schema has exactly the tables of the
/// layout, with their declarations, in the same order and in the same trees. It has their indexes, and no others. It
/// has no views.
pub fn layout_in(schema: &Schema) -> Option<Layout>
    ensures laid { IfSome result (λ layout. schema.now ≡ schema_of layout) }
    ensures unknown { result ≡ nothing → (layout : AnyLayout) → schema.now ≢ schema_of layout }
{
    if is_laid_out(schema, Layout::Own) {
        return Some(Layout::Own);
    }
    if is_laid_out(schema, Layout::Documented) {
        return Some(Layout::Documented);
    }
    if is_laid_out(schema, Layout::DocumentedSecond) {
        return Some(Layout::DocumentedSecond);
    }
    if is_laid_out(schema, Layout::DocumentedFirst) {
        return Some(Layout::DocumentedFirst);
    }
    if is_laid_out(schema, Layout::EarlierFirst) {
        return Some(Layout::EarlierFirst);
    }
    None
}

// Returns whether the schema is that of the layout.
fn is_laid_out(schema: &Schema, layout: Layout) -> bool
    ensures { Decides result (schema.now ≡ schema_of layout) }
{
    if !schema.views.as_slice().is_empty() {
        return false;
    }
    if !has_tables(schema.tables.as_slice(), layout) {
        return false;
    }
    has_indexes(schema.indexes.as_slice(), layout)
}

/// Returns whether each table of the layout is declared, in whatever tree and order. Other tables may be there, too.
pub fn declares_tables(schema: &Schema, layout: Layout) -> bool
    ensures { Decides result (DeclaresTables layout schema.now) }
{
    are_declared(
        schema.tables.as_slice(),
        &Layout::Documented.order()[..layout.tables()],
    )
}

// Returns whether each of these tables of an office is among `tables`, in whatever tree.
fn are_declared(tables: &[Table], own: &[(TableName, u32)]) -> bool
    ensures { Decides result (AllByRecursion (λ o. IsAmong tables.now o.0) own.now) }
{
    for place in 0..own.len() {
        if !is_among(tables, own[place].0) {
            return false;
        }
    }
    true
}

// Returns whether this table of an office is among `tables`, in whatever tree.
fn is_among(tables: &[Table], own: TableName) -> bool
    ensures { Decides result (IsAmong tables.now own) }
{
    for place in 0..tables.len() {
        if is_declared(&tables[place], own) {
            return true;
        }
    }
    false
}

// Returns whether the tables are those of the layout, in the same order.
pub(crate) fn has_tables(tables: &[Table], layout: Layout) -> bool
    ensures { Decides result (tables.now ≡ (schema_of layout).tables) }
{
    are_these_tables(tables, &layout.order()[..layout.tables()])
}

// Returns whether the tables are those in `own`, each in its tree, in the same order.
pub(crate) fn are_these_tables(tables: &[Table], own: &[(TableName, u32)]) -> bool
    ensures { Decides result (tables.now ≡ map (λ o. office_table o.0 o.1) own.now) }
{
    if tables.len() != own.len() {
        return false;
    }
    for place in 0..own.len() {
        let (table, tree) = own[place];
        if !is_this_table(&tables[place], table, tree) {
            return false;
        }
    }
    true
}

// Returns whether this is the table `own` of an office, in this tree.
fn is_this_table(table: &Table, own: TableName, tree: u32) -> bool
    ensures { Decides result (table.now ≡ office_table own tree) }
{
    if !is_declared(table, own) {
        return false;
    }
    table.tree == tree
}

// Returns whether the indexes are those that enforce the constraints of the layout's tables.
pub(crate) fn has_indexes(indexes: &[Index], layout: Layout) -> bool
    ensures { result ≡ has_indexes layout indexes.now }
{
    are_these_indexes(indexes, own_indexes(layout))
}

// Returns the indexes that enforce the constraints of the layout's tables.
pub(crate) fn own_indexes(layout: Layout) -> &'static [OwnIndex]
    ensures own { map (λ o. unique_index (o.0.now, o.1, o.2, o.3.now)) result.now
        ≡ (schema_of layout).indexes }
    ensures count { length result.now ≡ index_count layout }
{
    match layout {
        Layout::Own => &OWN,
        Layout::Documented => &DOCUMENTED,
        Layout::DocumentedSecond => &DOCUMENTED[..12],
        Layout::DocumentedFirst => &DOCUMENTED[..11],
        Layout::EarlierFirst => &EARLIER,
    }
}

// Returns whether the indexes are the unique indexes in `own`, in the same order.
fn are_these_indexes(indexes: &[Index], own: &[OwnIndex]) -> bool
    ensures { result ≡ pass_all is_this_index
        (map (λ o. unique_index (o.0.now, o.1, o.2, o.3.now)) own.now) indexes.now }
{
    if indexes.len() != own.len() {
        return false;
    }
    for place in 0..own.len() {
        let (name, tree, table, columns) = own[place];
        if !is_this_index(&indexes[place], name, (tree, table), columns) {
            return false;
        }
    }
    true
}

// Returns whether the index is unique and has this name, these trees and these columns. `trees` has the tree of the
// index, then the tree of its table.
fn is_this_index(index: &Index, name: &str, trees: (u32, u32), columns: &[usize]) -> bool
    ensures { result
        ≡ is_this_index (unique_index (name.now, trees.0, trees.1, columns.now)) index.now }
{
    index.name.as_slice() == name.as_bytes()
        && index.tree == trees.0
        && index.table == trees.1
        && index.columns.as_slice() == columns
        && index.order.digits == 0
        && index.is_unique
}
