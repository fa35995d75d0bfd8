//! Tests whether a table is declared as a table of an office.
ghost use Rattle.std.specs.Prelude.{◌≡◌, Decides};
ghost use Rattle.office_db.specs.loading.Inner.Declared.{checks_of, has_columns, has_rules, table_in};
ghost use Rattle.office_schema.specs.tables.Schema.{office_table};

mod checks;
mod columns;
mod forms;
mod references;

use crate::loading::declared::checks::has_checks;
use crate::loading::declared::columns::{are_columns, is_same_key};
use crate::loading::declared::forms::{Form, form_of};
use crate::loading::declared::references::{are_plain, are_references, has_uniques, is_unstamped};
use office_schema::tables::names::TableName;
use sqlite_schema::schema::Table;

/// Returns whether the table is declared as this table of an office, in whatever tree.
pub(crate) fn is_declared(table: &Table, own: TableName) -> bool
    ensures { Decides result (table.now ≡ office_table own table.now.tree) }
{
    has_form(table, form_of(own))
}

// Returns whether the table has the form, in whatever tree.
fn has_form(table: &Table, own: Form<'_>) -> bool
    ensures { Decides result (table.now ≡ table_in own.entry table.now.tree) }
{
    if !has_columns(table, own) {
        return false;
    }
    if !has_rules(table, own) {
        return false;
    }
    has_checks(&table.checks, own.checks)
}

// Returns whether the table has the names, the columns and the keys of the form.
fn has_columns(table: &Table, own: Form<'_>) -> bool
    ensures { result ≡ has_columns own.entry table.now }
{
    table.name.as_slice() == own.name.as_bytes()
        && are_columns(table.columns.as_slice(), own.columns)
        && is_same_key(table.key, own.key)
        && table.primary.as_slice() == own.primary
}

// Returns whether the table has the unique keys and the references of the form, and nothing that an office's table
// lacks.
fn has_rules(table: &Table, own: Form<'_>) -> bool
    ensures { result ≡ has_rules own.entry table.now }
{
    has_uniques(table, own.uniques)
        && are_plain(table.orders.as_slice(), own.uniques)
        && are_references(table.references.as_slice(), own.references)
        && table.computed.len() == 0
        && is_unstamped(&table.stamps)
        && !table.is_counted
}
