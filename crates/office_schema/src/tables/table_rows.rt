//! The rows of each table: which records they store, and the query that lists them.
ghost use Rattle.std.specs.Prelude.{◌≡◌, true, map, IfOk, IfSome, MatchOption, OnErr};
ghost use Rattle.std.specs.List.{All};
ghost use Rattle.sqlite_schema.specs.declared.schema.Schema.{Schema as Declared};
ghost use Rattle.sqlite_value.specs.Order.{Row as Values};
ghost use Rattle.office_schema.specs.cells.Allocation.{Allocates};
ghost use Rattle.office_schema.specs.tables.Asking.{OnlyAsks};
ghost use Rattle.office_schema.specs.tables.FirstTables.{Begins};
ghost use Rattle.office_schema.specs.declared.tables.names.TableName.{TableName};
ghost use Rattle.office_schema.specs.tables.Listing.{DeterminesRecords, ListsTable};
ghost use Rattle.office_schema.specs.tables.TableQueries.{has_table, query_columns, query_names, query_text, tree_in};
ghost use Rattle.office_schema.specs.declared.tables.layouts.Layout.{Layout as AnyLayout};

use crate::tables::layouts::Layout;
use room_types::OutOfMemory;
use sqlite::Row;
use std::alloc::Global;

/// A type whose values are the records that one table of an office stores.
pub trait TableRow: Drop {
    /// The rows that have the form of a record. Unless an allocation fails, `from_row` reads exactly these rows into
    /// records.
    ghost is_form: { Values → Type 0 };
    /// The columns of a row that `from_row` reads.
    ghost front: { Values → Values };
    /// The values of a record, as the columns of a row.
    ghost columns: { Self → Values };
    /// The rows for which `from_row` may allocate.
    ghost may_allocate: { Values → Type 0 };
    /// The name of the table.
    ghost name: { TableName };
    /// The columns of the row that stores a record in the table.
    ghost kept: { Self → Values };

    /// Reads a row into a record. Returns `None` if the row does not have the form of a record. Allocates only for
    /// rows that satisfy `may_allocate`. Fails only if an allocation fails.
    fn from_row(alloc: Global, row: &Row) -> Result<Option<Self>, OutOfMemory>
        ensures returned { IfOk result (λ found. MatchOption found (¬ is_form row.now)
            (λ record_. front row.now ≡ columns record_)) }
        ensures formed { IfOk result (λ found. IfSome found (λ _. is_form row.now)) }
        ensures memory { OnErr result (may_allocate row.now) };

    /// Returns the text of the query that lists all rows of the table.
    fn query() -> &'static str
        ensures text { result.now ≡ query_text name }
        ensures lists { (layout : AnyLayout) → has_table layout name ≡ true
            → (schema : Declared) → Begins layout schema
            → ListsTable schema (query_text name) (tree_in layout name) (query_columns name)
            (query_names name) }
        ensures asks { OnlyAsks (query_text name) }
        ensures determines { DeterminesRecords kept columns is_form front (query_columns name) };

    /// Returns whether the layout has the table.
    fn is_in(layout: Layout) -> bool
        ensures { result ≡ has_table layout name };
}

/// Reads all rows into records, in order. Returns `None` if a row does not have the form of a record.
///
/// Fails only if an allocation fails. This can happen while the function reads a row that satisfies
/// `R::may_allocate`, or while it stores the record of a row. All rows before the row at which the allocation fails
/// have the form of a record.
pub fn records_in<R: TableRow>(alloc: Global, rows: &[Row]) -> Result<Option<Vec<R>>, OutOfMemory>
    ensures returned { IfOk result (λ found. MatchOption found (¬ All R.is_form rows.now)
        (λ records. map R.columns records.items ≡ map R.front rows.now)) }
    ensures formed { IfOk result (λ found. IfSome found (λ _. All R.is_form rows.now)) }
    ensures memory { OnErr result (Allocates R.may_allocate R.is_form rows.now) }
{
    let mut records = Vec::new(alloc);
    for row in rows {
        let Some(record) = R::from_row(alloc, row)? else {
            return Ok(None);
        };
        records.push(record)?;
    }
    Ok(Some(records))
}
