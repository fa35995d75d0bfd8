//! Reads the records of one table.
ghost use Rattle.std.specs.Prelude.{◌≡◌, true, false, List, map, IfOk, IfSome, IsTrue, MatchOption, OnOk};
ghost use Rattle.std.specs.List.{All};
ghost use Rattle.std.specs.List.Sorted.{IsPermutation};
ghost use Rattle.sqlite.specs.State.{HasCleanDisk};
ghost use Rattle.sqlite.specs.Held.{state};
ghost use Rattle.office_schema.specs.tables.FirstTables.{Begins};
ghost use Rattle.office_schema.specs.tables.Holds.{Holds};
ghost use Rattle.office_schema.specs.tables.Listing.{ShowRecords, listed};
ghost use Rattle.office_schema.specs.tables.TableQueries.{has_table, query_columns, tree_in};
ghost use Rattle.office_schema.specs.tables.Tables.{HoldsIf};
ghost use Rattle.office_db.specs.loading.Reading.{OnlyReads, ShowIf};

use office_schema::tables::layouts::Layout;
use office_schema::tables::table_rows::{TableRow, records_in};
use sqlite::{Alter, Connection, Error, ErrorCode};
use std::alloc::Global;

/// Reads the records of a table, in some order. Returns `None` if a row does not have the form of a record. On `Ok`
/// the connection is open.
pub fn table_records<R: TableRow, S: Alter>(
    alloc: Global,
    conn: &mut Connection<S>,
    layout: Layout,
) -> Result<Option<Vec<R>>, Error>
    requires outside { conn.old.in_transaction ≡ false }
    requires known { has_table layout R.name ≡ true }
    ensures outside { conn.new.in_transaction ≡ false }
    ensures reads { OnlyReads (state S.Store conn.old) (state S.Store conn.new) }
    ensures is_open { OnOk result (HasCleanDisk (state S.Store conn.new)
        → IsTrue (state S.Store conn.new).is_open) }
    ensures returned { HasCleanDisk (state S.Store conn.new)
        → Begins layout (state S.Store conn.old).now.schema
        → IfOk result (λ found. MatchOption found
        (¬ All R.is_form (map (listed (query_columns R.name))
        ((state S.Store conn.old).now.trees (tree_in layout R.name))))
        (λ read. IsPermutation (map (listed (query_columns R.name))
        ((state S.Store conn.old).now.trees (tree_in layout R.name)))
        (map R.columns read.items))) }
    ensures shown { HasCleanDisk (state S.Store conn.new)
        → Begins layout (state S.Store conn.old).now.schema
        → IfOk result (λ found. IfSome found (λ read. ShowRecords R.columns R.is_form (query_columns R.name)
        ((state S.Store conn.old).now.trees (tree_in layout R.name)) read.items)) }
    ensures found { HasCleanDisk (state S.Store conn.new)
        → Begins layout (state S.Store conn.old).now.schema
        → IfOk result (λ found. (records : List R)
        → Holds R.kept ((state S.Store conn.old).now.trees (tree_in layout R.name)) records
        → All R.is_form (map R.columns records)
        → MatchOption found ⊥ (λ read. IsPermutation records read.items)) }
{
    // The proof needs these two lines: outside a transaction, an open connection shows what is committed.
    let outside = conn.is_autocommit();
    prove!(outside);
    let rows = conn.query_all(R::query(), &[])?;
    match records_in(alloc, rows.as_slice()) {
        Ok(found) => Ok(found),
        Err(_) => Err(Error::SqliteFailure(ErrorCode::OutOfMemory)),
    }
}

/// Reads the records of a table, in some order, or returns an empty vector if the layout does not have the table.
/// Returns `None` if a row does not have the form of a record. On `Ok`, a connection that was open is still open.
pub fn records_if_there<R: TableRow, S: Alter>(
    alloc: Global,
    conn: &mut Connection<S>,
    layout: Layout,
) -> Result<Option<Vec<R>>, Error>
    requires { conn.old.in_transaction ≡ false }
    ensures outside { conn.new.in_transaction ≡ false }
    ensures reads { OnlyReads (state S.Store conn.old) (state S.Store conn.new) }
    ensures is_open { OnOk result (HasCleanDisk (state S.Store conn.new)
        → IsTrue (state S.Store conn.old).is_open → IsTrue (state S.Store conn.new).is_open) }
    ensures shown { HasCleanDisk (state S.Store conn.new)
        → Begins layout (state S.Store conn.old).now.schema
        → IfOk result (λ found. IfSome found (λ read. ShowIf (has_table layout R.name) R.columns R.is_form
        (query_columns R.name) ((state S.Store conn.old).now.trees (tree_in layout R.name)) read.items)) }
    ensures found { HasCleanDisk (state S.Store conn.new)
        → Begins layout (state S.Store conn.old).now.schema
        → IfOk result (λ found. (records : List R)
        → HoldsIf (has_table layout R.name) R.kept
        ((state S.Store conn.old).now.trees (tree_in layout R.name)) records
        → All R.is_form (map R.columns records)
        → MatchOption found ⊥ (λ read. IsPermutation records read.items)) }
{
    if R::is_in(layout) {
        table_records(alloc, conn, layout)
    } else {
        Ok(Some(Vec::new(alloc)))
    }
}
