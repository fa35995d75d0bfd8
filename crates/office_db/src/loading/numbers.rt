//! Tests the rowids of the tables of an office.
ghost use Rattle.std.specs.Prelude.{◌≡◌, ◌<◌, ◌<ℤ◌, false, map, IfOk, IfSome, IsTrue, OnOk};
ghost use Rattle.std.specs.List.Sorted.{IsPermutation};
ghost use Rattle.sqlite.specs.State.{HasCleanDisk};
ghost use Rattle.sqlite.specs.Held.{state};
ghost use Rattle.office_schema.specs.tables.Layouts.{table_count};
ghost use Rattle.office_schema.specs.tables.FirstTables.{Begins};
ghost use Rattle.office_schema.specs.tables.Listing.{listed};
ghost use Rattle.office_db.specs.loading.Numbers.{HaveRowids, AllHaveRowids, only_rowid, rowid_text, tree_of};
ghost use Rattle.office_db.specs.loading.Reading.{OnlyReads};

use office_schema::tables::layouts::Layout;
use sqlite::{Alter, Connection, Error, Row};

/// Returns whether the rowids of each table of the layout rise in the order in which the engine returns the rows. If
/// the result is `true`, no rowid occurs twice in a table. Any tables may follow those of the layout.
pub fn all_rowids_rise<S: Alter>(conn: &mut Connection<S>, layout: Layout) -> Result<bool, Error>
    requires { conn.old.in_transaction ≡ false }
    ensures outside { conn.new.in_transaction ≡ false }
    ensures reads { OnlyReads (state S.Store conn.old) (state S.Store conn.new) }
    ensures is_open { OnOk result (HasCleanDisk (state S.Store conn.new)
        → IsTrue (state S.Store conn.new).is_open) }
    ensures risen { IfOk result (λ rise. HasCleanDisk (state S.Store conn.new)
        → Begins layout (state S.Store conn.old).now.schema
        → IsTrue rise → AllHaveRowids layout (state S.Store conn.old).now.trees) }
{
    for place in 0..layout.tables() {
        let rows = rowids(conn, layout, place)?;
        if !do_rowids_rise(rows.as_slice()) {
            return Ok(false);
        }
    }
    Ok(true)
}

// Reads the rowids of a table, each as a row.
fn rowids<S: Alter>(
    conn: &mut Connection<S>,
    layout: Layout,
    place: usize,
) -> Result<Vec<Row>, Error>
    requires outside { conn.old.in_transaction ≡ false }
    requires known { place < table_count layout }
    ensures outside { conn.new.in_transaction ≡ false }
    ensures reads { OnlyReads (state S.Store conn.old) (state S.Store conn.new) }
    ensures is_open { OnOk result (HasCleanDisk (state S.Store conn.new)
        → IsTrue (state S.Store conn.new).is_open) }
    ensures shown { HasCleanDisk (state S.Store conn.new)
        → Begins layout (state S.Store conn.old).now.schema
        → IfOk result (λ rows. IsPermutation
        (map (listed only_rowid) ((state S.Store conn.old).now.trees (tree_of layout place)))
        rows.items) }
{
    // The proof needs these two lines: outside a transaction, an open connection shows what is committed.
    let outside = conn.is_autocommit();
    prove!(outside);
    let rows = conn.query_all(rowid_query(place), &[])?;
    Ok(rows)
}

// Returns the query for the rowids of the table at this place in the order of `docs/formats.md`. The query does not
// depend on the layout: a layout with n tables has the first n tables of that order, perhaps in another order.
fn rowid_query(place: usize) -> &'static str
    requires { place < 10 }
    ensures { result.now ≡ rowid_text place }
{
    match place {
        0 => "SELECT rowid FROM room ORDER BY rowid",
        1 => "SELECT rowid FROM person ORDER BY rowid",
        2 => "SELECT rowid FROM round ORDER BY rowid",
        3 => "SELECT rowid FROM choice ORDER BY rowid",
        4 => "SELECT rowid FROM word ORDER BY rowid",
        5 => "SELECT rowid FROM result ORDER BY rowid",
        6 => "SELECT rowid FROM move ORDER BY rowid",
        7 => "SELECT rowid FROM list ORDER BY rowid",
        8 => "SELECT rowid FROM grade ORDER BY rowid",
        _ => "SELECT rowid FROM going ORDER BY rowid",
    }
}

// Returns whether the first column of each row is a number, and greater than that of the row before.
fn do_rowids_rise(rows: &[Row]) -> bool
    ensures { IsTrue result → HaveRowids rows.now }
{
    let mut last = None;
    for row in rows {
        let Ok(number) = row.get(0) else {
            return false;
        };
        if !is_above(last, number) {
            return false;
        }
        last = Some(number);
    }
    true
}

// Returns whether the number is greater than the last one, if there is one.
fn is_above(last: Option<i64>, number: i64) -> bool
    ensures { IsTrue result → IfSome last (λ before. before <ℤ number) }
{
    match last {
        None => true,
        Some(before) => before < number,
    }
}
