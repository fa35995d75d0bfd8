//! Reads the office from its tables.
ghost use Rattle.std.specs.Prelude.{◌≡◌, true, false, List, map, Some, IfOk, IsTrue, MatchOption, OnOk};
ghost use Rattle.std.specs.List.{All};
ghost use Rattle.std.specs.List.Sorted.{IsPermutation};
ghost use Rattle.std.specs.Option.{IfSome};
ghost use Rattle.sqlite.specs.Held.{state};
ghost use Rattle.sqlite.specs.State.{HasCleanDisk};
ghost use Rattle.office_state.specs.Office.Invariants.{IsLawful};
ghost use Rattle.office_state.specs.declared.office.Office.{Office as Books};
ghost use Rattle.office_schema.specs.rows.ReadsOffice.{AreRecordsOf};
ghost use Rattle.office_schema.specs.rows.Tables.{Tables, rows_at};
ghost use Rattle.office_schema.specs.cells.WellFormed.{IsWellFormed};
ghost use Rattle.office_schema.specs.tables.Crashes.{LeavesNothingNew};
ghost use Rattle.office_schema.specs.tables.Holds.{Holds};
ghost use Rattle.office_schema.specs.tables.Layouts.{version_of};
ghost use Rattle.office_schema.specs.tables.Steps.{Follows, IsIntact};
ghost use Rattle.office_schema.specs.tables.TableQueries.{has_table, query_columns, tree_in};
ghost use Rattle.office_schema.specs.tables.InLayout.{HasTablesIn, HoldsOfficeIn};
ghost use Rattle.office_schema.specs.tables.FirstTables.{Begins, HasTablesFirst, HoldsOfficeFirst};
ghost use Rattle.office_schema.specs.tables.Listing.{ShowRecords};
ghost use Rattle.office_db.specs.loading.Reading.{AreShown, OnlyReads};

use crate::loading::listed::{records_if_there, table_records};
use office_schema::rows::{OfficeRecords, read_office};
use office_schema::tables::layouts::Layout;
use office_schema::tables::table_rows::TableRow;
use office_state::Office;
use sqlite::{Alter, Connection, Error, ErrorCode};
use std::alloc::Global;

/// Reads the lawful office whose rows the tables of the layout hold. Returns `None` if the tables do not hold the
/// rows of a lawful office, or if a text is not in its grammar or a number not in its range. Reads each table once.
/// Changes no table, even on an error.
///
/// # Errors
///
/// Fails if the database fails or memory runs out.
pub fn load<S: Alter>(
    alloc: Global,
    conn: &mut Connection<S>,
    layout: Layout,
) -> Result<Option<Office>, Error>
    requires { conn.old.in_transaction ≡ false }
    ensures outside { conn.new.in_transaction ≡ false }
    ensures follows { Follows (state S.Store conn.old) (state S.Store conn.new) }
    ensures is_open { OnOk result (HasCleanDisk (state S.Store conn.new)
        → IsTrue (state S.Store conn.new).is_open) }
    ensures same { IsIntact (state S.Store conn.new)
        → (state S.Store conn.new).now ≡ (state S.Store conn.old).now }
    ensures crash { LeavesNothingNew (state S.Store conn.old) (state S.Store conn.new) }
    ensures lawful { IfOk result (λ found. IfSome found (λ office. IsLawful office)) }
    ensures shown { IfOk result (λ found. HasCleanDisk (state S.Store conn.new)
        → Begins layout (state S.Store conn.old).now.schema
        → IfSome found (λ office. AreShown layout (state S.Store conn.old).now.trees
        (rows_at (version_of layout) office))) }
    ensures found { IfOk result (λ found. HasCleanDisk (state S.Store conn.new) → (office : Books)
        → IsLawful office → IsWellFormed (rows_at (version_of layout) office)
        → HoldsOfficeIn layout (state S.Store conn.old).now office → found ≡ Some office) }
    ensures first { IfOk result (λ found. HasCleanDisk (state S.Store conn.new) → (office : Books)
        → IsLawful office → IsWellFormed (rows_at (version_of layout) office)
        → HoldsOfficeFirst layout (state S.Store conn.old).now office → found ≡ Some office) }
{
    let Some(records) = read_records(alloc, conn, layout)? else {
        return Ok(None);
    };
    match read_office(alloc, records, layout.version()) {
        Ok(found) => Ok(found),
        Err(_) => Err(Error::SqliteFailure(ErrorCode::OutOfMemory)),
    }
}

/// Reads the records of all tables of the layout. Returns `None` if a row does not have the form of its table's
/// records. Changes no table.
#[tactic(auto, using(crate::proofs::found_offices::Following::reads_then))]
pub fn read_records<S: Alter>(
    alloc: Global,
    conn: &mut Connection<S>,
    layout: Layout,
) -> Result<Option<OfficeRecords>, Error>
    requires { conn.old.in_transaction ≡ false }
    ensures outside { conn.new.in_transaction ≡ false }
    ensures reads { OnlyReads (state S.Store conn.old) (state S.Store conn.new) }
    ensures is_open { OnOk result (HasCleanDisk (state S.Store conn.new)
        → IsTrue (state S.Store conn.new).is_open) }
    ensures shown { IfOk result (λ found. HasCleanDisk (state S.Store conn.new)
        → Begins layout (state S.Store conn.old).now.schema
        → IfSome found (λ records. (tables : Tables) → AreRecordsOf tables records
        → AreShown layout (state S.Store conn.old).now.trees tables)) }
    ensures found { IfOk result (λ found. HasCleanDisk (state S.Store conn.new) → (tables : Tables)
        → HasTablesIn layout (state S.Store conn.old).now tables → IsWellFormed tables
        → MatchOption found ⊥ (AreRecordsOf tables)) }
    ensures first { IfOk result (λ found. HasCleanDisk (state S.Store conn.new) → (tables : Tables)
        → HasTablesFirst layout (state S.Store conn.old).now tables → IsWellFormed tables
        → MatchOption found ⊥ (AreRecordsOf tables)) }
{
    let Some((rooms, people)) = read_two(alloc, conn, layout)? else {
        return Ok(None);
    };
    let Some((rounds, choices)) = read_two(alloc, conn, layout)? else {
        return Ok(None);
    };
    let Some((words, results)) = read_two(alloc, conn, layout)? else {
        return Ok(None);
    };
    let Some((moves, lists)) = read_two(alloc, conn, layout)? else {
        return Ok(None);
    };
    let Some(grades) = records_if_there(alloc, conn, layout)? else {
        return Ok(None);
    };
    let Some(going) = records_if_there(alloc, conn, layout)? else {
        return Ok(None);
    };
    Ok(Some(OfficeRecords {
        rooms,
        people,
        rounds,
        choices,
        words,
        results,
        moves,
        lists,
        grades,
        going,
    }))
}

// Reads the records of two tables. Returns `None` if a row of one of them does not have the form of its table's
// records.
#[tactic(auto, using(crate::proofs::found_offices::Following::reads_then))]
fn read_two<A: TableRow, B: TableRow, S: Alter>(
    alloc: Global,
    conn: &mut Connection<S>,
    layout: Layout,
) -> Result<Option<(Vec<A>, Vec<B>)>, Error>
    requires outside { conn.old.in_transaction ≡ false }
    requires first { has_table layout A.name ≡ true }
    requires second { has_table layout B.name ≡ true }
    ensures outside { conn.new.in_transaction ≡ false }
    ensures reads { OnlyReads (state S.Store conn.old) (state S.Store conn.new) }
    ensures is_open { OnOk result (HasCleanDisk (state S.Store conn.new)
        → IsTrue (state S.Store conn.new).is_open) }
    ensures shown { IfOk result (λ found. HasCleanDisk (state S.Store conn.new)
        → Begins layout (state S.Store conn.old).now.schema
        → IfSome found (λ two.
        ShowRecords A.columns A.is_form (query_columns A.name)
        ((state S.Store conn.old).now.trees (tree_in layout A.name)) two.0.items
        × ShowRecords B.columns B.is_form (query_columns B.name)
        ((state S.Store conn.old).now.trees (tree_in layout B.name)) two.1.items)) }
    ensures found { IfOk result (λ found. HasCleanDisk (state S.Store conn.new)
        → Begins layout (state S.Store conn.old).now.schema
        → (first : List A) (second : List B)
        → Holds A.kept ((state S.Store conn.old).now.trees (tree_in layout A.name)) first
        → Holds B.kept ((state S.Store conn.old).now.trees (tree_in layout B.name)) second
        → All A.is_form (map A.columns first) → All B.is_form (map B.columns second)
        → MatchOption found ⊥
        (λ two. IsPermutation first two.0.items × IsPermutation second two.1.items)) }
{
    let Some(first) = table_records(alloc, conn, layout)? else {
        return Ok(None);
    };
    let Some(second) = table_records(alloc, conn, layout)? else {
        return Ok(None);
    };
    Ok(Some((first, second)))
}
