//! Reads the office that a database holds, and tests the rowids of its tables.
ghost use Rattle.std.specs.Prelude.{◌≡◌, false, Some, IfOk, IsTrue, OnOk};
ghost use Rattle.std.specs.Option.{IfSome};
ghost use Rattle.sqlite.specs.Held.{state};
ghost use Rattle.sqlite.specs.State.{HasCleanDisk};
ghost use Rattle.office_state.specs.Office.Invariants.{IsLawful};
ghost use Rattle.office_state.specs.declared.office.Office.{Office as Books};
ghost use Rattle.office_schema.specs.rows.Tables.{rows_at};
ghost use Rattle.office_schema.specs.cells.WellFormed.{IsWellFormed};
ghost use Rattle.office_schema.specs.tables.Layouts.{version_of};
ghost use Rattle.office_schema.specs.tables.InLayout.{HoldsOfficeIn};
ghost use Rattle.office_schema.specs.tables.FirstTables.{HoldsOfficeFirst};
ghost use Rattle.office_db.specs.loading.Numbers.{IsLaidFirst, IsLaidOut};
ghost use Rattle.office_db.specs.loading.Reading.{OnlyReads};

use crate::loading::numbers::all_rowids_rise;
use crate::loading::reading::load;
use office_schema::tables::layouts::Layout;
use office_state::Office;
use sqlite::{Alter, Connection, Error, ErrorCode};
use std::alloc::Global;

/// Reads the lawful office whose rows the tables of the layout hold. Any tables may follow those of the layout.
/// Returns `None` only if the tables hold no lawful office that has every text in its grammar and every number in its
/// range. Changes no table. On `Ok` the connection is open.
///
/// # Errors
///
/// Fails if the database fails or memory runs out. Also fails if the rowids of a table do not rise in the order of
/// reading: the rowids of every table that the engine stores rise, so the database is then corrupt.
pub fn held<S: Alter>(
    alloc: Global,
    conn: &mut Connection<S>,
    layout: Layout,
) -> Result<Option<Office>, Error>
    requires { conn.old.in_transaction ≡ false }
    ensures outside { conn.new.in_transaction ≡ false }
    ensures reads { OnlyReads (state S.Store conn.old) (state S.Store conn.new) }
    ensures is_open { OnOk result (HasCleanDisk (state S.Store conn.new)
        → IsTrue (state S.Store conn.new).is_open) }
    ensures lawful { IfOk result (λ found. IfSome found (λ office. IsLawful office)) }
    ensures held { IfOk result (λ found. HasCleanDisk (state S.Store conn.new)
        → IsLaidOut layout (state S.Store conn.old).now
        → IfSome found (λ office. HoldsOfficeIn layout (state S.Store conn.old).now office)) }
    ensures well_formed { IfOk result (λ found. HasCleanDisk (state S.Store conn.new)
        → IsLaidOut layout (state S.Store conn.old).now
        → IfSome found (λ office. IsWellFormed (rows_at (version_of layout) office))) }
    ensures held_first { IfOk result (λ found. HasCleanDisk (state S.Store conn.new)
        → IsLaidFirst layout (state S.Store conn.old).now
        → IfSome found (λ office. HoldsOfficeFirst layout (state S.Store conn.old).now office)) }
    ensures well_formed_first { IfOk result (λ found. HasCleanDisk (state S.Store conn.new)
        → IsLaidFirst layout (state S.Store conn.old).now
        → IfSome found (λ office. IsWellFormed (rows_at (version_of layout) office))) }
    ensures found { IfOk result (λ found. HasCleanDisk (state S.Store conn.new) → (office : Books)
        → IsLawful office → IsWellFormed (rows_at (version_of layout) office)
        → HoldsOfficeIn layout (state S.Store conn.old).now office → found ≡ Some office) }
    ensures first { IfOk result (λ found. HasCleanDisk (state S.Store conn.new) → (office : Books)
        → IsLawful office → IsWellFormed (rows_at (version_of layout) office)
        → HoldsOfficeFirst layout (state S.Store conn.old).now office → found ≡ Some office) }
{
    let found = load(alloc, conn, layout)?;
    if !all_rowids_rise(conn, layout)? {
        return Err(Error::SqliteFailure(ErrorCode::DatabaseCorrupt));
    }
    Ok(found)
}
