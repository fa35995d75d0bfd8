//! Recreates the tables of an office in the layout that this program creates.
ghost use Rattle.std.specs.Prelude.{◌≡◌, false, None, Some, IfOk, IsTrue, OnErr, OnOk};
ghost use Rattle.std.specs.Option.{IfSome};
ghost use Rattle.sqlite.specs.Held.{state};
ghost use Rattle.sqlite.specs.State.{HasCleanDisk};
ghost use Rattle.office_state.specs.Office.Invariants.{IsLawful};
ghost use Rattle.office_state.specs.declared.office.Office.{Office as Books};
ghost use Rattle.office_schema.specs.rows.Tables.{Tables, own_version, rows_at};
ghost use Rattle.office_schema.specs.cells.WellFormed.{IsWellFormed};
ghost use Rattle.office_db.specs.loading.Numbers.{IsLaidOut};
ghost use Rattle.office_schema.specs.tables.Crashes.{LeavesOldOr};
ghost use Rattle.office_schema.specs.tables.Edits.{with_version};
ghost use Rattle.office_schema.specs.tables.Layouts.{version_of};
ghost use Rattle.office_schema.specs.tables.Refilling.{Migrates};
ghost use Rattle.office_schema.specs.tables.Steps.{Follows, IsIntact};
ghost use Rattle.office_schema.specs.tables.Tables.{HasTables, HoldsOffice};
ghost use Rattle.office_schema.specs.tables.InLayout.{HasTablesIn, HoldsOfficeIn};
ghost use Rattle.office_migration.specs.Inner.Renewed.{HoldsRecords, HoldsSameTables};
ghost use Rattle.office_migration.specs.Renewed.{CommitsRenewed};
ghost use Rattle.office_migration.specs.Versions.{IsOfVersion};

use crate::versions::is_of_version;
use office_db::loading::{held, read_records};
use office_schema::rows::OfficeRecords;
use office_schema::tables::layouts::Layout;
use office_schema::tables::refilling::migrate_tables;
use office_state::Office;
use sqlite::{Alter, Connection, Error, ErrorCode};
use std::alloc::Global;

/// Recreates the tables of an office in the layout that this program creates, in one transaction. `layout` is the
/// layout of the tables before the call. Returns the office. If the tables hold no lawful office of the version of
/// `layout`, returns `None` and changes nothing. Reads the rows twice: first to test them, then to copy them.
///
/// # Errors
///
/// Fails if the tables cannot be read or written, or if memory runs out. The tables are then unchanged, unless a
/// fault closed the connection or the disk failed to return what was written.
pub fn renewed_office<S: Alter>(
    alloc: Global,
    conn: &mut Connection<S>,
    layout: Layout,
) -> Result<Option<Office>, Error>
    requires { conn.old.in_transaction ≡ false }
    ensures outside { conn.new.in_transaction ≡ false }
    ensures follows { Follows (state S.Store conn.old) (state S.Store conn.new) }
    ensures is_open { OnOk result (HasCleanDisk (state S.Store conn.new)
        → IsTrue (state S.Store conn.new).is_open) }
    ensures lawful { IfOk result (λ found. IfSome found (λ office. IsLawful office)) }
    ensures kind { IfOk result (λ found. IfSome found (IsOfVersion (version_of layout))) }
    ensures renewed { IfOk result (λ found. HasCleanDisk (state S.Store conn.new)
        → IsLaidOut layout (state S.Store conn.old).now → IfSome found (λ office.
        HoldsOfficeIn layout (state S.Store conn.old).now office
        × IsWellFormed (rows_at (version_of layout) office)
        × HoldsOffice (state S.Store conn.new).now office)) }
    ensures found { IfOk result (λ found. HasCleanDisk (state S.Store conn.new) → (office : Books)
        → IsLawful office → IsWellFormed (rows_at (version_of layout) office)
        → IsOfVersion (version_of layout) office
        → HoldsOfficeIn layout (state S.Store conn.old).now office
        → (found ≡ Some office) × HoldsOffice (state S.Store conn.new).now office) }
    ensures none { IfOk result (λ found. found ≡ None → IsIntact (state S.Store conn.new)
        → (state S.Store conn.new).now ≡ (state S.Store conn.old).now) }
    ensures undone { OnErr result (IsIntact (state S.Store conn.new)
        → (state S.Store conn.new).now ≡ (state S.Store conn.old).now) }
    ensures crash { LeavesOldOr (CommitsRenewed layout (state S.Store conn.old).now)
        (state S.Store conn.old) (state S.Store conn.new) }
{
    let Some(office) = held(alloc, conn, layout)? else {
        return Ok(None);
    };
    if !is_of_version(&office, layout.version()) {
        return Ok(None);
    }
    renew_read(alloc, conn, layout)?;
    Ok(Some(office))
}

// Reads the rows of the tables, and recreates the tables with these rows.
fn renew_read<S: Alter>(
    alloc: Global,
    conn: &mut Connection<S>,
    layout: Layout,
) -> Result<(), Error>
    requires { conn.old.in_transaction ≡ false }
    ensures outside { conn.new.in_transaction ≡ false }
    ensures follows { Follows (state S.Store conn.old) (state S.Store conn.new) }
    ensures is_open { OnOk result (HasCleanDisk (state S.Store conn.new)
        → IsTrue (state S.Store conn.new).is_open) }
    ensures renewed { OnOk result (HasCleanDisk (state S.Store conn.new) → (tables : Tables)
        → HasTablesIn layout (state S.Store conn.old).now tables → IsWellFormed tables
        → HasTables (state S.Store conn.new).now (with_version own_version tables)) }
    ensures undone { OnErr result (IsIntact (state S.Store conn.new)
        → (state S.Store conn.new).now ≡ (state S.Store conn.old).now) }
    ensures crash { LeavesOldOr (HoldsSameTables layout (state S.Store conn.old).now)
        (state S.Store conn.old) (state S.Store conn.new) }
{
    let Some(records) = read_records(alloc, conn, layout)? else {
        return Err(Error::SqliteFailure(ErrorCode::DatabaseCorrupt));
    };
    renew(alloc, conn, layout, &records)?;
    Ok(())
}

// Recreates the tables in the layout that this program creates, with these rows, in one transaction.
fn renew<S: Alter>(
    alloc: Global,
    conn: &mut Connection<S>,
    layout: Layout,
    records: &OfficeRecords,
) -> Result<(), Error>
    requires { conn.old.in_transaction ≡ false }
    ensures outside { conn.new.in_transaction ≡ false }
    ensures follows { Follows (state S.Store conn.old) (state S.Store conn.new) }
    ensures made { OnOk result
        (Migrates layout records.now (state S.Store conn.old) (state S.Store conn.new)) }
    ensures is_open { OnOk result (HasCleanDisk (state S.Store conn.new)
        → IsTrue (state S.Store conn.new).is_open) }
    ensures undone { OnErr result (IsIntact (state S.Store conn.new)
        → (state S.Store conn.new).now ≡ (state S.Store conn.old).now) }
    ensures crash { LeavesOldOr (HoldsRecords layout records.now (state S.Store conn.old).now)
        (state S.Store conn.old) (state S.Store conn.new) }
{
    // The proof needs these two lines: outside a transaction, an open connection shows what is committed.
    let outside = conn.is_autocommit();
    prove!(outside);
    let mut tx = conn.transaction();
    migrate_tables(alloc, &mut tx, layout, records)?;
    tx.commit()?;
    Ok(())
}
