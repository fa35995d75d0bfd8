//! Reads the version of the office in a database.
ghost use Rattle.std.specs.Prelude.{◌≡◌, ◌≢◌, false, pos, map, Some, IfOk, IfSome, IsTrue, OnOk};
ghost use Rattle.office_schema.specs.rows.Tables.{own_version};
ghost use Rattle.std.specs.List.Sorted.{IsPermutation};
ghost use Rattle.sqlite.specs.State.{HasCleanDisk};
ghost use Rattle.sqlite.specs.Held.{state};
ghost use Rattle.office_db.specs.loading.Finding.{HoldsVersion, HoldsOtherVersion};
ghost use Rattle.office_schema.specs.tables.FirstTables.{BeginsOffice};
ghost use Rattle.office_schema.specs.tables.Listing.{listed};
ghost use Rattle.office_db.specs.loading.Reading.{OnlyReads};
ghost use Rattle.office_db.specs.loading.Versions.{IsOnly, only_version};

use sqlite::{Alter, Connection, Error, Row};

/// Reads the version in the row of table `round`. Returns `None` if the table does not have exactly one row.
/// Presupposes that the database begins with the first three tables of an office; any tables may follow them.
pub fn version_held<S: Alter>(conn: &mut Connection<S>) -> Result<Option<i64>, Error>
    requires { conn.old.in_transaction ≡ false }
    ensures outside { conn.new.in_transaction ≡ false }
    ensures reads { OnlyReads (state S.Store conn.old) (state S.Store conn.new) }
    ensures is_open { OnOk result (HasCleanDisk (state S.Store conn.new)
        → IsTrue (state S.Store conn.new).is_open) }
    ensures held { IfOk result (λ found. HasCleanDisk (state S.Store conn.new)
        → BeginsOffice (state S.Store conn.old).now.schema
        → IfSome found (HoldsVersion (state S.Store conn.old).now)) }
    ensures returned { IfOk result (λ found. HasCleanDisk (state S.Store conn.new)
        → BeginsOffice (state S.Store conn.old).now.schema
        → (version : _) → HoldsVersion (state S.Store conn.old).now version → found ≡ Some version) }
{
    let rows = versions(conn)?;
    version_in(rows.as_slice())
}

/// Reads the version in the row of table `round`, if it is not the version of this program. Returns `None` if it is,
/// or if the table does not have exactly one row. Presupposes that the database begins with the first three tables of
/// an office; any tables may follow them.
pub fn other_version<S: Alter>(conn: &mut Connection<S>) -> Result<Option<i64>, Error>
    requires { conn.old.in_transaction ≡ false }
    ensures outside { conn.new.in_transaction ≡ false }
    ensures reads { OnlyReads (state S.Store conn.old) (state S.Store conn.new) }
    ensures is_open { OnOk result (HasCleanDisk (state S.Store conn.new)
        → IsTrue (state S.Store conn.new).is_open) }
    ensures number { IfOk result (λ found. IfSome found (λ version. version ≢ pos own_version)) }
    ensures other { IfOk result (λ found. HasCleanDisk (state S.Store conn.new)
        → BeginsOffice (state S.Store conn.old).now.schema
        → IfSome found (HoldsOtherVersion (state S.Store conn.old).now)) }
    ensures returned { IfOk result (λ found. HasCleanDisk (state S.Store conn.new)
        → BeginsOffice (state S.Store conn.old).now.schema
        → (version : _) → HoldsOtherVersion (state S.Store conn.old).now version → found ≡ Some version) }
{
    let found = version_held(conn)?;
    Ok(unless_own(found))
}

// Returns `found`, or `None` if `found` is the version of this program.
fn unless_own(found: Option<i64>) -> Option<i64>
    ensures other { IfSome result (λ version. (found ≡ Some version) × (version ≢ pos own_version)) }
    ensures returned { (version : _) → found ≡ Some version → version ≢ pos own_version
        → result ≡ Some version }
{
    match found {
        Some(version) if version != 3 => Some(version),
        _ => None,
    }
}

// Reads the version in each row of table `round`.
fn versions<S: Alter>(conn: &mut Connection<S>) -> Result<Vec<Row>, Error>
    requires { conn.old.in_transaction ≡ false }
    ensures outside { conn.new.in_transaction ≡ false }
    ensures reads { OnlyReads (state S.Store conn.old) (state S.Store conn.new) }
    ensures is_open { OnOk result (HasCleanDisk (state S.Store conn.new)
        → IsTrue (state S.Store conn.new).is_open) }
    ensures shown { HasCleanDisk (state S.Store conn.new)
        → BeginsOffice (state S.Store conn.old).now.schema
        → IfOk result (λ rows. IsPermutation
        (map (listed only_version) ((state S.Store conn.old).now.trees 6)) rows.items) }
{
    // The proof needs these two lines: outside a transaction, an open connection shows what is committed.
    let outside = conn.is_autocommit();
    prove!(outside);
    let rows = conn.query_all("SELECT version FROM round", &[])?;
    Ok(rows)
}

// Returns the number in the first column if there is exactly one row. Otherwise returns `None`.
fn version_in(rows: &[Row]) -> Result<Option<i64>, Error>
    ensures held { IfOk result (λ found. IfSome found (IsOnly rows.now)) }
    ensures returned { IfOk result (λ found. (version : _) → IsOnly rows.now version
        → found ≡ Some version) }
{
    if rows.len() != 1 {
        return Ok(None);
    }
    let version: i64 = rows[0].get(0)?;
    Ok(Some(version))
}
