//! Finds the office in a database that the caller hands in.
ghost use Rattle.std.specs.Prelude.{◌≡◌, ◌⊎◌, false, Err, IfErr, IfOk, IsErrAnd, IsTrue, MatchResult, OnOk};
ghost use Rattle.sqlite.specs.Held.{state};
ghost use Rattle.sqlite.specs.State.{HasCleanDisk};
ghost use Rattle.office_state.specs.Office.Invariants.{IsLawful};
ghost use Rattle.office_state.specs.declared.office.Office.{Office as Books};
ghost use Rattle.office_schema.specs.rows.Tables.{own_version, rows_of};
ghost use Rattle.office_schema.specs.cells.WellFormed.{IsWellFormed};
ghost use Rattle.office_db.specs.loading.Numbers.{IsLaidOut};
ghost use Rattle.office_schema.specs.tables.Crashes.{LeavesNothingNew};
ghost use Rattle.office_schema.specs.tables.Layouts.{schema_of, version_of};
ghost use Rattle.office_schema.specs.tables.Steps.{Follows, IsIntact};
ghost use Rattle.office_schema.specs.tables.InLayout.{HoldsOfficeIn};
ghost use Rattle.office_schema.specs.declared.tables.layouts.Layout.{Layout as AnyLayout};
ghost use Rattle.office_db.specs.loading.Causes.{HasCause, HasCauseIn, IsAllowed, IsNotOwn, layout_fault};
ghost use Rattle.office_db.specs.loading.Finding.{AreWhole, HoldsOtherVersion, names_round};
ghost use Rattle.office_schema.specs.tables.FirstTables.{BeginsOffice};
ghost use Rattle.office_db.specs.loading.Reading.{OnlyReads};

use crate::loading::first_tables::begins_office;
use crate::loading::holding::held;
use crate::loading::layout::{declares_tables, layout_in, names_round};
use crate::loading::versions::other_version;
use office_schema::tables::layouts::Layout;
use office_state::Office;
use sqlite::{Alter, Connection};
use std::alloc::Global;

/// Why no office was found.
#[derive(Clone, Copy, Debug, PartialEq, Eq)]
pub enum FindFault {
    /// The database failed, memory ran out, the rowids of a table do not ascend, or the tables are those of an office
    /// in no known layout: they were created in an unknown order, or something else is declared next to them. If there
    /// is a view, or if the first three tables are not those of an office, it is `Unavailable` too, since the version
    /// is then unknown.
    Unavailable,
    /// Nothing has the name of table `round`; or a table of an office besides the first three is absent or declared in
    /// another way; or the tables do not hold the rows of a lawful office of this program's version. This includes the
    /// tables of an earlier version, unless the row of table `round` holds a version other than this program's.
    NotAnOffice,
    /// The row of table `round` holds the version in this fault, which is not the version of this program. Any tables
    /// may follow the first three.
    OtherVersion(i64),
}

/// An office that `find` found in a database.
#[derive(Drop)]
pub struct Found {
    pub office: Office,
    /// The layout of the office's tables. The version of this layout is the version of this program.
    pub layout: Layout,
}

/// Finds the lawful office whose rows the tables hold, and the layout of the tables. Compares the whole declaration of
/// each table. Changes no table. On `Ok` the connection is open.
///
/// # Errors
///
/// `NotAnOffice` if nothing has the name of table `round`. Otherwise:
///
/// - `OtherVersion` only if the row of table `round` holds the version in the fault, and this is not the version of
///   this program. Any tables may follow the first three.
/// - `NotAnOffice` only if the row of table `round` holds no version other than this program's. Either the schema is in
///   a known layout, but the tables do not hold the rows of a lawful office; or a table is absent or declared in
///   another way than an office's.
/// - `Unavailable` if the database fails, if memory runs out, or if the rowids of a table do not ascend. `find` also
///   returns it if all tables of an office are there, but in no known layout, and if the first three tables are not
///   `room`, `person` and `round` as an office declares them, each in the tree that all layouts give it.
///
/// `find` runs no statement if there is a view. It runs none either if the first three tables are not an office's.
pub fn find<S: Alter>(alloc: Global, conn: &mut Connection<S>) -> Result<Found, FindFault>
    requires { conn.old.in_transaction ≡ false }
    ensures outside { conn.new.in_transaction ≡ false }
    ensures follows { Follows (state S.Store conn.old) (state S.Store conn.new) }
    ensures same { IsIntact (state S.Store conn.new)
        → (state S.Store conn.new).now ≡ (state S.Store conn.old).now }
    ensures crash { LeavesNothingNew (state S.Store conn.old) (state S.Store conn.new) }
    ensures is_open { OnOk result (HasCleanDisk (state S.Store conn.new)
        → IsTrue (state S.Store conn.new).is_open) }
    ensures lawful { IfOk result (λ found. IsLawful found.office) }
    ensures held { IfOk result (λ found. HasCleanDisk (state S.Store conn.new)
        → AreWhole found.layout (state S.Store conn.old).now.trees
        → HoldsOfficeIn found.layout (state S.Store conn.old).now found.office
        × IsWellFormed (rows_of found.office)) }
    ensures laid { IfOk result (λ found.
        (state S.Store conn.old).now.schema ≡ schema_of found.layout) }
    ensures own { IfOk result (λ found. version_of found.layout ≡ own_version) }
    ensures cause { IfErr result (λ fault. HasCleanDisk (state S.Store conn.new)
        → HasCause (state S.Store conn.old).now fault) }
    ensures allowed { IfErr result (IsAllowed (state S.Store conn.old).now.schema) }
    ensures absent { names_round (state S.Store conn.old).now.schema ≡ false
        → (result ≡ Err FindFault.NotAnOffice) × (conn.new ≡ conn.old) }
    ensures unread { ¬ BeginsOffice (state S.Store conn.old).now.schema → conn.new ≡ conn.old }
    ensures found { HasCleanDisk (state S.Store conn.new) → (layout : AnyLayout)
        → version_of layout ≡ own_version → (office : Books) → IsLawful office
        → IsWellFormed (rows_of office) → HoldsOfficeIn layout (state S.Store conn.old).now office
        → MatchResult result (λ found. (found.office ≡ office) × (found.layout ≡ layout))
        (λ fault. fault ≡ FindFault.Unavailable) }
    ensures other { HasCleanDisk (state S.Store conn.new) → (version : _)
        → BeginsOffice (state S.Store conn.old).now.schema
        → HoldsOtherVersion (state S.Store conn.old).now version
        → IsErrAnd result (λ fault.
        (fault ≡ FindFault.Unavailable) ⊎ (fault ≡ FindFault.OtherVersion version)) }
{
    if !names_round(conn.schema()) {
        return Err(FindFault::NotAnOffice);
    }
    let Some(layout) = layout_in(conn.schema()) else {
        return Err(unknown_layout_fault(conn));
    };
    match read(alloc, conn, layout) {
        Ok(office) => Ok(Found { office, layout }),
        Err(fault) => Err(fault),
    }
}

// Returns the fault for a schema that is in no known layout.
fn unknown_layout_fault<S: Alter>(conn: &mut Connection<S>) -> FindFault
    requires { conn.old.in_transaction ≡ false }
    ensures outside { conn.new.in_transaction ≡ false }
    ensures reads { OnlyReads (state S.Store conn.old) (state S.Store conn.new) }
    ensures cause { HasCleanDisk (state S.Store conn.new)
        → HasCause (state S.Store conn.old).now result }
    ensures allowed { IsAllowed (state S.Store conn.old).now.schema result }
    ensures unread { ¬ BeginsOffice (state S.Store conn.old).now.schema → conn.new ≡ conn.old }
    ensures other { HasCleanDisk (state S.Store conn.new) → (version : _)
        → BeginsOffice (state S.Store conn.old).now.schema
        → HoldsOtherVersion (state S.Store conn.old).now version
        → (result ≡ FindFault.Unavailable) ⊎ (result ≡ FindFault.OtherVersion version) }
{
    if !begins_office(conn.schema()) {
        return FindFault::Unavailable;
    }
    let all_there = declares_tables(conn.schema(), Layout::Own);
    match other_version(conn) {
        Ok(found) => layout_fault(all_there, found),
        Err(_) => FindFault::Unavailable,
    }
}

// Returns `OtherVersion` if another version was found. If not, returns `Unavailable` if all tables are there, and
// `NotAnOffice` if one is absent or declared in another way.
fn layout_fault(all_there: bool, found: Option<i64>) -> FindFault
    ensures { result ≡ layout_fault all_there found }
{
    match found {
        Some(version) => FindFault::OtherVersion(version),
        None if all_there => FindFault::Unavailable,
        None => FindFault::NotAnOffice,
    }
}

// Reads the office from a database that has exactly the tables of the layout.
fn read<S: Alter>(
    alloc: Global,
    conn: &mut Connection<S>,
    layout: Layout,
) -> Result<Office, FindFault>
    requires { conn.old.in_transaction ≡ false }
    ensures outside { conn.new.in_transaction ≡ false }
    ensures reads { OnlyReads (state S.Store conn.old) (state S.Store conn.new) }
    ensures is_open { OnOk result (HasCleanDisk (state S.Store conn.new)
        → IsTrue (state S.Store conn.new).is_open) }
    ensures lawful { IfOk result IsLawful }
    ensures own { OnOk result (version_of layout ≡ own_version) }
    ensures held { IfOk result (λ office. HasCleanDisk (state S.Store conn.new)
        → IsLaidOut layout (state S.Store conn.old).now
        → HoldsOfficeIn layout (state S.Store conn.old).now office × IsWellFormed (rows_of office)) }
    ensures cause { IfErr result (λ fault. HasCleanDisk (state S.Store conn.new)
        → (state S.Store conn.old).now.schema ≡ schema_of layout
        → HasCauseIn layout (state S.Store conn.old).now fault) }
    ensures number { IfErr result IsNotOwn }
    ensures found { HasCleanDisk (state S.Store conn.new) → version_of layout ≡ own_version
        → (office : Books) → IsLawful office → IsWellFormed (rows_of office)
        → HoldsOfficeIn layout (state S.Store conn.old).now office
        → MatchResult result (λ found. found ≡ office) (λ fault. fault ≡ FindFault.Unavailable) }
    ensures other { HasCleanDisk (state S.Store conn.new) → (version : _)
        → BeginsOffice (state S.Store conn.old).now.schema
        → HoldsOtherVersion (state S.Store conn.old).now version
        → IsErrAnd result (λ fault.
        (fault ≡ FindFault.Unavailable) ⊎ (fault ≡ FindFault.OtherVersion version)) }
{
    match other_version(conn) {
        Ok(None) => {}
        Ok(Some(version)) => return Err(FindFault::OtherVersion(version)),
        Err(_) => return Err(FindFault::Unavailable),
    }
    if layout.version() != 3 {
        return Err(FindFault::NotAnOffice);
    }
    match held(alloc, conn, layout) {
        Ok(Some(office)) => Ok(office),
        Ok(None) => Err(FindFault::NotAnOffice),
        Err(_) => Err(FindFault::Unavailable),
    }
}
