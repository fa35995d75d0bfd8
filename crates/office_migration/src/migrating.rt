//! Migrates the tables of an office of an earlier version to the version of this program.
ghost use Rattle.std.specs.Prelude.{◌≡◌, ◌≢◌, ◌⊎◌, ◌<◌, ◌≤◌, false, pos, codes, None as nothing, Err, Decides};
ghost use Rattle.std.specs.Prelude.{IfErr, IfOk, IfSome, IsErrAnd, IsTrue, MatchResult, OnErr, OnOk};
ghost use Rattle.sqlite.specs.Held.{state};
ghost use Rattle.sqlite.specs.State.{HasCleanDisk};
ghost use Rattle.office_state.specs.Office.Invariants.{IsLawful};
ghost use Rattle.office_state.specs.declared.office.Office.{Office as Books};
ghost use Rattle.office_schema.specs.rows.Tables.{rows_at};
ghost use Rattle.office_schema.specs.cells.WellFormed.{IsWellFormed};
ghost use Rattle.office_schema.specs.tables.Crashes.{LeavesOldOr};
ghost use Rattle.office_schema.specs.tables.Layouts.{schema_of, version_of};
ghost use Rattle.office_schema.specs.tables.Steps.{Follows, IsIntact};
ghost use Rattle.office_schema.specs.tables.Tables.{HoldsOffice};
ghost use Rattle.office_schema.specs.tables.InLayout.{HoldsOfficeIn};
ghost use Rattle.office_schema.specs.declared.tables.layouts.Layout.{Layout as AnyLayout};
ghost use Rattle.office_db.specs.loading.Finding.{AreWhole, DeclaresTables, HoldsVersion, names_round};
ghost use Rattle.office_db.specs.loading.Reading.{OnlyReads};
ghost use Rattle.office_migration.specs.Causes.{HasCause, HoldsEarlier, HoldsLayoutVersion, IsAllowed, IsVersionFault};
ghost use Rattle.office_migration.specs.Causes.{AreRowsAsStated, StatesVersion, HoldsEarlierFirst};
ghost use Rattle.office_schema.specs.tables.FirstTables.{BeginsOffice};
ghost use Rattle.office_migration.specs.Names.{uses_missing_name, takes_name};
ghost use Rattle.office_migration.specs.Renewed.{CommitsMigrated};
ghost use Rattle.office_migration.specs.Versions.{HasEarlierLayout, IsEarlier, IsNotEarlier, IsOfVersion};
ghost use Rattle.sqlite_catalog.specs.Change.{is_used};

use crate::renewing::renewed_office;
use crate::taken::refused_for_name;
use office_db::loading::first_tables::begins_office;
use office_db::loading::layout::{declares_tables, layout_in, names_round};
use office_db::loading::versions::version_held;
use office_schema::tables::layouts::Layout;
use office_state::Office;
use sqlite::{Alter, Connection};
use sqlite_catalog::layout::is_used;
use sqlite_schema::schema::Schema;
use std::alloc::Global;

/// Why a migration failed.
#[derive(Clone, Copy, Debug, PartialEq, Eq, Drop)]
pub enum MigrateFault {
    /// The database failed, memory ran out, the tables are in no known layout, or the version in table `round` is not
    /// an integer.
    Unavailable,
    /// The row of table `round` holds this version, which is neither 1 nor 2.
    OtherVersion(i64),
    /// Nothing has the name of table `round`; or a table of the version in table `round` is absent or declared in
    /// another way than an office's; or the first tables of the schema do not hold the rows of an office of version 1
    /// or 2.
    NotAnOffice,
    /// Something has the name of a table that the version in table `round` lacks, so the migration cannot create that
    /// table. If the migration finds that the rows are wrong too, it returns `NotAnOffice` instead.
    AlreadyThere,
}

/// Migrates the tables of an office of version 1 or 2 to the version of this program, in one transaction. Returns the
/// office that the tables hold. The office has no leavers, and it has no grades if its version was 1.
///
/// The call compares the whole declaration of each table.
///
/// # Errors
///
/// The fault is the first of these that applies:
///
/// - `NotAnOffice` if nothing has the name of table `round`.
/// - `Unavailable` if there is a view, or if the first three tables are not `room`, `person` and `round` as an office
///   declares them, each in the tree where an office keeps it. Triggers, and tables that the engine does not
///   understand, count as views. In this case and in the first one, no statement has run.
/// - `NotAnOffice` if table `round` does not have exactly one row.
/// - `Unavailable` if the version in this row is not an integer.
/// - `OtherVersion` if the version in this row is neither 1 nor 2.
/// - `NotAnOffice` if a table of the version in this row is absent or declared in another way than an office's.
/// - `NotAnOffice` or `AlreadyThere` if something has the name of a table that the version in this row lacks. Version
///   1 lacks `grade` and `going`, and version 2 lacks `going`. The fault is `NotAnOffice` if the schema begins with
///   the tables of a layout of that version, but these tables do not hold the rows of an office of that version.
///   Otherwise it is `AlreadyThere`.
/// - `Unavailable` if the tables are in no known layout.
/// - `NotAnOffice` if the tables do not hold the rows of an office of the version in table `round`.
///
/// The call also returns `Unavailable` if the database fails or memory runs out, except in the first case: there it
/// neither reads the database nor allocates.
///
/// On an error the tables are unchanged, unless a fault closed the connection or the disk failed to return what was
/// written.
pub fn migrate<S: Alter>(alloc: Global, conn: &mut Connection<S>) -> Result<Office, MigrateFault>
    requires { conn.old.in_transaction ≡ false }
    ensures outside { conn.new.in_transaction ≡ false }
    ensures follows { Follows (state S.Store conn.old) (state S.Store conn.new) }
    ensures is_open { OnOk result (HasCleanDisk (state S.Store conn.new)
        → IsTrue (state S.Store conn.new).is_open) }
    ensures lawful { IfOk result IsLawful }
    ensures laid { OnOk result (HasEarlierLayout (state S.Store conn.old).now.schema) }
    ensures stated { OnOk result (HasCleanDisk (state S.Store conn.new)
        → HoldsLayoutVersion (state S.Store conn.old).now) }
    ensures migrated { IfOk result (λ office. HasCleanDisk (state S.Store conn.new)
        → (layout : AnyLayout) → (state S.Store conn.old).now.schema ≡ schema_of layout
        → AreWhole layout (state S.Store conn.old).now.trees
        → IsOfVersion (version_of layout) office
        × HoldsOfficeIn layout (state S.Store conn.old).now office
        × IsWellFormed (rows_at (version_of layout) office)
        × HoldsOffice (state S.Store conn.new).now office) }
    ensures undone { OnErr result (IsIntact (state S.Store conn.new)
        → (state S.Store conn.new).now ≡ (state S.Store conn.old).now) }
    ensures crash { LeavesOldOr (CommitsMigrated (state S.Store conn.old).now)
        (state S.Store conn.old) (state S.Store conn.new) }
    ensures cause { IfErr result (λ fault. HasCleanDisk (state S.Store conn.new)
        → HasCause (state S.Store conn.old).now fault) }
    ensures allowed { IfErr result (IsAllowed (state S.Store conn.old).now.schema) }
    ensures absent { names_round (state S.Store conn.old).now.schema ≡ false
        → (result ≡ Err MigrateFault.NotAnOffice) × (conn.new ≡ conn.old) }
    ensures unread { ¬ BeginsOffice (state S.Store conn.old).now.schema → conn.new ≡ conn.old }
    ensures accepts { HasCleanDisk (state S.Store conn.new) → (layout : AnyLayout) → (office : Books)
        → HoldsEarlier layout (state S.Store conn.old).now office
        → MatchResult result
        (λ found. (found ≡ office) × HoldsOffice (state S.Store conn.new).now office)
        (λ fault. fault ≡ MigrateFault.Unavailable) }
    ensures taken { HasCleanDisk (state S.Store conn.new) → (layout : AnyLayout) → (office : Books)
        → HoldsEarlierFirst layout (state S.Store conn.old).now office
        → IsTrue (uses_missing_name (version_of layout) (state S.Store conn.old).now.schema)
        → IsErrAnd result (λ fault.
        (fault ≡ MigrateFault.Unavailable) ⊎ (fault ≡ MigrateFault.AlreadyThere)) }
    ensures rows { result ≡ Err MigrateFault.AlreadyThere → HasCleanDisk (state S.Store conn.new)
        → AreRowsAsStated (state S.Store conn.old).now }
    ensures other { HasCleanDisk (state S.Store conn.new) → (version : _)
        → StatesVersion (state S.Store conn.old).now version → IsNotEarlier version
        → IsErrAnd result (λ fault.
        (fault ≡ MigrateFault.Unavailable) ⊎ (fault ≡ MigrateFault.OtherVersion version)) }
{
    if !names_round(conn.schema()) {
        return Err(MigrateFault::NotAnOffice);
    }
    if !begins_office(conn.schema()) {
        return Err(MigrateFault::Unavailable);
    }
    let declared = Declared::of(conn.schema());
    let version = earlier_version(conn)?;
    if !declared.has_tables(version) {
        return Err(MigrateFault::NotAnOffice);
    }
    if declared.takes_name(version) {
        return Err(refused_for_name(alloc, conn, version));
    }
    let Some(layout) = declared.layout else {
        return Err(MigrateFault::Unavailable);
    };
    if layout.version() != version {
        return Err(MigrateFault::NotAnOffice);
    }
    match renewed_office(alloc, conn, layout) {
        Ok(Some(office)) => Ok(office),
        Ok(None) => Err(MigrateFault::NotAnOffice),
        Err(_) => Err(MigrateFault::Unavailable),
    }
}

// What a migration needs to know about the schema. `migrate` collects this before it reads any row.
#[derive(Clone, Copy, Drop)]
struct Declared {
    // Whether something has the name of the table of grades.
    grade: bool,
    // Whether something has the name of the table of leavers.
    going: bool,
    // Whether each table of version 1 is declared.
    first: bool,
    // Whether each table of version 2 is declared.
    second: bool,
    layout: Option<Layout>,
}

impl Declared {
    fn of(schema: &Schema) -> Declared
        ensures grade { result.grade ≡ is_used schema.now (codes "grade") }
        ensures going { result.going ≡ is_used schema.now (codes "going") }
        ensures first { Decides result.first (DeclaresTables AnyLayout.DocumentedFirst schema.now) }
        ensures second { Decides result.second (DeclaresTables AnyLayout.DocumentedSecond schema.now) }
        ensures laid { IfSome result.layout (λ layout. schema.now ≡ schema_of layout) }
        ensures unknown { result.layout ≡ nothing → (layout : AnyLayout) → schema.now ≢ schema_of layout }
    {
        Declared {
            grade: is_used(schema, b"grade"),
            going: is_used(schema, b"going"),
            first: declares_tables(schema, Layout::DocumentedFirst),
            second: declares_tables(schema, Layout::DocumentedSecond),
            layout: layout_in(schema),
        }
    }

    // Returns whether each table of this version is declared.
    fn has_tables(&self, version: u16) -> bool
        ensures first { version < 2 → result ≡ self.now.first }
        ensures second { 2 ≤ version → result ≡ self.now.second }
    {
        if version < 2 { self.first } else { self.second }
    }

    // Returns whether something has the name of a table that this version lacks.
    fn takes_name(&self, version: u16) -> bool
        ensures { result ≡ takes_name self.now.grade self.now.going version }
    {
        (version < 2 && self.grade) || self.going
    }
}

// Reads the version in the row of table `round`. Fails unless the version is 1 or 2.
fn earlier_version<S: Alter>(conn: &mut Connection<S>) -> Result<u16, MigrateFault>
    requires { conn.old.in_transaction ≡ false }
    ensures outside { conn.new.in_transaction ≡ false }
    ensures reads { OnlyReads (state S.Store conn.old) (state S.Store conn.new) }
    ensures is_open { OnOk result (HasCleanDisk (state S.Store conn.new)
        → IsTrue (state S.Store conn.new).is_open) }
    ensures earlier { IfOk result IsEarlier }
    ensures held { IfOk result (λ version. HasCleanDisk (state S.Store conn.new)
        → BeginsOffice (state S.Store conn.old).now.schema
        → HoldsVersion (state S.Store conn.old).now (pos version)) }
    ensures cause { IfErr result (λ fault. HasCleanDisk (state S.Store conn.new)
        → BeginsOffice (state S.Store conn.old).now.schema
        → HasCause (state S.Store conn.old).now fault) }
    ensures number { IfErr result IsVersionFault }
    ensures returned { HasCleanDisk (state S.Store conn.new)
        → BeginsOffice (state S.Store conn.old).now.schema → (version : _)
        → HoldsVersion (state S.Store conn.old).now version → MatchResult result
        (λ found. version ≡ pos found)
        (λ fault. (fault ≡ MigrateFault.Unavailable) ⊎ (fault ≡ MigrateFault.OtherVersion version)) }
{
    match version_held(conn) {
        Ok(Some(1)) => Ok(1),
        Ok(Some(2)) => Ok(2),
        Ok(Some(version)) => Err(MigrateFault::OtherVersion(version)),
        Ok(None) => Err(MigrateFault::NotAnOffice),
        Err(_) => Err(MigrateFault::Unavailable),
    }
}
