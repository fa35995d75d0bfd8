//! Opens desks over an office in the tables of an earlier version.
ghost use Rattle.std.specs.Prelude.{◌≡◌, ◌⊎◌, ℤ, false, IfErr, IfOk, IsErrAnd, IsSome, IsTrue, MatchResult, OnOk};
ghost use Rattle.sqlite.specs.Held.{state};
ghost use Rattle.sqlite.specs.State.{HasCleanDisk};
ghost use Rattle.office_state.specs.declared.office.Office.{Office as AnyOffice};
ghost use Rattle.office_schema.specs.tables.Crashes.{LeavesOldOr, ShowsCommitted};
ghost use Rattle.office_schema.specs.tables.Layouts.{schema_of, version_of};
ghost use Rattle.office_schema.specs.tables.Steps.{Follows, IsIntact};
ghost use Rattle.office_schema.specs.tables.InLayout.{HoldsOfficeIn};
ghost use Rattle.office_schema.specs.declared.tables.layouts.Layout.{Layout as AnyLayout};
ghost use Rattle.office_db.specs.loading.Finding.{AreWhole, names_round};
ghost use Rattle.office_migration.specs.Causes.{AreRowsAsStated, HoldsEarlier, HoldsLayoutVersion, StatesVersion};
ghost use Rattle.office_migration.specs.Causes.{HoldsEarlierFirst};
ghost use Rattle.office_schema.specs.tables.FirstTables.{BeginsOffice};
ghost use Rattle.office_migration.specs.Names.{uses_missing_name};
ghost use Rattle.office_migration.specs.Renewed.{CommitsMigrated};
ghost use Rattle.office_migration.specs.Versions.{HasEarlierLayout, IsNotEarlier, IsOfVersion};
ghost use Rattle.office_store.specs.Desk.{Shows};
ghost use Rattle.office_store.specs.Migrating.{IsFaultOfMigration, MayNotMigrate, migrating_fault};

use crate::committed::show_committed;
use crate::desk::Desk;
use crate::desk::faults::{Back, DeskFault};
use office_migration::{MigrateFault, migrate};
use sqlite::{Alter, Connection};
use std::alloc::Global;

impl<S: Alter> Desk<S> {
    /// Opens a desk over a database whose tables hold the rows of an office of version 1 or 2. Migrates the tables to
    /// the version of this program, in one transaction. The desk shows the same office, whatever its phase. The
    /// office has no leavers, and it has no grades if its version was 1.
    ///
    /// The call compares the whole declaration of each table.
    ///
    /// # Errors
    ///
    /// The fault is the first of these that applies:
    ///
    /// - `NotAnOffice` if nothing has the name of table `round`.
    /// - `Unavailable` if there is a view, or if the first three tables are not `room`, `person` and `round` as an
    ///   office declares them, each in the tree where an office keeps it. Triggers, and tables that the engine does not
    ///   understand, count as views. In this case and in the first one, no statement has run.
    /// - `NotAnOffice` if table `round` does not have exactly one row.
    /// - `Unavailable` if the version in this row is not an integer.
    /// - `OtherVersion` if the version in this row is neither 1 nor 2.
    /// - `NotAnOffice` if a table of the version in this row is absent or declared in another way than an office's.
    /// - `NotAnOffice` or `AlreadyThere` if something has the name of a table that the version in this row lacks.
    ///   Version 1 lacks `grade` and `going`, and version 2 lacks `going`. The fault is `NotAnOffice` if the schema
    ///   begins with the tables of a layout of that version, but these tables do not hold the rows of an office of
    ///   that version. Otherwise it is `AlreadyThere`.
    /// - `Unavailable` if the tables are in no known layout.
    /// - `NotAnOffice` if the tables do not hold the rows of an office of the version in table `round`.
    ///
    /// The call also returns `Unavailable` if the database fails or memory runs out, except in the first case: there
    /// it neither reads the database nor allocates.
    ///
    /// On an error, the call returns the connection in `Back`. The tables are unchanged, unless a fault closed the
    /// connection or the disk failed to return what was written.
    pub fn migrate(alloc: Global, connection: Connection<S>) -> Result<Desk<S>, Back<S>>
        requires { connection.in_transaction ≡ false }
        ensures follows { IfOk result
            (λ desk. Follows (state S.Store connection) (state S.Store desk.conn)) }
        ensures committed { IfOk result (λ desk. ShowsCommitted (state S.Store desk.conn)) }
        ensures cached { IfOk result (λ desk. IsSome desk.cached) }
        ensures laid { OnOk result (HasEarlierLayout (state S.Store connection).now.schema) }
        ensures stated { IfOk result (λ desk. HasCleanDisk (state S.Store desk.conn)
            → HoldsLayoutVersion (state S.Store connection).now) }
        ensures shows { IfOk result (λ desk. HasCleanDisk (state S.Store desk.conn)
            → (layout : AnyLayout) → (state S.Store connection).now.schema ≡ schema_of layout
            → AreWhole layout (state S.Store connection).now.trees
            → (office : AnyOffice) × IsOfVersion (version_of layout) office
            × HoldsOfficeIn layout (state S.Store connection).now office
            × Shows S.Store desk office) }
        ensures outside { IfErr result (λ back. back.connection.in_transaction ≡ false) }
        ensures followed { IfErr result
            (λ back. Follows (state S.Store connection) (state S.Store back.connection)) }
        ensures undone { IfErr result (λ back. IsIntact (state S.Store back.connection)
            → (state S.Store back.connection).now ≡ (state S.Store connection).now) }
        ensures crash { MatchResult result
            (λ desk. LeavesOldOr (CommitsMigrated (state S.Store connection).now)
            (state S.Store connection) (state S.Store desk.conn))
            (λ back. LeavesOldOr (CommitsMigrated (state S.Store connection).now)
            (state S.Store connection) (state S.Store back.connection)) }
        ensures allowed { IfErr result
            (λ back. IsFaultOfMigration (state S.Store connection).now.schema back.fault) }
        ensures cause { IfErr result (λ back. HasCleanDisk (state S.Store back.connection)
            → MayNotMigrate (state S.Store connection).now back.fault) }
        ensures unread { ¬ BeginsOffice (state S.Store connection).now.schema → MatchResult result
            (λ desk. desk.conn ≡ connection) (λ back. back.connection ≡ connection) }
        ensures absent { names_round (state S.Store connection).now.schema ≡ false → IsErrAnd result
            (λ back. (back.fault ≡ DeskFault.NotAnOffice) × (back.connection ≡ connection)) }
        ensures accepts { (layout : AnyLayout) → (office : AnyOffice)
            → HoldsEarlier layout (state S.Store connection).now office → MatchResult result
            (λ desk. HasCleanDisk (state S.Store desk.conn) → Shows S.Store desk office)
            (λ back. HasCleanDisk (state S.Store back.connection)
            → back.fault ≡ DeskFault.Unavailable) }
        ensures taken { (layout : AnyLayout) → (office : AnyOffice)
            → HoldsEarlierFirst layout (state S.Store connection).now office
            → IsTrue (uses_missing_name (version_of layout) (state S.Store connection).now.schema)
            → MatchResult result
            (λ desk. ¬ HasCleanDisk (state S.Store desk.conn))
            (λ back. HasCleanDisk (state S.Store back.connection)
            → (back.fault ≡ DeskFault.Unavailable) ⊎ (back.fault ≡ DeskFault.AlreadyThere)) }
        ensures rows { IfErr result (λ back. back.fault ≡ DeskFault.AlreadyThere
            → HasCleanDisk (state S.Store back.connection)
            → AreRowsAsStated (state S.Store connection).now) }
        ensures other { (version : ℤ) → StatesVersion (state S.Store connection).now version
            → IsNotEarlier version → MatchResult result
            (λ desk. ¬ HasCleanDisk (state S.Store desk.conn))
            (λ back. HasCleanDisk (state S.Store back.connection)
            → (back.fault ≡ DeskFault.Unavailable)
            ⊎ (back.fault ≡ DeskFault.OtherVersion version)) }
    {
        let mut conn = connection;
        match migrate(alloc, &mut conn) {
            Ok(office) => {
                show_committed(&conn);
                Ok(Desk {
                    conn,
                    cached: Some(office),
                })
            }
            Err(fault) => Err(Back {
                fault: migrating_fault(fault),
                connection: conn,
            }),
        }
    }
}

// Converts the fault of a migration to the fault of a desk.
fn migrating_fault(fault: MigrateFault) -> DeskFault
    ensures { result ≡ migrating_fault fault }
{
    match fault {
        MigrateFault::Unavailable => DeskFault::Unavailable,
        MigrateFault::OtherVersion(version) => DeskFault::OtherVersion(version),
        MigrateFault::NotAnOffice => DeskFault::NotAnOffice,
        MigrateFault::AlreadyThere => DeskFault::AlreadyThere,
    }
}
