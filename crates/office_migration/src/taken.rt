//! Decides how a migration fails if something has the name of a table that the earlier version lacks.
ghost use Rattle.std.specs.Prelude.{◌≡◌, ◌⊎◌, false, None as nothing};
ghost use Rattle.std.specs.Option.{IfSome};
ghost use Rattle.sqlite.specs.Held.{state};
ghost use Rattle.sqlite.specs.State.{HasCleanDisk};
ghost use Rattle.office_state.specs.declared.office.Office.{Office as Books};
ghost use Rattle.office_schema.specs.tables.Layouts.{version_of};
ghost use Rattle.office_schema.specs.declared.tables.layouts.Layout.{Layout as AnyLayout};
ghost use Rattle.office_schema.specs.tables.FirstTables.{Begins};
ghost use Rattle.office_db.specs.loading.Reading.{OnlyReads};
ghost use Rattle.office_migration.specs.Causes.{AreEarlierRows, AreNoEarlierRows, BeginsAt, IsNameFault};
ghost use Rattle.office_migration.specs.Causes.{HoldsEarlierFirst};
ghost use Rattle.office_migration.specs.Versions.{IsEarlier};

use crate::migrating::MigrateFault;
use crate::versions::is_of_version;
use office_db::loading::first_tables::begins_with;
use office_db::loading::held;
use office_schema::tables::layouts::Layout;
use sqlite::{Alter, Connection};
use sqlite_schema::schema::Schema;
use std::alloc::Global;

/// Returns the fault with which a migration from `version` fails. `migrate` calls this if something has the name of a
/// table that this version lacks. Changes no table. The fault is:
///
/// - `Unavailable` if the database fails or memory runs out.
/// - `NotAnOffice` if the schema begins with the tables of a layout of this version, but these tables do not hold the
///   rows of an office of this version.
/// - `AlreadyThere` otherwise.
pub fn refused_for_name<S: Alter>(
    alloc: Global,
    conn: &mut Connection<S>,
    version: u16,
) -> MigrateFault
    requires outside { conn.old.in_transaction ≡ false }
    requires earlier { IsEarlier version }
    ensures outside { conn.new.in_transaction ≡ false }
    ensures reads { OnlyReads (state S.Store conn.old) (state S.Store conn.new) }
    ensures kind { IsNameFault result }
    ensures none { result ≡ MigrateFault.NotAnOffice → HasCleanDisk (state S.Store conn.new)
        → AreNoEarlierRows version (state S.Store conn.old).now }
    ensures known { result ≡ MigrateFault.NotAnOffice
        → BeginsAt version (state S.Store conn.old).now.schema }
    ensures rows { result ≡ MigrateFault.AlreadyThere → HasCleanDisk (state S.Store conn.new)
        → AreEarlierRows version (state S.Store conn.old).now }
    ensures returned { HasCleanDisk (state S.Store conn.new) → (layout : AnyLayout) → (office : Books)
        → version_of layout ≡ version
        → HoldsEarlierFirst layout (state S.Store conn.old).now office
        → (result ≡ MigrateFault.Unavailable) ⊎ (result ≡ MigrateFault.AlreadyThere) }
{
    let Some(layout) = first_layout(conn.schema(), version) else {
        return MigrateFault::AlreadyThere;
    };
    match held(alloc, conn, layout) {
        Ok(Some(office)) => {
            if is_of_version(&office, version) {
                return MigrateFault::AlreadyThere;
            }
            MigrateFault::NotAnOffice
        }
        Ok(None) => MigrateFault::NotAnOffice,
        Err(_) => MigrateFault::Unavailable,
    }
}

// Returns the layout of this version whose tables the schema begins with, if there is one.
fn first_layout(schema: &Schema, version: u16) -> Option<Layout>
    requires { IsEarlier version }
    ensures begun { IfSome result (λ layout. Begins layout schema.now) }
    ensures version { IfSome result (λ layout. version_of layout ≡ version) }
    ensures other { result ≡ nothing → (layout : AnyLayout) → version_of layout ≡ version
        → ¬ Begins layout schema.now }
{
    if version < 2 {
        if begins_with(schema, Layout::DocumentedFirst) {
            return Some(Layout::DocumentedFirst);
        }
        if begins_with(schema, Layout::EarlierFirst) {
            return Some(Layout::EarlierFirst);
        }
        return None;
    }
    if begins_with(schema, Layout::DocumentedSecond) {
        return Some(Layout::DocumentedSecond);
    }
    None
}
