//! Creating an office in a database.
ghost use Rattle.std.specs.Prelude.{◌≡◌, ◌≢◌, false, Err, OnOk, OnErr, IfErr, IsTrue};
ghost use Rattle.sqlite.specs.Held.{state};
ghost use Rattle.sqlite.specs.State.{HasCleanDisk};
ghost use Rattle.office_state.specs.Office.{empty_office};
ghost use Rattle.office_db.specs.creation.Created.{Starts};
ghost use Rattle.office_db.specs.creation.Names.{NameIsTaken};
ghost use Rattle.office_schema.specs.tables.Crashes.{LeavesOldOr};
ghost use Rattle.office_schema.specs.tables.Schema.{no_schema};
ghost use Rattle.office_schema.specs.tables.Runs.{RunsSome};
ghost use Rattle.office_schema.specs.tables.Steps.{Follows, IsIntact};
ghost use Rattle.office_schema.specs.tables.Tables.{HoldsOffice};

use crate::creation::names::{declares_nothing, is_taken};
use office_schema::tables::creating::create_tables_from;
use office_schema::tables::rounds::add_round;
use room_types::Phase;
use sqlite::{Alter, Connection, Error, Transaction};

/// Why no office was created.
#[derive(Clone, Copy, Debug, PartialEq, Eq, Drop)]
pub enum CreateFault {
    /// The database or an allocation failed, or the database is not empty. In the last case it declares something,
    /// but nothing with the name of one of the office's ten tables.
    Unavailable,
    /// A table, an index, a view or a trigger has the name of one of the ten tables of an office.
    AlreadyThere,
}

/// Creates the tables of an empty office in a database that declares nothing. Creates all of the tables, or none.
///
/// # Errors
///
/// `AlreadyThere` if and only if a table, an index, a view or a trigger has the name of one of the office's ten
/// tables. Otherwise, `Unavailable` if the database declares anything else, or if the database or an allocation
/// fails.
///
/// After an error the tables are unchanged, with two exceptions: a fault closed the connection, or the disk did not
/// return what was written to the file. If the database declares anything, `create` runs no statement.
pub fn create<S: Alter>(conn: &mut Connection<S>) -> Result<(), CreateFault>
    requires { conn.old.in_transaction ≡ false }
    ensures outside { conn.new.in_transaction ≡ false }
    ensures follows { Follows (state S.Store conn.old) (state S.Store conn.new) }
    ensures made { OnOk result (HasCleanDisk (state S.Store conn.new)
        → HoldsOffice (state S.Store conn.new).now empty_office) }
    ensures is_open { OnOk result (HasCleanDisk (state S.Store conn.new)
        → IsTrue (state S.Store conn.new).is_open) }
    ensures crash { LeavesOldOr (λ after. HoldsOffice after empty_office)
        (state S.Store conn.old) (state S.Store conn.new) }
    ensures blank { OnOk result ((state S.Store conn.old).now.schema ≡ no_schema) }
    ensures undone { OnErr result (IsIntact (state S.Store conn.new)
        → (state S.Store conn.new).now ≡ (state S.Store conn.old).now) }
    ensures taken { IfErr result (λ fault. fault ≡ CreateFault.AlreadyThere
        → NameIsTaken (state S.Store conn.old).now) }
    ensures returned { NameIsTaken (state S.Store conn.old).now
        → (result ≡ Err CreateFault.AlreadyThere) × (conn.new ≡ conn.old) }
    ensures foreign { ¬ NameIsTaken (state S.Store conn.old).now
        → (state S.Store conn.old).now.schema ≢ no_schema
        → (result ≡ Err CreateFault.Unavailable) × (conn.new ≡ conn.old) }
{
    if is_taken(conn.schema()) {
        return Err(CreateFault::AlreadyThere);
    }
    if !declares_nothing(conn.schema()) {
        return Err(CreateFault::Unavailable);
    }
    match start_office(conn) {
        Ok(()) => Ok(()),
        Err(_) => Err(CreateFault::Unavailable),
    }
}

// Creates the office in one transaction.
fn start_office<S: Alter>(conn: &mut Connection<S>) -> Result<(), Error>
    requires { conn.old.in_transaction ≡ false }
    ensures outside { conn.new.in_transaction ≡ false }
    ensures follows { Follows (state S.Store conn.old) (state S.Store conn.new) }
    ensures made { OnOk result (Starts (state S.Store conn.old) (state S.Store conn.new)) }
    ensures is_open { OnOk result (HasCleanDisk (state S.Store conn.new)
        → IsTrue (state S.Store conn.new).is_open) }
    ensures undone { OnErr result (IsIntact (state S.Store conn.new)
        → (state S.Store conn.new).now ≡ (state S.Store conn.old).now) }
    ensures crash { (state S.Store conn.old).now.schema ≡ no_schema
        → LeavesOldOr (λ after. HoldsOffice after empty_office)
        (state S.Store conn.old) (state S.Store conn.new) }
{
    // The proof needs these two lines: outside a transaction, an open connection shows what is committed.
    let outside = conn.is_autocommit();
    prove!(outside);
    let mut tx = conn.transaction();
    start(&mut tx)?;
    tx.commit()?;
    Ok(())
}

// Creates the tables, and adds the row of a round that has not begun.
fn start<S: Alter>(tx: &mut Transaction<'_, S>) -> Result<(), Error>
    ensures { RunsSome S.Store tx.old tx.new result Starts }
{
    create_tables_from(tx, 0)?;
    add_round(tx, 0, Phase::Idle)
}
