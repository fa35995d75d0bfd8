//! Migrates an office of an earlier version in a file.
ghost use Rattle.std.specs.Prelude.{IfOk};
ghost use Rattle.office_file.specs.Access.{file_access};
ghost use Rattle.office_file.specs.Migrated.{OpensMigrated, IsMigrateFault};

use crate::files::{Closes, Files};
use office_store::{Desk, DeskFault, Unavailable};
use sqlite::{Alter, Connection};
use std::alloc::Global;

/// Migrates the office in the file at this path from version 1 or 2 to the version of this program. Returns a desk
/// over the office. Opens the file once. Does not create a missing file.
///
/// # Errors
///
/// - `NotAnOffice`: nothing has the name of table `round`, or the tables do not hold the rows of an office of the
///   version in that table.
/// - `OtherVersion`: the row of table `round` holds the version that the fault names, which is neither 1 nor 2.
/// - `AlreadyThere`: something has the name of a table that the version in table `round` lacks.
/// - `Unavailable`: the file was not opened, the schema is not that of an office, the version in table `round` is not
///   an integer, the database failed, or memory ran out.
///
/// `Desk::migrate` has the exact conditions for an opened file. On an error the function closes the connection, if it
/// opened one. The tables are then unchanged, unless the disk failed to return what was written or a fault closed the
/// connection earlier.
pub fn migrate_in<B: Alter, F: Files<B> + Closes<Connection<B>>>(
    alloc: Global,
    files: &mut F,
    path: &str,
) -> Result<Desk<B>, DeskFault>
    ensures shows { let access = file_access B.Store F.opens F.finds F.fails F.closes in
        IfOk result (λ desk. OpensMigrated access files.old path.now desk files.new) }
    ensures cause { let access = file_access B.Store F.opens F.finds F.fails F.closes in
        IsMigrateFault access files.old path.now result files.new }
{
    let connection = match files.open_present(path) {
        Ok(connection) => connection,
        Err(Unavailable) => return Err(DeskFault::Unavailable),
    };
    match Desk::migrate(alloc, connection) {
        Ok(desk) => Ok(desk),
        Err(back) => {
            let fault = back.fault;
            files.close(back.connection);
            Err(fault)
        }
    }
}
