//! Finds the office that a file holds.
ghost use Rattle.std.specs.Prelude.{IfOk};
ghost use Rattle.office_file.specs.Adopted.{OpensFound, IsFileFault};
ghost use Rattle.office_file.specs.Access.{file_access};

use crate::files::{Closes, Files};
use office_store::{Desk, DeskFault, Unavailable};
use sqlite::{Alter, Connection};
use std::alloc::Global;

/// Opens a desk over the office that the file at this path holds. The tables must have the version of this program,
/// and be in the order in which this program creates tables or in the documented order (`Layout::Documented`). In the
/// second case, the function recreates them in the first order. Opens the file once. Does not create a missing file.
///
/// # Errors
///
/// - `NotAnOffice`: nothing has the name of table `round`, or the tables do not hold the rows of an office.
/// - `OtherVersion`: the row of table `round` holds the version that the fault names, which is not the version of
///   this program.
/// - `Unavailable`: the file was not opened, the schema is not that of an office, the database failed, or memory ran
///   out.
///
/// `Desk::adopt` has the exact conditions for an opened file. On an error the function closes the connection, if it
/// opened one. The tables are then unchanged, unless the disk failed to return what was written or a fault closed the
/// connection earlier.
pub fn find_in<B: Alter, F: Files<B> + Closes<Connection<B>>>(
    alloc: Global,
    files: &mut F,
    path: &str,
) -> Result<Desk<B>, DeskFault>
    ensures shows { let access = file_access B.Store F.opens F.finds F.fails F.closes in
        IfOk result (λ desk. OpensFound access files.old path.now desk files.new) }
    ensures cause { let access = file_access B.Store F.opens F.finds F.fails F.closes in
        IsFileFault access files.old path.now result files.new }
{
    let connection = match files.open_present(path) {
        Ok(connection) => connection,
        Err(Unavailable) => return Err(DeskFault::Unavailable),
    };
    match Desk::adopt(alloc, connection) {
        Ok(desk) => Ok(desk),
        Err(back) => {
            let fault = back.fault;
            files.close(back.connection);
            Err(fault)
        }
    }
}
