//! Creates an empty office in a file.
ghost use Rattle.std.specs.Prelude.{◌≡◌, IfOk, Some};
ghost use Rattle.sqlite.specs.Held.{state};
ghost use Rattle.sqlite.specs.State.{HasCleanDisk};
ghost use Rattle.office_state.specs.Office.{empty_office};
ghost use Rattle.office_file.specs.Access.{file_access};
ghost use Rattle.office_file.specs.Created.{OpensBlank, IsCreateFault};
ghost use Rattle.office_store.specs.Desk.{Shows};

use crate::files::{Closes, Files};
use office_store::{Desk, DeskFault, Unavailable};
use sqlite::{Alter, Connection};
use std::alloc::Global;

/// Opens the file at this path, creates the tables of the empty office in it, and returns a desk over that office.
/// Opens the file once. Creates a missing file.
///
/// # Errors
///
/// `AlreadyThere` if and only if a table, an index, a view or a trigger of the opened database has the name of one of
/// an office's ten tables. `Unavailable` otherwise: the file was not opened, its schema has something under other
/// names, the disk failed, or memory ran out. On an error the function closes the connection, if it opened one. The
/// tables are then unchanged, unless the disk failed to return what was written or a fault closed the connection
/// earlier.
pub fn create_in<B: Alter, F: Files<B> + Closes<Connection<B>>>(
    alloc: Global,
    files: &mut F,
    path: &str,
) -> Result<Desk<B>, DeskFault>
    ensures shows { IfOk result (λ desk. HasCleanDisk (state B.Store desk.conn)
        → Shows B.Store desk empty_office) }
    ensures cached { IfOk result (λ desk. desk.cached ≡ Some empty_office) }
    ensures blank { let access = file_access B.Store F.opens F.finds F.fails F.closes in
        IfOk result (λ desk. OpensBlank access files.old path.now desk files.new) }
    ensures cause { let access = file_access B.Store F.opens F.finds F.fails F.closes in
        IsCreateFault access files.old path.now result files.new }
{
    let connection = match files.open(path) {
        Ok(connection) => connection,
        Err(Unavailable) => return Err(DeskFault::Unavailable),
    };
    match Desk::create(alloc, connection) {
        Ok(desk) => Ok(desk),
        Err(back) => {
            let fault = back.fault;
            files.close(back.connection);
            Err(fault)
        }
    }
}
