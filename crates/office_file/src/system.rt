//! Desks over the files of the system. In contracts, `start` represents what the file and its log held before the call,
//! as in `open_file`.
ghost use Rattle.std.specs.Prelude.{◌≡◌, IfOk, Some};
ghost use Rattle.sqlite_wal.specs.Files.{image_at};
ghost use Rattle.sqlite.specs.Files.{file_state, over_files};
ghost use Rattle.sqlite.specs.State.{HasCleanDisk};
ghost use Rattle.office_state.specs.Office.{empty_office};
ghost use Rattle.office_file.specs.Adopted.{OpensFound, IsFileFault};
ghost use Rattle.office_file.specs.Created.{OpensBlank, IsCreateFault};
ghost use Rattle.office_file.specs.Migrated.{OpensMigrated, IsMigrateFault};
ghost use Rattle.office_file.specs.System.{system_access};
ghost use Rattle.office_store.specs.Desk.{Shows};

use crate::closing::close;
use crate::creating::create_in;
use crate::files::SystemFiles;
use crate::finding::find_in;
use crate::migrating::migrate_in;
use office_store::{Desk, DeskFault};
use sqlite::{FileFrom, FileStore, Start, Wary};

/// A desk over a database file and its log. `S` represents what the two held when the file was opened.
pub type FileDesk<S> = Desk<FileStore<FileFrom<S>>>;

/// Desks over the files of the system, as functions of `Desk`. Their contracts are those of `create_over`, `find_over`
/// and `migrate_over` at the start `Wary`, at which the file and its log were empty.
pub trait OnFile {
    ghost use Rattle.std.specs.Prelude.{◌≡◌, IfOk, Some};
    ghost use Rattle.sqlite_wal.specs.Files.{image_at};
    ghost use Rattle.sqlite.specs.Files.{file_state, over_files};
    ghost use Rattle.sqlite.specs.State.{HasCleanDisk};
    ghost use Rattle.office_state.specs.Office.{empty_office};
    ghost use Rattle.office_file.specs.Adopted.{OpensFound, IsFileFault};
    ghost use Rattle.office_file.specs.Created.{OpensBlank, IsCreateFault};
    ghost use Rattle.office_file.specs.Migrated.{OpensMigrated, IsMigrateFault};
    ghost use Rattle.office_file.specs.System.{system_access};
    ghost use Rattle.office_store.specs.Desk.{Shows};

    /// Creates an empty office in the file at this path, as `create_in` does.
    ///
    /// # Errors
    ///
    /// Those of `create_in`.
    fn create_file(rt: &HostRuntime, path: &str) -> Result<FileDesk<Wary>, DeskFault>
        ensures shows { IfOk result
            (λ desk. HasCleanDisk (file_state desk.conn) → Shows over_files desk empty_office) }
        ensures cached { IfOk result (λ desk. desk.cached ≡ Some empty_office) }
        ensures blank { IfOk result
            (λ desk. OpensBlank (system_access (image_at ⟦<Wary as Start>⟧)) tt path.now desk tt) }
        ensures cause { IsCreateFault (system_access (image_at ⟦<Wary as Start>⟧)) tt path.now result tt };

    /// Opens a desk over the office that the file at this path holds, as `find_in` does.
    ///
    /// # Errors
    ///
    /// Those of `find_in`.
    fn on_file(rt: &HostRuntime, path: &str) -> Result<FileDesk<Wary>, DeskFault>
        ensures shows { IfOk result
            (λ desk. OpensFound (system_access (image_at ⟦<Wary as Start>⟧)) tt path.now desk tt) }
        ensures cause { IsFileFault (system_access (image_at ⟦<Wary as Start>⟧)) tt path.now result tt };

    /// Migrates the office in the file at this path to the version of this program, as `migrate_in` does.
    ///
    /// # Errors
    ///
    /// Those of `migrate_in`.
    fn migrate_file(rt: &HostRuntime, path: &str) -> Result<FileDesk<Wary>, DeskFault>
        ensures shows { IfOk result
            (λ desk. OpensMigrated (system_access (image_at ⟦<Wary as Start>⟧)) tt path.now desk tt) }
        ensures cause { IsMigrateFault (system_access (image_at ⟦<Wary as Start>⟧)) tt path.now result tt };
}

impl OnFile for Desk<FileStore<FileFrom<Wary>>> {
    fn create_file(rt: &HostRuntime, path: &str) -> Result<FileDesk<Wary>, DeskFault> {
        create_over(rt, path, Wary)
    }

    fn on_file(rt: &HostRuntime, path: &str) -> Result<FileDesk<Wary>, DeskFault> {
        find_over(rt, path, Wary)
    }

    fn migrate_file(rt: &HostRuntime, path: &str) -> Result<FileDesk<Wary>, DeskFault> {
        migrate_over(rt, path, Wary)
    }
}

/// Does what `create_file` of `OnFile` does, whatever the file and its log held.
///
/// # Errors
///
/// Those of `create_in`.
pub fn create_over<S: Start>(
    rt: &HostRuntime,
    path: &str,
    start: S,
) -> Result<FileDesk<S>, DeskFault>
    ensures shows { IfOk result
        (λ desk. HasCleanDisk (file_state desk.conn) → Shows over_files desk empty_office) }
    ensures cached { IfOk result (λ desk. desk.cached ≡ Some empty_office) }
    ensures blank { IfOk result
        (λ desk. OpensBlank (system_access (image_at S.Start)) tt path.now desk tt) }
    ensures cause { IsCreateFault (system_access (image_at S.Start)) tt path.now result tt }
{
    let mut files = SystemFiles::new(rt, start);
    create_in(rt.alloc(), &mut files, path)
}

/// Does what `on_file` of `OnFile` does, whatever the file and its log held.
///
/// # Errors
///
/// Those of `find_in`.
pub fn find_over<S: Start>(rt: &HostRuntime, path: &str, start: S) -> Result<FileDesk<S>, DeskFault>
    ensures shows { IfOk result
        (λ desk. OpensFound (system_access (image_at S.Start)) tt path.now desk tt) }
    ensures cause { IsFileFault (system_access (image_at S.Start)) tt path.now result tt }
{
    let mut files = SystemFiles::new(rt, start);
    find_in(rt.alloc(), &mut files, path)
}

/// Does what `migrate_file` of `OnFile` does, whatever the file and its log held.
///
/// # Errors
///
/// Those of `migrate_in`.
pub fn migrate_over<S: Start>(
    rt: &HostRuntime,
    path: &str,
    start: S,
) -> Result<FileDesk<S>, DeskFault>
    ensures shows { IfOk result
        (λ desk. OpensMigrated (system_access (image_at S.Start)) tt path.now desk tt) }
    ensures cause { IsMigrateFault (system_access (image_at S.Start)) tt path.now result tt }
{
    let mut files = SystemFiles::new(rt, start);
    migrate_in(rt.alloc(), &mut files, path)
}

/// Closes the file of the desk if `desk` is `Ok`. Otherwise does nothing. Call this instead of dropping a desk: if a
/// crate drops an open file, the proof that the crate may do so takes minutes.
pub fn close_file<S: Start>(desk: Result<FileDesk<S>, DeskFault>) {
    let mut files = SystemFiles::unopened();
    close(&mut files, desk);
}
