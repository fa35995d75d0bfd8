//! Traits that open and close office files, and the files of the system, which implement them.
ghost use Rattle.std.specs.Prelude.{⊤};
ghost use Rattle.sqlite_wal.specs.Files.{image_at};
ghost use Rattle.office_file.specs.Files.{IsOpenedOver};

use crate::opening::{FileConnection, open_file, open_present_file};
use office_store::Unavailable;
use sqlite::{Alter, Connection, FileFrom, FileStore, Start};

/// Opens office files by their paths. Each opened file is a database over the store `B`. The relations `opens`,
/// `finds` and `fails` specify the calls: they relate the states of `self` before and after a call. Generic code can
/// establish these relations only by making a call.
pub trait Files<B: Alter> {
    ghost use Rattle.std.specs.Prelude.{◌≡◌, false, List, ℕ, IfOk, OnErr, ⊤};
    ghost use Rattle.sqlite.specs.Held.{Held};

    /// `open` with this path returned this connection, and led from the old state to the new one.
    ghost opens: { Self → List ℕ → Held B → Self → Type 0 } = { λ _ _ _ _. ⊤ };

    /// `open_present` with this path returned this connection, and led from the old state to the new one.
    ghost finds: { Self → List ℕ → Held B → Self → Type 0 } = { λ _ _ _ _. ⊤ };

    /// `open` or `open_present` with this path failed, and led from the old state to the new one.
    ghost fails: { Self → List ℕ → Self → Type 0 } = { λ _ _ _. ⊤ };

    /// Opens the database in the file at this path. Creates a missing file.
    ///
    /// # Errors
    ///
    /// `Unavailable` if the file cannot be opened.
    fn open(&mut self, path: &str) -> Result<Connection<B>, Unavailable>
        ensures outside { IfOk result (λ connection. connection.in_transaction ≡ false) }
        ensures opened { IfOk result (λ connection. opens self.old path.now connection self.new) }
        ensures failed { OnErr result (fails self.old path.now self.new) };

    /// Opens the database in the file at this path. Does not create a missing file.
    ///
    /// # Errors
    ///
    /// `Unavailable` if there is no file at this path, or if the file cannot be opened.
    fn open_present(&mut self, path: &str) -> Result<Connection<B>, Unavailable>
        ensures outside { IfOk result (λ connection. connection.in_transaction ≡ false) }
        ensures found { IfOk result (λ connection. finds self.old path.now connection self.new) }
        ensures failed { OnErr result (fails self.old path.now self.new) };
}

/// Closes connections of type `C`. The relation `closes` specifies the call `close`: it relates the states of `self`
/// before and after the call.
pub trait Closes<C> {
    ghost use Rattle.std.specs.Prelude.{⊤};

    /// Closing this connection led from the old state to the new one.
    ghost closes: { Self → C → Self → Type 0 } = { λ _ _ _. ⊤ };

    /// Closes a connection and its file.
    fn close(&mut self, connection: C)
        ensures { closes self.old connection self.new };
}

/// Opens and closes files of the operating system. A value opens at most one file: after the first call of `open` or
/// `open_present`, each later call of either fails. In contracts, `S` represents what the file and its log held when
/// the file was opened. No contract says which file a path names. Only this type holds the runtime, so code that is
/// generic over `Files` can open a file only by calling `open` or `open_present`.
#[derive(Drop)]
pub struct SystemFiles<'a, S: Start> {
    opening: Option<(&'a HostRuntime, S)>,
}

impl<'a, S: Start> SystemFiles<'a, S> {
    /// Returns a value that has not opened a file yet. In contracts, `start` represents what the file and its log
    /// hold when the value opens the file.
    pub fn new(rt: &'a HostRuntime, start: S) -> Self {
        SystemFiles {
            opening: Some((rt, start)),
        }
    }

    // Returns a value that cannot open a file, but can close connections.
    pub(crate) fn unopened() -> Self {
        SystemFiles { opening: None }
    }
}

impl<'a, S: Start> Files<FileStore<FileFrom<S>>> for SystemFiles<'a, S> {
    ghost opens = { λ _ _ connection _. IsOpenedOver (image_at S.Start) connection };

    ghost finds = { λ _ _ connection _. IsOpenedOver (image_at S.Start) connection };

    fn open(&mut self, path: &str) -> Result<FileConnection<S>, Unavailable> {
        match self.opening.take() {
            Some((rt, start)) => open_file(rt, path, start),
            None => Err(Unavailable),
        }
    }

    fn open_present(&mut self, path: &str) -> Result<FileConnection<S>, Unavailable> {
        match self.opening.take() {
            Some((rt, start)) => open_present_file(rt, path, start),
            None => Err(Unavailable),
        }
    }
}

impl<'a, S: Start> Closes<FileConnection<S>> for SystemFiles<'a, S> {
    fn close(&mut self, connection: FileConnection<S>)
        ensures { ⊤ }
    {
        drop(connection);
    }
}
