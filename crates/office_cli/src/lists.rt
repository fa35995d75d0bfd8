//! Stores of lists, from which the program imports.
ghost use Rattle.std.specs.Prelude.{⊤};

use office_store::Unavailable;
use room_types::{Source, Watched};
use std::fs::File;

/// A store of lists: opens a list by its path, and closes it. The contract of each method is a relation between the
/// states of the store before and after the call. Generic code can establish this relation only by making the call.
pub trait Lists {
    ghost use Rattle.std.specs.Prelude.{IfOk, OnErr, ⊤};
    ghost use Rattle.resident_http.specs.server.Unused.{IsUnused};
    ghost use Rattle.room_types.specs.Texts.{Text};
    ghost use Rattle.room_types.specs.declared.watched.Watched.{Watched};

    type List: Source + Drop;

    /// Opening this path returned this list, and took the store from the first state to the second.
    ghost opens: { Self → Text → Watched Self.List → Self → Type 0 } = { λ _ _ _ _. ⊤ };

    /// Opening this path failed, and took the store from the first state to the second.
    ghost fails: { Self → Text → Self → Type 0 } = { λ _ _ _. ⊤ };

    /// Closing this list took the store from the first state to the second.
    ghost closes: { Self → Watched Self.List → Self → Type 0 } = { λ _ _ _. ⊤ };

    /// Opens the list at this path. The returned list is `Watched`, and no call has been made on it yet.
    ///
    /// # Errors
    ///
    /// `Unavailable` if the path cannot be opened.
    fn open(&mut self, path: &str) -> Result<Watched<Self::List>, Unavailable>
        ensures opened { IfOk result (λ list. opens self.old path.now list self.new) }
        ensures unused { IfOk result IsUnused }
        ensures failed { OnErr result (fails self.old path.now self.new) };

    /// Closes a list.
    fn close(&mut self, list: Watched<Self::List>)
        ensures { closes self.old list self.new };
}

/// The files of the system, as a store of lists. The contracts do not say what the files contain. Opening a file
/// needs a `HostRuntime`, and the one that this type holds is private. So code that gets only a `Lists` value can
/// open files only by `Lists::open`.
#[derive(Drop)]
pub struct SystemLists<'a> {
    rt: &'a HostRuntime,
}

impl<'a> SystemLists<'a> {
    /// Returns the files of the system. None of them is open yet.
    pub fn new(rt: &'a HostRuntime) -> Self {
        SystemLists { rt }
    }
}

impl<'a> Lists for SystemLists<'a> {
    type List = File;

    fn open(&mut self, path: &str) -> Result<Watched<File>, Unavailable> {
        match File::open(self.rt, path) {
            Ok(file) => Ok(Watched::new(file)),
            Err(_) => Err(Unavailable),
        }
    }

    fn close(&mut self, list: Watched<File>)
        ensures { ⊤ }
    {
        drop(list);
    }
}
