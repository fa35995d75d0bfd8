//! The errors of this crate.
ghost use Rattle.std.specs.Prelude.{◌≡◌, Some};
ghost use Rattle.room_types.specs.Faults.{out_of_memory_text};

use crate::grammars::RoomCode;
use std::alloc::{AllocError, AllocFailed};
use std::error::Error;
use std::fmt;

/// An allocation failed. Arguments that were borrowed mutably are unchanged, unless the documentation of the call
/// says otherwise.
#[derive(Clone, Copy, Debug, PartialEq, Eq)]
pub struct OutOfMemory {}

impl From<AllocError> for OutOfMemory {
    fn from(_error: AllocError) -> OutOfMemory {
        OutOfMemory {}
    }
}

impl<T: Drop> From<AllocFailed<T>> for OutOfMemory {
    fn from(_error: AllocFailed<T>) -> OutOfMemory {
        OutOfMemory {}
    }
}

impl fmt::Display for OutOfMemory {
    ghost output = { λ _. Some out_of_memory_text };

    fn fmt<W: fmt::Write>(&self, f: &mut fmt::Formatter<W>) -> fmt::Result {
        f.write_str("memory was refused")
    }
}

impl Error for OutOfMemory {}

/// Why a text, a word, a grade or a list of rooms could not be read.
#[derive(Debug, PartialEq, Eq, Drop)]
pub enum TypeFault {
    /// The text is not in the grammar of its type.
    BadValue,
    /// An allocation failed.
    OutOfMemory,
    /// The list has more rooms than `CHOICE_LIMIT`.
    TooManyChoices,
    /// The list has a room twice. The field is the first code that equals an earlier one.
    RoomRepeated(RoomCode),
}

impl From<AllocError> for TypeFault {
    ghost use Rattle.std.specs.Prelude.{◌≡◌};
    ghost use Rattle.room_types.specs.declared.fault.TypeFault.TheVariants.{OutOfMemory};

    ghost from_gives = { λ _ fault. fault ≡ OutOfMemory };

    fn from(_error: AllocError) -> TypeFault {
        TypeFault::OutOfMemory
    }
}

impl From<OutOfMemory> for TypeFault {
    ghost use Rattle.std.specs.Prelude.{◌≡◌};
    ghost use Rattle.room_types.specs.declared.fault.TypeFault.TheVariants.{OutOfMemory};

    ghost from_gives = { λ _ fault. fault ≡ OutOfMemory };

    fn from(_error: OutOfMemory) -> TypeFault {
        TypeFault::OutOfMemory
    }
}
