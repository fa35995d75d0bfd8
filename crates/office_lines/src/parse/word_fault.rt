//! The error of a parser for words.
ghost use Rattle.std.specs.Prelude.{◌≡◌};

use std::alloc::{AllocError, AllocFailed};

/// Why a parser returned no value for the words of a line or for the program's arguments.
#[derive(Clone, Copy, Debug, PartialEq, Eq, Drop)]
pub enum WordFault {
    /// The words do not have the form that the parser expects, for example the form of a request or of a room code.
    NotUnderstood,
    /// An allocation failed.
    OutOfMemory,
}

impl From<AllocError> for WordFault {
    ghost use Rattle.office_lines.specs.declared.parse.word_fault.WordFault.TheVariants.{OutOfMemory};

    ghost from_gives = { λ _ fault. fault ≡ OutOfMemory };

    fn from(_error: AllocError) -> WordFault {
        WordFault::OutOfMemory
    }
}

impl<T: Drop> From<AllocFailed<T>> for WordFault {
    ghost use Rattle.office_lines.specs.declared.parse.word_fault.WordFault.TheVariants.{OutOfMemory};

    ghost from_gives = { λ _ fault. fault ≡ OutOfMemory };

    fn from(_error: AllocFailed<T>) -> WordFault {
        WordFault::OutOfMemory
    }
}
