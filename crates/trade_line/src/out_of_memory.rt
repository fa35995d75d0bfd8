//! The error of a failed allocation.
ghost use Rattle.std.specs.Prelude.{Some};
ghost use Rattle.trade_line.specs.Faults.{out_of_memory_text};

use std::alloc::{AllocError, AllocFailed};
use std::error::Error;
use std::fmt;

/// An allocation failed.
#[derive(Clone, Copy, Debug, PartialEq, Eq)]
pub struct OutOfMemory;

impl fmt::Display for OutOfMemory {
    ghost output = { λ _. Some out_of_memory_text };

    fn fmt<W: fmt::Write>(&self, f: &mut fmt::Formatter<W>) -> fmt::Result {
        f.write_str("memory was refused")
    }
}

impl Error for OutOfMemory {}

impl From<AllocError> for OutOfMemory {
    fn from(_refused: AllocError) -> Self {
        OutOfMemory
    }
}

impl<T: Drop> From<AllocFailed<T>> for OutOfMemory {
    fn from(_refused: AllocFailed<T>) -> Self {
        OutOfMemory
    }
}
