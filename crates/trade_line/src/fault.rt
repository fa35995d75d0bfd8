//! Why a problem, or another list for a problem, is refused.
ghost use Rattle.std.specs.Prelude.{◌≡◌, Some};
ghost use Rattle.trade_line.specs.Faults.{fault_text};
ghost use Rattle.trade_line.specs.declared.fault.TradeFault.TheVariants.{OutOfMemory};

use crate::out_of_memory;
use std::alloc::{AllocError, AllocFailed};
use std::error::Error;
use std::fmt;

/// Why a problem or a list is refused. The variants are in the order of the checks. `OutOfMemory` may come in place
/// of any fault but `BadIndex`.
#[derive(Clone, Copy, Debug, PartialEq, Eq)]
pub enum TradeFault {
    /// The length of a vector is not the number of people, or a room or a person is out of range.
    BadIndex,
    /// Two people have the same home.
    HomeShared,
    /// A list has a room twice.
    ListRepeats,
    /// A person lists their own home.
    OwnRoomListed,
    /// An allocation failed.
    OutOfMemory,
}

impl fmt::Display for TradeFault {
    ghost output = { λ fault. Some (fault_text fault) };

    fn fmt<W: fmt::Write>(&self, f: &mut fmt::Formatter<W>) -> fmt::Result {
        f.write_str(match self {
            TradeFault::BadIndex =>
                "there is not one home entry and one list for each person, or a number is out of range",
            TradeFault::HomeShared => "two people have the same home",
            TradeFault::ListRepeats => "a list has a room twice",
            TradeFault::OwnRoomListed => "a person lists their own home",
            TradeFault::OutOfMemory => "memory was refused",
        })
    }
}

impl Error for TradeFault {}

impl From<out_of_memory::OutOfMemory> for TradeFault {
    ghost from_gives = { λ _ e. e ≡ OutOfMemory };

    fn from(_refused: out_of_memory::OutOfMemory) -> Self {
        TradeFault::OutOfMemory
    }
}

impl From<AllocError> for TradeFault {
    ghost from_gives = { λ _ e. e ≡ OutOfMemory };

    fn from(_refused: AllocError) -> Self {
        TradeFault::OutOfMemory
    }
}

impl<T: Drop> From<AllocFailed<T>> for TradeFault {
    ghost from_gives = { λ _ e. e ≡ OutOfMemory };

    fn from(_refused: AllocFailed<T>) -> Self {
        TradeFault::OutOfMemory
    }
}
