//! Refusals of commands and queries.
ghost use Rattle.std.specs.Prelude.{◌≡◌, ◌⊎◌};
ghost use Rattle.office_core.specs.Refusal.{number_of, name_of};

pub mod rooms;

use office_lists::{Cause, ListFault};
use room_types::{OutOfMemory, Phase, RoomCode};
use std::alloc::{AllocError, AllocFailed};

/// Why a command or a query is refused. A refusal changes nothing.
#[derive(Debug, Drop)]
pub enum Refusal {
    /// The office does not allow the command or query in this phase.
    BadPhase(Phase),
    /// Nobody has this identifier, or this key.
    UnknownPerson,
    /// No room has this code.
    UnknownRoom(RoomCode),
    /// There already is a room with this code.
    DuplicateRoom,
    /// Somebody already has this identifier.
    DuplicatePerson,
    /// Somebody already has this key.
    KeyInUse,
    /// The room is out of use.
    RoomShut(RoomCode),
    /// Somebody lives in the room.
    RoomTaken,
    /// The person has a home.
    HasHome,
    /// The person has no home.
    NoHome,
    /// The person has withdrawn from the round.
    Withdrawn,
    /// There are `want` participants, but `got` lottery numbers.
    WrongWordCount { want: usize, got: usize },
    /// The limit of rooms, people, rounds or stored lists is reached, or the list is too long.
    LimitReached,
    /// A different list is stored under this label.
    ListDiffers,
    /// Record `at` of the list is bad, and `cause` says why. The header is record 0.
    BadRecord { at: u32, cause: Cause },
    /// The person does not take part in the round, and so has no place in the order.
    NotInRound,
    /// The round is not over: its number is 0, or the round has not begun or is still under way.
    NoSuchRound,
    /// The room is not shut.
    NotShut,
    /// An allocation failed.
    OutOfMemory,
    /// The person leaves the college after the round.
    Going,
    /// No list is stored under this label.
    UnknownLabel,
}

impl Refusal {
    /// Returns the number of the refusal. The program prints this number, except for `OutOfMemory`.
    pub fn number(&self) -> u8
        ensures { result ≡ number_of self.now }
    {
        match self {
            Refusal::BadPhase(_) => 1,
            Refusal::UnknownPerson => 2,
            Refusal::UnknownRoom(_) => 3,
            Refusal::DuplicateRoom => 4,
            Refusal::DuplicatePerson => 5,
            Refusal::KeyInUse => 6,
            Refusal::RoomShut(_) => 7,
            Refusal::RoomTaken => 8,
            Refusal::HasHome => 9,
            Refusal::NoHome => 10,
            Refusal::Withdrawn => 11,
            Refusal::WrongWordCount { .. } => 12,
            Refusal::LimitReached => 13,
            Refusal::ListDiffers => 14,
            Refusal::BadRecord { .. } => 15,
            Refusal::NotInRound => 16,
            Refusal::NoSuchRound => 17,
            Refusal::NotShut => 18,
            Refusal::OutOfMemory => 19,
            Refusal::Going => 24,
            Refusal::UnknownLabel => 25,
        }
    }

    /// Returns the name of the refusal. The program prints this name, except for `OutOfMemory`.
    pub fn name(&self) -> &'static str
        ensures { result.now ≡ name_of self.now }
    {
        match self {
            Refusal::BadPhase(_) => "BadPhase",
            Refusal::UnknownPerson => "UnknownPerson",
            Refusal::UnknownRoom(_) => "UnknownRoom",
            Refusal::DuplicateRoom => "DuplicateRoom",
            Refusal::DuplicatePerson => "DuplicatePerson",
            Refusal::KeyInUse => "KeyInUse",
            Refusal::RoomShut(_) => "RoomShut",
            Refusal::RoomTaken => "RoomTaken",
            Refusal::HasHome => "HasHome",
            Refusal::NoHome => "NoHome",
            Refusal::Withdrawn => "Withdrawn",
            Refusal::WrongWordCount { .. } => "WrongWordCount",
            Refusal::LimitReached => "LimitReached",
            Refusal::ListDiffers => "ListDiffers",
            Refusal::BadRecord { .. } => "BadRecord",
            Refusal::NotInRound => "NotInRound",
            Refusal::NoSuchRound => "NoSuchRound",
            Refusal::NotShut => "NotShut",
            Refusal::OutOfMemory => "OutOfMemory",
            Refusal::Going => "Going",
            Refusal::UnknownLabel => "UnknownLabel",
        }
    }
}

/// Returns `UnknownRoom` with a copy of the code, or `OutOfMemory` if it cannot be copied.
pub(crate) fn unknown_room_refusal(room: &RoomCode) -> Refusal
    ensures { (result ≡ Refusal.UnknownRoom room.now) ⊎ (result ≡ Refusal.OutOfMemory) }
{
    match room.copy() {
        Ok(room) => Refusal::UnknownRoom(room),
        Err(_) => Refusal::OutOfMemory,
    }
}

/// Returns `RoomShut` with a copy of the code, or `OutOfMemory` if it cannot be copied.
pub(crate) fn shut_room_refusal(room: &RoomCode) -> Refusal
    ensures { (result ≡ Refusal.RoomShut room.now) ⊎ (result ≡ Refusal.OutOfMemory) }
{
    match room.copy() {
        Ok(room) => Refusal::RoomShut(room),
        Err(_) => Refusal::OutOfMemory,
    }
}

impl From<OutOfMemory> for Refusal {
    ghost use Rattle.std.specs.Prelude.{◌≡◌};
    ghost use Rattle.office_core.specs.declared.refusal.Refusal.TheVariants.{OutOfMemory};

    ghost from_gives = { λ _ refusal. refusal ≡ OutOfMemory };

    fn from(_error: OutOfMemory) -> Refusal {
        Refusal::OutOfMemory
    }
}

impl From<AllocError> for Refusal {
    ghost use Rattle.std.specs.Prelude.{◌≡◌};
    ghost use Rattle.office_core.specs.declared.refusal.Refusal.TheVariants.{OutOfMemory};

    ghost from_gives = { λ _ refusal. refusal ≡ OutOfMemory };

    fn from(_error: AllocError) -> Refusal {
        Refusal::OutOfMemory
    }
}

impl<T: Drop> From<AllocFailed<T>> for Refusal {
    ghost use Rattle.std.specs.Prelude.{◌≡◌};
    ghost use Rattle.office_core.specs.declared.refusal.Refusal.TheVariants.{OutOfMemory};

    ghost from_gives = { λ _ refusal. refusal ≡ OutOfMemory };

    fn from(_error: AllocFailed<T>) -> Refusal {
        Refusal::OutOfMemory
    }
}

impl From<ListFault> for Refusal {
    ghost use Rattle.std.specs.Prelude.{◌≡◌};
    ghost use Rattle.office_core.specs.Command.Import.{bad_list};

    ghost from_gives = { λ fault refusal. refusal ≡ bad_list fault };

    fn from(fault: ListFault) -> Refusal {
        match fault {
            ListFault::Bad { at, cause } => Refusal::BadRecord { at, cause },
            ListFault::OutOfMemory => Refusal::OutOfMemory,
        }
    }
}
