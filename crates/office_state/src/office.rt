//! The state of the office.
ghost use Rattle.std.specs.Prelude.{◌≡◌, ◌<◌, IfOk, IsSome, OnErr};
ghost use Rattle.office_state.specs.Office.Invariants.{IsLawful};
ghost use Rattle.office_state.specs.Office.{empty_office, entry_count};

pub mod limits;
pub mod moves;
pub mod person;
pub mod phases;
pub mod queries;
pub mod stored_import;

use crate::office::moves::{RoundMoves, Rounds};
use crate::office::person::Person;
use crate::office::stored_import::StoredImport;
use room_types::grammars::{Labels, PersonIds, RoomCodes};
use room_types::rows::copy_optional;
use room_types::{Choices, ExactClone, Grade, OutOfMemory, Phase, RoomCode, Table, Word};
use std::alloc::{AllocError, Global};

/// The result of a participant in a round.
#[derive(Debug, Drop)]
pub struct Assigned {
    /// The room that the participant gets, or `None` if they get no room.
    pub room: Option<RoomCode>,
}

impl Clone for Assigned {
    ghost is_clone = { λ x y. y ≡ x };

    fn clone(&self) -> Result<Assigned, AllocError>
        ensures copy { IfOk result (λ copy. copy ≡ self.now) }
        ensures memory { OnErr result (IsSome self.now.room) }
    {
        Ok(Assigned {
            room: copy_optional(&self.room)?,
        })
    }
}

impl ExactClone for Assigned {
    ghost same = { λ x y h. h };
}

/// Everything that the office stores: the college's rooms and people, the round under way, the moves of earlier
/// rounds, and the imported lists.
#[derive(Drop)]
pub struct Office {
    /// The known rooms. The value is `true` if the room is shut.
    pub rooms: Table<RoomCodes, bool>,
    pub people: Table<PersonIds, Person>,
    /// The rooms that each person listed, best first. In a lawful office no list is empty.
    pub choices: Table<PersonIds, Choices>,
    /// The people who have withdrawn from the round.
    pub withdrawn: Table<PersonIds, ()>,
    /// The random word that was drawn for each participant. Within a grade, a participant with a smaller word comes
    /// earlier in the drawn order.
    pub words: Table<PersonIds, Word>,
    /// The result of each participant: a room or no room.
    pub results: Table<PersonIds, Assigned>,
    /// The recorded moves, by round. In a lawful office each of these rounds is settled or cancelled, and has at
    /// least one move.
    pub moves: Rounds<RoundMoves>,
    /// The imported lists, by label.
    pub lists: Table<Labels, StoredImport>,
    /// The recorded grades. A person without an entry has grade 0, and a lawful office has no entry for grade 0.
    pub grades: Table<PersonIds, Grade>,
    /// The people who leave the college after the round.
    pub going: Table<PersonIds, ()>,
    /// The number of the latest round, or 0 before the first.
    pub number: u16,
    pub phase: Phase,
}

impl Office {
    /// Creates the office with nothing in it, before the first round.
    pub fn empty(alloc: Global) -> Office
        ensures empty { result ≡ empty_office }
        ensures lawful { IsLawful result }
    {
        Office {
            rooms: Table::new(alloc),
            people: Table::new(alloc),
            choices: Table::new(alloc),
            withdrawn: Table::new(alloc),
            words: Table::new(alloc),
            results: Table::new(alloc),
            moves: Rounds::new(alloc),
            lists: Table::new(alloc),
            grades: Table::new(alloc),
            going: Table::new(alloc),
            number: 0,
            phase: Phase::Idle,
        }
    }

    /// Copies the office. Does not allocate if all tables are empty.
    ///
    /// # Errors
    ///
    /// `OutOfMemory` if an allocation fails.
    pub fn copy(&self) -> Result<Office, OutOfMemory>
        ensures copy { IfOk result (λ copy. copy ≡ self.now) }
        ensures memory { OnErr result (0 < entry_count self.now) }
    {
        Ok(Office {
            rooms: self.rooms.copy()?,
            people: self.people.copy()?,
            choices: self.choices.copy()?,
            withdrawn: self.withdrawn.copy()?,
            words: self.words.copy()?,
            results: self.results.copy()?,
            moves: self.moves.copy()?,
            lists: self.lists.copy()?,
            grades: self.grades.copy()?,
            going: self.going.copy()?,
            number: self.number,
            phase: self.phase,
        })
    }
}
