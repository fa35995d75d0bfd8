//! The records of an office's tables.
use office_state::{Assigned, Person, StoredImport};
use room_types::{Grade, Label, Move, PersonId, Phase, RoomCode, Word};

/// A row of table `person`, as a record.
#[derive(Drop)]
pub struct PersonRecord {
    pub id: PersonId,
    pub person: Person,
    /// Whether the person has withdrawn from the round.
    pub withdrawn: bool,
}

/// An entry of a preference list: the room that the person listed at this place. Places count from 0. Entries compare
/// by person, then place, then room.
#[derive(Debug, PartialEq, Eq, PartialOrd, Ord, Drop)]
pub struct ChoiceRecord {
    pub person: PersonId,
    pub place: u64,
    pub room: RoomCode,
}

/// A row of table `round`, as a record. In an office this table has exactly one row.
#[derive(Clone, Copy, Debug, Drop)]
pub struct RoundRecord {
    /// The version of the tables.
    pub version: u16,
    pub number: u16,
    pub phase: Phase,
}

/// The records of all tables of an office. The records of each table may be in any order.
#[derive(Drop)]
pub struct OfficeRecords {
    /// Each room, and whether it is shut.
    pub rooms: Vec<(RoomCode, bool)>,
    pub people: Vec<PersonRecord>,
    pub rounds: Vec<RoundRecord>,
    pub choices: Vec<ChoiceRecord>,
    pub words: Vec<(PersonId, Word)>,
    pub results: Vec<(PersonId, Assigned)>,
    pub moves: Vec<Move>,
    /// Each label, with the list that was imported under it.
    pub lists: Vec<(Label, StoredImport)>,
    /// Each person whose grade is not 0, with the grade.
    pub grades: Vec<(PersonId, Grade)>,
    /// Each person who leaves the college after the round.
    pub going: Vec<PersonId>,
}
