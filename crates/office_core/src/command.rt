//! Commands of the office.
pub mod decide;
pub mod decision;
pub mod import;
pub mod lists;
pub mod register;
pub mod round;
pub mod settle;

use room_types::{Choices, Grade, Key, Label, ListKind, Listing, Name, PersonId, RoomCode, Word};

/// A command by the office or by a resident.
#[derive(Drop)]
pub enum Command {
    /// Adds a room that is not shut.
    AddRoom {
        room: RoomCode,
    },
    /// Adds a person, perhaps with a home.
    AddPerson {
        person: PersonId,
        name: Name,
        key: Key,
        home: Option<RoomCode>,
    },
    /// Gives a home to somebody who has none.
    SetHome {
        person: PersonId,
        room: RoomCode,
    },
    /// Ends a tenancy: the person then has no home.
    Leave {
        person: PersonId,
    },
    /// Removes a person who has no home.
    Remove {
        person: PersonId,
    },
    /// Takes a room out of use and ends its tenancy.
    Shut {
        room: RoomCode,
    },
    /// Brings a shut room back into use.
    Reopen {
        room: RoomCode,
    },
    /// Begins a round.
    OpenRound,
    /// Replaces a person's list.
    SetChoices {
        person: PersonId,
        choices: Choices,
    },
    /// Takes a person, and that person's room, out of the round.
    Withdraw {
        person: PersonId,
    },
    /// Makes the lists final.
    CloseRound,
    /// Gives each participant a lottery number: the participants, sorted by identifier, get the words in order.
    Draw {
        words: Listing<Word>,
    },
    /// Trades the rooms by the drawn order and the lists.
    Run,
    /// Shows each participant the result.
    Publish,
    /// Moves each participant with a new room into that room, moves out those who leave the college, and ends the
    /// round.
    Settle,
    /// Cancels the round.
    Cancel,
    /// Adds the records of a list, all of them or none, and stores the list under its label.
    Import {
        label: Label,
        kind: ListKind,
        bytes: Listing<u8>,
    },
    /// Gives a person a grade.
    SetGrade {
        person: PersonId,
        grade: Grade,
    },
    /// Records that a person leaves the college after the round. The round trades their room as a vacant one.
    Going {
        person: PersonId,
    },
    /// Replaces a person's name alone.
    SetName {
        person: PersonId,
        name: Name,
    },
    /// Replaces a person's key alone.
    SetKey {
        person: PersonId,
        key: Key,
    },
    /// Overwrites the bytes of an imported list. Its label stays in use.
    Blank {
        label: Label,
    },
}
