//! The elementary changes to an office. A command changes an office by applying a list of these changes.
pub mod apply;

use room_types::{
    Choices, Grade, Key, Label, ListKind, Listing, Move, Name, PersonId, Phase, RoomCode, Word,
};

/// One change to an office.
#[derive(Drop)]
pub enum Change {
    /// Adds a room. If the room is known, only sets whether it is shut.
    PutRoom {
        room: RoomCode,
        shut: bool,
    },
    /// Adds a person. If the person is known, replaces their name, key and home.
    PutPerson {
        person: PersonId,
        name: Name,
        key: Key,
        home: Option<RoomCode>,
    },
    /// Removes a person and their grade. Does nothing if the person is unknown.
    DropPerson {
        person: PersonId,
    },
    /// Sets or clears a person's home. Does nothing if the person is unknown.
    PutHome {
        person: PersonId,
        home: Option<RoomCode>,
    },
    /// Replaces the name and the key of a person, who keeps their home. Does nothing if the person is unknown.
    PutNameAndKey {
        person: PersonId,
        name: Name,
        key: Key,
    },
    /// Records that a person has withdrawn from the round.
    PutWithdrawn {
        person: PersonId,
    },
    /// Sets a person's preference list. An empty list is not stored: it removes the person's recorded list.
    PutChoices {
        person: PersonId,
        choices: Choices,
    },
    /// Sets the word that was drawn for a person.
    PutWord {
        person: PersonId,
        word: Word,
    },
    /// Sets a person's result in the round: a room or no room.
    PutResult {
        person: PersonId,
        room: Option<RoomCode>,
    },
    /// Records a move. It replaces an earlier move of the same person in the same round.
    AddMove(Move),
    /// Sets the number and the phase of the round.
    PutRound {
        number: u16,
        phase: Phase,
    },
    /// Removes all preference lists, withdrawals, words and results, and the records of who leaves the college.
    ClearRound,
    /// Stores an imported list under a label. `count` is the number of records that the import added.
    KeepList {
        label: Label,
        kind: ListKind,
        bytes: Listing<u8>,
        count: u16,
    },
    /// Replaces the bytes of an imported list, which keeps its kind and its count. Does nothing if there is no list with
    /// this label.
    PutBytes {
        label: Label,
        bytes: Listing<u8>,
    },
    /// Sets a person's grade. Grade 0 is not stored: it removes the person's recorded grade.
    PutGrade {
        person: PersonId,
        grade: Grade,
    },
    /// Records that a person leaves the college after the round.
    PutGoing {
        person: PersonId,
    },
}
