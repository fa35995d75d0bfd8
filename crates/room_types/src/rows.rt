//! The types of the rows that replies, text tables and exports contain.
ghost use Rattle.std.specs.Prelude.{◌≡◌, IfOk, IsSome, OnErr, Some};
ghost use Rattle.room_types.specs.Rows.{state_text};

use crate::grade::Grade;
use crate::grammars::{Name, PersonId, RoomCode};
use crate::text::{Grammar, Text};
use std::alloc::AllocError;
use std::fmt;

/// Whether a room has a tenant, and whether it is in use.
#[derive(Clone, Copy, Debug, PartialEq, Eq, Drop)]
pub enum State {
    /// The room is in use, and nobody lives in it.
    Free,
    /// Somebody lives in the room.
    Occupied,
    /// The room is out of use, and nobody lives in it.
    Shut,
}

impl State {
    /// Returns the printed form of the state: `free`, `occupied` or `shut`.
    pub fn as_str(self) -> &'static str
        ensures { result.now ≡ state_text self }
    {
        match self {
            State::Free => "free",
            State::Occupied => "occupied",
            State::Shut => "shut",
        }
    }
}

impl fmt::Display for State {
    ghost output = { λ state. Some (state_text state) };

    fn fmt<W: fmt::Write>(&self, f: &mut fmt::Formatter<W>) -> fmt::Result {
        f.write_str(self.as_str())
    }
}

/// A room with its state and its tenant.
#[derive(Debug, Drop)]
pub struct RoomRow {
    pub room: RoomCode,
    pub state: State,
    pub tenant: Option<PersonId>,
}

/// A person's identifier, name and home. The row leaves out the person's secret key.
#[derive(Debug, Drop)]
pub struct PersonRow {
    pub person: PersonId,
    pub name: Name,
    pub home: Option<RoomCode>,
}

/// A person's grade.
#[derive(Debug, Drop)]
pub struct GradeRow {
    pub person: PersonId,
    pub grade: Grade,
}

/// A participant's result in a round.
#[derive(Debug, Drop)]
pub struct ResultRow {
    pub person: PersonId,
    /// The room that the participant gets, or `None` if they get no room.
    pub room: Option<RoomCode>,
}

/// Copies a text, if there is one. Does not allocate for `None`.
pub fn copy_optional<G: Grammar>(text: &Option<Text<G>>) -> Result<Option<Text<G>>, AllocError>
    ensures copy { IfOk result (λ copy. copy ≡ text.now) }
    ensures memory { OnErr result (IsSome text.now) }
{
    match text {
        Some(text) => Ok(Some(text.clone()?)),
        None => Ok(None),
    }
}
