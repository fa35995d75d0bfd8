//! Moves of people after a round.
ghost use Rattle.std.specs.Prelude.{◌≡◌, IfOk};

use crate::fault::OutOfMemory;
use crate::grammars::{PersonId, RoomCode};
use crate::rows::copy_optional;
use crate::table::ExactClone;
use std::alloc::AllocError;

/// When a move takes place on the day of moving.
#[derive(Clone, Copy, Debug, PartialEq, Eq, Drop)]
pub enum Wave {
    /// A swap: the people of a cycle move, each into the room that the next one leaves. So none of them can move
    /// first.
    Swap,
    /// A numbered wave. People in wave 0 leave the college. People in wave 1 move into rooms that nobody leaves or
    /// that people in wave 0 leave. People in each later wave move into rooms that people in the wave before leave.
    Nth(u16),
}

/// A person's move after a round.
#[derive(Debug, Drop)]
pub struct Move {
    /// The number of the round, from 1.
    pub round: u16,
    pub person: PersonId,
    /// The old room, or `None` for a newcomer.
    pub from: Option<RoomCode>,
    /// The new room, or `None` for a person who leaves the college.
    pub to: Option<RoomCode>,
    pub wave: Wave,
}

impl Move {
    /// Copies the move.
    pub fn copy(&self) -> Result<Move, OutOfMemory>
        ensures { IfOk result (λ copy. copy ≡ self.now) }
    {
        let copy = self.clone()?;
        Ok(copy)
    }
}

impl Clone for Move {
    ghost is_clone = { λ x y. y ≡ x };

    fn clone(&self) -> Result<Move, AllocError> {
        Ok(Move {
            round: self.round,
            person: self.person.clone()?,
            from: copy_optional(&self.from)?,
            to: copy_optional(&self.to)?,
            wave: self.wave,
        })
    }
}

impl ExactClone for Move {
    ghost same = { λ x y h. h };
}
