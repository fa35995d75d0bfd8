//! Queries of the office.
pub mod answer;
pub mod overview;
pub mod personal;

use room_types::{Choices, Key, PersonId};

/// A query by the office or by a resident.
#[derive(Drop)]
pub enum Query {
    /// Asks for the rooms, sorted by code.
    Rooms,
    /// Asks for the people, sorted by identifier.
    People,
    /// Asks for the number of the latest round (0 before the first), the phase, and three counts: all people, those
    /// who have withdrawn, and those who leave the college.
    Round,
    /// Asks for the participants in the drawn order, with their lottery numbers and grades.
    Order,
    /// Asks for the results of the participants.
    Results,
    /// Asks for the moves of the round with this number.
    Moves(u16),
    /// Asks what the person with this key may see.
    Me(Key),
    /// Asks which room this participant would get with this list in place of the recorded one.
    WhatIf(PersonId, Choices),
}
