//! The names of the tables of an office.

/// One of the ten tables of an office.
#[derive(Clone, Copy, Debug, PartialEq, Eq, Drop)]
pub enum TableName {
    Rooms,
    People,
    Rounds,
    Choices,
    Words,
    Results,
    Moves,
    Lists,
    Grades,
    Going,
}
