//! The orders in which the tables of an office may have been created. Each table stands with the number of its tree.
use crate::tables::names::TableName;

// The order in which this program creates the tables.
pub(super) const OWN: [(TableName, u32); 10] = [
    (TableName::Rooms, 0),
    (TableName::People, 2),
    (TableName::Rounds, 6),
    (TableName::Moves, 7),
    (TableName::Lists, 9),
    (TableName::Grades, 11),
    (TableName::Words, 13),
    (TableName::Results, 15),
    (TableName::Choices, 18),
    (TableName::Going, 21),
];

// The order of `docs/formats.md`.
pub(super) const DOCUMENTED: [(TableName, u32); 10] = [
    (TableName::Rooms, 0),
    (TableName::People, 2),
    (TableName::Rounds, 6),
    (TableName::Choices, 7),
    (TableName::Words, 10),
    (TableName::Results, 12),
    (TableName::Moves, 15),
    (TableName::Lists, 17),
    (TableName::Grades, 19),
    (TableName::Going, 21),
];

// The order in which this program created the tables of version 1.
pub(super) const EARLIER: [(TableName, u32); 8] = [
    (TableName::Rooms, 0),
    (TableName::People, 2),
    (TableName::Rounds, 6),
    (TableName::Moves, 7),
    (TableName::Lists, 9),
    (TableName::Words, 11),
    (TableName::Results, 13),
    (TableName::Choices, 16),
];
