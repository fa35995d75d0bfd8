//! Compares offices without allocating.
use office_state::{Assigned, Moved, Office, Person, RoundMoves, StoredImport};
use room_types::{Choices, Grade, Word};

/// Whether both offices have the same register, grades, round, moves and stored imports.
pub fn is_same_office(one: &Office, other: &Office) -> bool {
    one.number == other.number
        && one.phase == other.phase
        && has_register(one, other)
        && has_grades(one, other)
        && has_round(one, other)
        && has_records(one, other)
}

fn has_register(one: &Office, other: &Office) -> bool {
    one.rooms.len() == other.rooms.len()
        && one.people.len() == other.people.len()
        && one
            .rooms
            .iter()
            .all(|(room, shut)| is_flag(other.rooms.get(room), *shut))
        && one
            .people
            .iter()
            .all(|(id, person)| is_person(other.people.get(id), person))
}

fn has_grades(one: &Office, other: &Office) -> bool {
    one.grades.len() == other.grades.len()
        && one
            .grades
            .iter()
            .all(|(id, grade)| is_grade(other.grades.get(id), *grade))
}

fn has_round(one: &Office, other: &Office) -> bool {
    one.choices.len() == other.choices.len()
        && one.withdrawn.len() == other.withdrawn.len()
        && one.choices.iter().all(|(id, choices)| are_choices(other.choices.get(id), choices))
        && one
            .withdrawn
            .iter()
            .all(|(id, _)| other.withdrawn.contains_key(id))
        && one.going.len() == other.going.len()
        && one.going.iter().all(|(id, _)| other.going.contains_key(id))
        && has_outcome(one, other)
}

fn has_outcome(one: &Office, other: &Office) -> bool {
    one.words.len() == other.words.len()
        && one.results.len() == other.results.len()
        && one
            .words
            .iter()
            .all(|(id, word)| is_word(other.words.get(id), *word))
        && one.results.iter().all(|(id, assigned)| is_assigned(other.results.get(id), assigned))
}

fn has_records(one: &Office, other: &Office) -> bool {
    one.lists.len() == other.lists.len()
        && one
            .lists
            .iter()
            .all(|(label, stored)| is_list(other.lists.get(label), stored))
        && has_moves(one, other)
        && has_moves(other, one)
}

// Whether `other` has all moves of `one`.
fn has_moves(one: &Office, other: &Office) -> bool {
    one.moves
        .iter()
        .all(|(round, moves)| are_moves(other.moves.get(*round), moves))
}

fn is_flag(found: Option<&bool>, flag: bool) -> bool {
    match found {
        Some(found) => *found == flag,
        None => false,
    }
}

fn is_person(found: Option<&Person>, person: &Person) -> bool {
    match found {
        Some(found) => {
            found.name == person.name && found.key == person.key && found.home == person.home
        }
        None => false,
    }
}

fn is_grade(found: Option<&Grade>, grade: Grade) -> bool {
    match found {
        Some(found) => *found == grade,
        None => false,
    }
}

fn are_choices(found: Option<&Choices>, choices: &Choices) -> bool {
    match found {
        Some(found) => found.as_slice() == choices.as_slice(),
        None => false,
    }
}

fn is_word(found: Option<&Word>, word: Word) -> bool {
    match found {
        Some(found) => *found == word,
        None => false,
    }
}

fn is_assigned(found: Option<&Assigned>, assigned: &Assigned) -> bool {
    match found {
        Some(found) => found.room == assigned.room,
        None => false,
    }
}

fn is_list(found: Option<&StoredImport>, stored: &StoredImport) -> bool {
    match found {
        Some(found) => {
            found.kind == stored.kind
                && found.count == stored.count
                && found.bytes.as_slice() == stored.bytes.as_slice()
        }
        None => false,
    }
}

fn are_moves(found: Option<&RoundMoves>, moves: &RoundMoves) -> bool {
    match found {
        Some(found) => {
            found.by_person.len() == moves.by_person.len()
                && moves
                    .by_person
                    .iter()
                    .all(|(id, moved)| is_move(found.by_person.get(id), moved))
        }
        None => false,
    }
}

fn is_move(found: Option<&Moved>, moved: &Moved) -> bool {
    match found {
        Some(found) => {
            found.from == moved.from && found.to == moved.to && found.wave == moved.wave
        }
        None => false,
    }
}
