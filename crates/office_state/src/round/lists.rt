//! Converts homes and preference lists from room codes to room numbers.
ghost use Rattle.std.specs.Prelude.{◌≡◌, IfOk, OnOk, [], None, filter_map, map as map_list};
ghost use Rattle.std.specs.Option.{option_copied, option_and_then};
ghost use Rattle.std.specs.List.{All};
ghost use Rattle.std.specs.FinMap as map;
ghost use Rattle.room_types.specs.Repeats.{first_repeated};
ghost use Rattle.office_state.specs.Office.{home_of, choices_of};
ghost use Rattle.office_state.specs.Round.{before_own};

use crate::office::Office;
use crate::office::queries::is_room;
use room_types::grammars::RoomCodes;
use room_types::{OutOfMemory, PersonId, RoomCode, Table};
use std::alloc::Global;

/// Returns, for each person, the number of their home. An entry is `None` if the person has no home, or if `numbers`
/// has no number for the home.
pub(crate) fn homes(
    alloc: Global,
    office: &Office,
    people: &[PersonId],
    numbers: &Table<RoomCodes, usize>,
) -> Result<Vec<Option<usize>>, OutOfMemory>
    ensures { IfOk result (λ homes. homes.items ≡
        map_list (λ p. option_and_then (map.get numbers.now) (home_of office.now p)) people.now) }
{
    let mut homes = Vec::with_capacity(alloc, people.len())?;
    for person in people {
        homes.push(home_number(office, person, numbers))?;
    }
    Ok(homes)
}

fn home_number(
    office: &Office,
    person: &PersonId,
    numbers: &Table<RoomCodes, usize>,
) -> Option<usize>
    ensures { result ≡ option_and_then (map.get numbers.now) (home_of office.now person.now) }
{
    let home = office.home_of(person)?;
    numbers.get(home).copied()
}

/// Returns the numbers of the rooms that `codes` lists before `home`. If there is no home, or if `codes` does not
/// list the home, returns the numbers of all listed rooms. Leaves out the rooms that have no number in `numbers`.
pub(crate) fn numbers_of(
    alloc: Global,
    numbers: &Table<RoomCodes, usize>,
    home: Option<&RoomCode>,
    codes: &[RoomCode],
) -> Result<Vec<usize>, OutOfMemory>
    ensures { IfOk result (λ list. list.items ≡
        filter_map (map.get numbers.now) (before_own (option_copied home.entry) codes.now)) }
{
    let mut list = Vec::new(alloc);
    for code in before_own(home, codes) {
        if let Some(number) = numbers.get(code) {
            list.push(*number)?;
        }
    }
    Ok(list)
}

fn before_own<'a>(home: Option<&RoomCode>, codes: &'a [RoomCode]) -> &'a [RoomCode]
    ensures { result.now ≡ before_own (option_copied home.entry) codes.now }
{
    match codes.iter().position(|code| is_room(home, code)) {
        Some(place) => &codes[..place],
        None => codes,
    }
}

/// Returns, for each person, what `numbers_of` returns for their home and their recorded list. A person without a
/// recorded list gets an empty list.
pub(crate) fn lists(
    alloc: Global,
    office: &Office,
    people: &[PersonId],
    numbers: &Table<RoomCodes, usize>,
) -> Result<Vec<Vec<usize>>, OutOfMemory>
    ensures lists { IfOk result (λ lists. map_list (λ list. list.items) lists.items ≡
        map_list (λ p. filter_map (map.get numbers.now)
        (before_own (home_of office.now p) (choices_of office.now p))) people.now) }
    ensures differ { OnOk result
        (All (λ p. first_repeated [] (choices_of office.now p) ≡ None) people.now) }
{
    let mut lists = Vec::with_capacity(alloc, people.len())?;
    for person in people {
        lists.push(list_numbers(alloc, office, person, numbers)?)?;
    }
    Ok(lists)
}

fn list_numbers(
    alloc: Global,
    office: &Office,
    person: &PersonId,
    numbers: &Table<RoomCodes, usize>,
) -> Result<Vec<usize>, OutOfMemory>
    ensures list { IfOk result (λ list. list.items ≡
        filter_map (map.get numbers.now)
        (before_own (home_of office.now person.now) (choices_of office.now person.now))) }
    ensures differ { OnOk result (first_repeated [] (choices_of office.now person.now) ≡ None) }
{
    match office.choices.get(person) {
        Some(choices) => numbers_of(alloc, numbers, office.home_of(person), choices.as_slice()),
        None => Ok(Vec::new(alloc)),
    }
}
