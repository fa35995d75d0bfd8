//! Rebuilds preference lists from rows, each of which holds a person, a place and a room.
ghost use Rattle.std.specs.Prelude.{◌≡◌, ◌<◌, IfOk, OnErr, MatchOption, length};
ghost use Rattle.std.specs.List.Sorted.{IsPermutation, IsSorted};
ghost use Rattle.std.specs.FinMap as map;
ghost use Rattle.room_types.specs.Choices.{IsChoices};
ghost use Rattle.office_schema.specs.rows.Inner.Gathered.{chosen_from, gathered, row_cmp};
ghost use Rattle.office_schema.specs.rows.Reads.{Reads};
ghost use Rattle.office_schema.specs.rows.Rows.{AreStorableLists, choice_rows};

use crate::rows::records::ChoiceRecord;
use room_types::grammars::PersonIds;
use room_types::{Choices, Listing, OutOfMemory, RoomCode, Table, TypeFault};
use std::alloc::Global;

/// Rebuilds the preference lists that have exactly the given rows. The rows may be in any order. Returns `None` if no
/// valid lists have these rows; otherwise the result is unique. Takes O(n log n) time. Fails only if an allocation
/// fails, and cannot fail if `rows` is empty.
pub fn read_choices(
    alloc: Global,
    rows: Vec<ChoiceRecord>,
) -> Result<Option<Table<PersonIds, Choices>>, OutOfMemory>
    ensures reads { IfOk result (λ found. Reads AreStorableLists choice_rows rows.items found) }
    ensures memory { OnErr result (0 < length rows.items) }
{
    let mut rows = rows;
    sort_choice_rows(&mut rows);
    let Some(lists) = gather(alloc, rows.as_slice())? else {
        return Ok(None);
    };
    all_chosen(alloc, &lists)
}

// Sorts the rows by person, then place, then room.
fn sort_choice_rows(rows: &mut Vec<ChoiceRecord>)
    ensures moved { IsPermutation rows.old.items rows.new.items }
    ensures ascending { IsSorted row_cmp rows.new.items }
{
    rows.sort_unstable();
}

// Collects the rooms of each person, in the order of the rows. Returns `None` if a row's place is not the number of
// rooms collected for its person so far.
fn gather(
    alloc: Global,
    rows: &[ChoiceRecord],
) -> Result<Option<Table<PersonIds, Listing<RoomCode>>>, OutOfMemory>
    ensures gathers { IfOk result (λ found. found ≡ gathered map.empty rows.now) }
    ensures memory { OnErr result (0 < length rows.now) }
{
    let mut lists: Table<PersonIds, Listing<RoomCode>> = Table::new(alloc);
    for row in rows {
        let mut codes = match lists.take(&row.person) {
            Some(codes) => codes,
            None => Listing::empty(alloc),
        };
        if row.place != codes.len() as u64 {
            return Ok(None);
        }
        codes.push(row.room.copy()?)?;
        lists.insert(row.person.copy()?, codes)?;
    }
    Ok(Some(lists))
}

// Converts each person's list to `Choices`. Returns `None` if a list is not valid.
fn all_chosen(
    alloc: Global,
    lists: &Table<PersonIds, Listing<RoomCode>>,
) -> Result<Option<Table<PersonIds, Choices>>, OutOfMemory>
    ensures chooses { IfOk result (λ found. found ≡ chosen_from map.empty (map.entries lists.now)) }
    ensures memory { OnErr result (0 < length (map.entries lists.now)) }
{
    let mut made: Table<PersonIds, Choices> = Table::new(alloc);
    for (person, codes) in lists.iter() {
        let Some(choices) = chosen(alloc, codes.as_slice())? else {
            return Ok(None);
        };
        made.insert(person.copy()?, choices)?;
    }
    Ok(Some(made))
}

// Converts the codes to `Choices`. Returns `None` if there are too many codes, or if a code occurs twice.
fn chosen(alloc: Global, codes: &[RoomCode]) -> Result<Option<Choices>, OutOfMemory>
    ensures { IfOk result (λ found. MatchOption found (IsChoices codes.now → ⊥)
        (λ choices. (choices ≡ codes.now) × IsChoices codes.now)) }
{
    match Choices::read(copied(alloc, codes)?) {
        Ok(choices) => Ok(Some(choices)),
        Err(TypeFault::OutOfMemory) => Err(OutOfMemory {}),
        Err(_) => Ok(None),
    }
}

// Copies the codes, in order.
fn copied(alloc: Global, codes: &[RoomCode]) -> Result<Vec<RoomCode>, OutOfMemory>
    ensures { IfOk result (λ copies. copies.items ≡ codes.now) }
{
    let mut copies = Vec::with_capacity(alloc, codes.len())?;
    for code in codes {
        copies.push(code.copy()?)?;
    }
    Ok(copies)
}
