//! Rebuilding people and withdrawals from the rows of people.
ghost use Rattle.std.specs.Prelude.{◌≡◌, ◌<◌, IfOk, OnErr, OnOk, length, reverse};
ghost use Rattle.office_schema.specs.rows.Inner.FilledPeople.{marked, nobody, filled_people};
ghost use Rattle.office_schema.specs.rows.People.{AreValid, people_rows};
ghost use Rattle.office_schema.specs.rows.Reads.{Reads};

use crate::rows::records::PersonRecord;
use office_state::Person;
use room_types::grammars::PersonIds;
use room_types::{OutOfMemory, Table};
use std::alloc::Global;

/// All people, and the set of those who have withdrawn from the round.
#[derive(Drop)]
pub struct People {
    pub people: Table<PersonIds, Person>,
    pub withdrawn: Table<PersonIds, ()>,
}

/// Rebuilds the people and withdrawals that have exactly the given rows. The rows may be in any order. Returns `None`
/// if an identifier occurs twice; otherwise the result is unique. Fails only if an allocation fails, and cannot fail
/// if `rows` is empty.
pub fn read_people(alloc: Global, rows: Vec<PersonRecord>) -> Result<Option<People>, OutOfMemory>
    ensures reads { IfOk result (λ found. Reads AreValid people_rows rows.items found) }
    ensures memory { OnErr result (0 < length rows.items) }
{
    fill_people(alloc, rows)
}

// Inserts the rows into the maps, from the last row to the first. Returns `None` if an identifier occurs twice.
fn fill_people(alloc: Global, rows: Vec<PersonRecord>) -> Result<Option<People>, OutOfMemory>
    ensures fills { IfOk result (λ found. found ≡ filled_people nobody (reverse rows.items)) }
    ensures memory { OnErr result (0 < length rows.items) }
{
    let mut rows = rows;
    let mut people: Table<PersonIds, Person> = Table::new(alloc);
    let mut withdrawn: Table<PersonIds, ()> = Table::new(alloc);
    while let Some(row) = rows.pop() {
        if people.contains_key(&row.id) {
            return Ok(None);
        }
        mark(&mut withdrawn, &row)?;
        people.insert(row.id, row.person)?;
    }
    Ok(Some(People { people, withdrawn }))
}

// Marks the row's person as withdrawn, if the row says so.
fn mark(withdrawn: &mut Table<PersonIds, ()>, row: &PersonRecord) -> Result<(), OutOfMemory>
    ensures { OnOk result (withdrawn.new ≡ marked withdrawn.old row.now) }
{
    if row.withdrawn {
        withdrawn.insert(row.id.copy()?, ())?;
    }
    Ok(())
}
