//! The table of people.
ghost use Rattle.office_schema.specs.tables.Edits.{with_person, without_person, with_home};
ghost use Rattle.office_schema.specs.tables.Edits.{with_name_and_key, with_withdrawn, without_withdrawn};
ghost use Rattle.office_schema.specs.tables.Runs.{Edits};

use crate::cells::values::{flag_in, optional_text_in, text_in};
use crate::rows::PersonRecord;
use crate::tables::layouts::Layout;
use crate::tables::parameters::code_or_null;
use crate::tables::running::run;
use crate::tables::table_rows::TableRow;
use office_state::Person;
use room_types::{Key, Name, OutOfMemory, PersonId, RoomCode};
use sqlite::{Alter, Error, Row, Transaction, params};
use std::alloc::Global;

impl TableRow for PersonRecord {
    ghost use Rattle.room_types.specs.Grammars.{is_person_id};
    ghost use Rattle.office_schema.specs.cells.Allocation.{BeginsWith};
    ghost use Rattle.office_schema.specs.cells.Columns.{person_columns, five};
    ghost use Rattle.office_schema.specs.cells.Forms.{IsPersonRow};
    ghost use Rattle.office_schema.specs.declared.tables.names.TableName.TheVariants.{People};

    ghost is_form = { IsPersonRow };

    ghost front = { five };

    ghost columns = { person_columns };

    ghost may_allocate = { BeginsWith is_person_id };

    ghost name = { People };

    ghost kept = { person_columns };

    fn from_row(alloc: Global, row: &Row) -> Result<Option<PersonRecord>, OutOfMemory> {
        let Some(id) = text_in(alloc, row, 0)? else {
            return Ok(None);
        };
        let Some(name) = text_in(alloc, row, 1)? else {
            return Ok(None);
        };
        let Some(key) = text_in(alloc, row, 2)? else {
            return Ok(None);
        };
        let Some(home) = optional_text_in(alloc, row, 3)? else {
            return Ok(None);
        };
        let Some(withdrawn) = flag_in(row, 4) else {
            return Ok(None);
        };
        let person = Person { name, key, home };
        Ok(Some(PersonRecord {
            id,
            person,
            withdrawn,
        }))
    }

    fn query() -> &'static str {
        "SELECT id, name, passkey, home, withdrawn FROM person"
    }

    fn is_in(_layout: Layout) -> bool {
        true
    }
}

/// Adds a person, who has not withdrawn. Fails if the identifier, the key or the home is taken, or if the home is not
/// a room.
pub fn add_person<S: Alter>(
    tx: &mut Transaction<'_, S>,
    id: &PersonId,
    name: &Name,
    key: &Key,
    home: &Option<RoomCode>,
) -> Result<(), Error>
    ensures { Edits S.Store tx.old tx.new result
        (with_person id.now (record { name = name.now; key = key.now; home = home.now })) }
{
    run(
        tx,
        "INSERT INTO person(id, name, passkey, home, withdrawn) VALUES (?1, ?2, ?3, ?4, 0)",
        params![id.as_str(), name.as_str(), key.as_str(), code_or_null(home)],
    )
}

/// Deletes a person. Fails if other tables refer to the person.
pub fn drop_person<S: Alter>(tx: &mut Transaction<'_, S>, id: &PersonId) -> Result<(), Error>
    ensures { Edits S.Store tx.old tx.new result (without_person id.now) }
{
    run(tx, "DELETE FROM person WHERE id = ?1", params![id.as_str()])
}

/// Sets or clears a person's home. Does nothing if the person is unknown. Fails if the home is taken or is not a
/// room.
pub fn set_home<S: Alter>(
    tx: &mut Transaction<'_, S>,
    id: &PersonId,
    home: &Option<RoomCode>,
) -> Result<(), Error>
    ensures { Edits S.Store tx.old tx.new result (with_home id.now home.now) }
{
    run(
        tx,
        "UPDATE person SET home = ?2 WHERE id = ?1",
        params![id.as_str(), code_or_null(home)],
    )
}

/// Replaces a person's name and key. Does nothing if the person is unknown. Fails if somebody else has the key.
pub fn set_name_and_key<S: Alter>(
    tx: &mut Transaction<'_, S>,
    id: &PersonId,
    name: &Name,
    key: &Key,
) -> Result<(), Error>
    ensures { Edits S.Store tx.old tx.new result (with_name_and_key id.now name.now key.now) }
{
    run(
        tx,
        "UPDATE person SET name = ?2, passkey = ?3 WHERE id = ?1",
        params![id.as_str(), name.as_str(), key.as_str()],
    )
}

/// Sets a person's `withdrawn` flag. Does nothing if the person is unknown.
pub fn set_withdrawn<S: Alter>(tx: &mut Transaction<'_, S>, id: &PersonId) -> Result<(), Error>
    ensures { Edits S.Store tx.old tx.new result (with_withdrawn id.now) }
{
    run(
        tx,
        "UPDATE person SET withdrawn = 1 WHERE id = ?1",
        params![id.as_str()],
    )
}

/// Clears everybody's `withdrawn` flag.
pub fn clear_withdrawn<S: Alter>(tx: &mut Transaction<'_, S>) -> Result<(), Error>
    ensures { Edits S.Store tx.old tx.new result without_withdrawn }
{
    run(tx, "UPDATE person SET withdrawn = 0", &[])
}
