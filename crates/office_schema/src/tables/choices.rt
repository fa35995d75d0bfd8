//! The table of choices: a row for each place of a preference list.
ghost use Rattle.std.specs.Prelude.{◌≡◌, IfSome};
ghost use Rattle.office_schema.specs.tables.Edits.{with_choice, without_choices_of};
ghost use Rattle.office_schema.specs.tables.Runs.{Edits};

use crate::cells::values::{text_in, u64_in};
use crate::rows::ChoiceRecord;
use crate::tables::layouts::Layout;
use crate::tables::refilling::Refilled;
use crate::tables::running::run;
use crate::tables::table_rows::TableRow;
use room_types::{OutOfMemory, PersonId, RoomCode};
use sqlite::{Alter, Error, ErrorCode, Row, Transaction, params};
use std::alloc::Global;

impl TableRow for ChoiceRecord {
    ghost use Rattle.room_types.specs.Grammars.{is_person_id};
    ghost use Rattle.office_schema.specs.cells.Allocation.{BeginsWith};
    ghost use Rattle.office_schema.specs.cells.Columns.{choice_columns, three};
    ghost use Rattle.office_schema.specs.cells.Forms.{IsChoiceRow};
    ghost use Rattle.office_schema.specs.declared.tables.names.TableName.TheVariants.{Choices};

    ghost is_form = { IsChoiceRow };

    ghost front = { three };

    ghost columns = { choice_columns };

    ghost may_allocate = { BeginsWith is_person_id };

    ghost name = { Choices };

    ghost kept = { choice_columns };

    fn from_row(alloc: Global, row: &Row) -> Result<Option<ChoiceRecord>, OutOfMemory> {
        let Some(person) = text_in(alloc, row, 0)? else {
            return Ok(None);
        };
        let Some(place) = u64_in(row, 1) else {
            return Ok(None);
        };
        let Some(room) = text_in(alloc, row, 2)? else {
            return Ok(None);
        };
        Ok(Some(ChoiceRecord {
            person,
            place,
            room,
        }))
    }

    fn query() -> &'static str {
        "SELECT person, place, room FROM choice"
    }

    fn is_in(_layout: Layout) -> bool {
        true
    }
}

impl Refilled for ChoiceRecord {
    ghost use Rattle.office_schema.specs.tables.Edits.{with_choice};

    ghost with_row = { λ r. with_choice r.person r.place r.room };

    fn add_again<S: Alter>(
        &self,
        _alloc: Global,
        tx: &mut Transaction<'_, S>,
    ) -> Result<(), Error> {
        // A lawful list has at most `CHOICE_LIMIT` places, so the place fits in 32 bits.
        let Some(place) = narrow_place(self.place) else {
            return Err(Error::SqliteFailure(ErrorCode::DatabaseCorrupt));
        };
        add_choice(tx, &self.person, place, &self.room)
    }
}

// Converts a place to 32 bits, if it fits.
fn narrow_place(place: u64) -> Option<u32>
    ensures { IfSome result (λ number. number ≡ place) }
{
    u32::try_from(place).ok()
}

/// Adds a room to a person's preference list at place `place`. Places count from 0. Fails if the person or the room
/// is unknown. Also fails if the list already has a room at this place, or already has this room.
pub fn add_choice<S: Alter>(
    tx: &mut Transaction<'_, S>,
    person: &PersonId,
    place: u32,
    room: &RoomCode,
) -> Result<(), Error>
    ensures { Edits S.Store tx.old tx.new result (with_choice person.now place room.now) }
{
    run(
        tx,
        "INSERT INTO choice(person, place, room) VALUES (?1, ?2, ?3)",
        params![person.as_str(), place, room.as_str()],
    )
}

/// Deletes a person's preference list. Does nothing if the person has none.
pub fn drop_choices<S: Alter>(tx: &mut Transaction<'_, S>, person: &PersonId) -> Result<(), Error>
    ensures { Edits S.Store tx.old tx.new result (without_choices_of person.now) }
{
    run(
        tx,
        "DELETE FROM choice WHERE person = ?1",
        params![person.as_str()],
    )
}
