//! The table of results.
ghost use Rattle.office_schema.specs.tables.Edits.{with_result};
ghost use Rattle.office_schema.specs.tables.Runs.{Edits};

use crate::cells::values::{optional_text_in, text_in};
use crate::tables::layouts::Layout;
use crate::tables::parameters::code_or_null;
use crate::tables::refilling::Refilled;
use crate::tables::running::run;
use crate::tables::table_rows::TableRow;
use office_state::Assigned;
use room_types::{OutOfMemory, PersonId, RoomCode};
use sqlite::{Alter, Error, Row, Transaction, params};
use std::alloc::Global;

impl TableRow for (PersonId, Assigned) {
    ghost use Rattle.room_types.specs.Grammars.{is_person_id};
    ghost use Rattle.office_schema.specs.cells.Allocation.{BeginsWith};
    ghost use Rattle.office_schema.specs.cells.Columns.{result_columns, two};
    ghost use Rattle.office_schema.specs.cells.Forms.{IsResultRow};
    ghost use Rattle.office_schema.specs.declared.tables.names.TableName.TheVariants.{Results};

    ghost is_form = { IsResultRow };

    ghost front = { two };

    ghost columns = { result_columns };

    ghost may_allocate = { BeginsWith is_person_id };

    ghost name = { Results };

    ghost kept = { result_columns };

    fn from_row(alloc: Global, row: &Row) -> Result<Option<(PersonId, Assigned)>, OutOfMemory> {
        let Some(person) = text_in(alloc, row, 0)? else {
            return Ok(None);
        };
        let Some(room) = optional_text_in(alloc, row, 1)? else {
            return Ok(None);
        };
        Ok(Some((person, Assigned { room })))
    }

    fn query() -> &'static str {
        "SELECT person, room FROM result"
    }

    fn is_in(_layout: Layout) -> bool {
        true
    }
}

impl Refilled for (PersonId, Assigned) {
    ghost use Rattle.office_schema.specs.tables.Edits.{with_result};

    ghost with_row = { λ r. with_result r.0 r.1.room };

    fn add_again<S: Alter>(
        &self,
        _alloc: Global,
        tx: &mut Transaction<'_, S>,
    ) -> Result<(), Error> {
        add_result(tx, &self.0, &self.1.room)
    }
}

/// Adds a person's result: a room or none. Fails if the person is unknown or has a result already. Also fails if the
/// room is unknown or is somebody else's result.
pub fn add_result<S: Alter>(
    tx: &mut Transaction<'_, S>,
    person: &PersonId,
    room: &Option<RoomCode>,
) -> Result<(), Error>
    ensures { Edits S.Store tx.old tx.new result (with_result person.now room.now) }
{
    run(
        tx,
        "INSERT INTO result(person, room) VALUES (?1, ?2)",
        params![person.as_str(), code_or_null(room)],
    )
}
