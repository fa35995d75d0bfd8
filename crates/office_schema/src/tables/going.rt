//! The table of people who leave the college after the round.
ghost use Rattle.office_schema.specs.tables.Edits.{with_going};
ghost use Rattle.office_schema.specs.tables.Runs.{Edits};

use crate::cells::values::text_in;
use crate::tables::layouts::Layout;
use crate::tables::refilling::Refilled;
use crate::tables::running::run;
use crate::tables::table_rows::TableRow;
use room_types::{OutOfMemory, PersonId};
use sqlite::{Alter, Error, Row, Transaction, params};
use std::alloc::Global;

impl TableRow for PersonId {
    ghost use Rattle.room_types.specs.Grammars.{is_person_id};
    ghost use Rattle.office_schema.specs.cells.Allocation.{BeginsWith};
    ghost use Rattle.office_schema.specs.cells.Columns.{going_columns, one};
    ghost use Rattle.office_schema.specs.cells.Forms.{IsGoingRow};
    ghost use Rattle.office_schema.specs.declared.tables.names.TableName.TheVariants.{Going};

    ghost is_form = { IsGoingRow };

    ghost front = { one };

    ghost columns = { going_columns };

    ghost may_allocate = { BeginsWith is_person_id };

    ghost name = { Going };

    ghost kept = { going_columns };

    fn from_row(alloc: Global, row: &Row) -> Result<Option<PersonId>, OutOfMemory> {
        text_in(alloc, row, 0)
    }

    fn query() -> &'static str {
        "SELECT person FROM going"
    }

    fn is_in(layout: Layout) -> bool {
        layout.has_leavers()
    }
}

impl Refilled for PersonId {
    ghost use Rattle.office_schema.specs.tables.Edits.{with_going};

    ghost with_row = { with_going };

    fn add_again<S: Alter>(
        &self,
        _alloc: Global,
        tx: &mut Transaction<'_, S>,
    ) -> Result<(), Error> {
        add_going(tx, self)
    }
}

/// Records that a person leaves the college after the round. Fails if this is recorded already, or if the person is
/// unknown.
pub fn add_going<S: Alter>(tx: &mut Transaction<'_, S>, person: &PersonId) -> Result<(), Error>
    ensures { Edits S.Store tx.old tx.new result (with_going person.now) }
{
    run(
        tx,
        "INSERT INTO going(person) VALUES (?1)",
        params![person.as_str()],
    )
}
