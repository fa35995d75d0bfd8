//! The table of moves.
ghost use Rattle.office_schema.specs.tables.Edits.{with_move};
ghost use Rattle.office_schema.specs.tables.Runs.{Edits};

use crate::cells::values::{optional_text_in, text_in, u16_in, wave_in};
use crate::tables::layouts::Layout;
use crate::tables::parameters::{code_or_null, number_or_null};
use crate::tables::refilling::Refilled;
use crate::tables::running::run;
use crate::tables::table_rows::TableRow;
use room_types::{Move, OutOfMemory};
use sqlite::{Alter, Error, Row, Transaction, params};
use std::alloc::Global;

impl TableRow for Move {
    ghost use Rattle.room_types.specs.Grammars.{is_person_id};
    ghost use Rattle.office_schema.specs.cells.Allocation.{FollowsNumber};
    ghost use Rattle.office_schema.specs.cells.Columns.{move_columns, five};
    ghost use Rattle.office_schema.specs.cells.Forms.{IsMoveRow};
    ghost use Rattle.office_schema.specs.declared.tables.names.TableName.TheVariants.{Moves};

    ghost is_form = { IsMoveRow };

    ghost front = { five };

    ghost columns = { move_columns };

    ghost may_allocate = { FollowsNumber is_person_id };

    ghost name = { Moves };

    ghost kept = { move_columns };

    fn from_row(alloc: Global, row: &Row) -> Result<Option<Move>, OutOfMemory> {
        let Some(round) = u16_in(row, 0) else {
            return Ok(None);
        };
        let Some(person) = text_in(alloc, row, 1)? else {
            return Ok(None);
        };
        let Some(from) = optional_text_in(alloc, row, 2)? else {
            return Ok(None);
        };
        let Some(to) = optional_text_in(alloc, row, 3)? else {
            return Ok(None);
        };
        let Some(wave) = wave_in(row, 4) else {
            return Ok(None);
        };
        Ok(Some(Move {
            round,
            person,
            from,
            to,
            wave,
        }))
    }

    fn query() -> &'static str {
        "SELECT round, person, from_room, to_room, wave FROM move"
    }

    fn is_in(_layout: Layout) -> bool {
        true
    }
}

impl Refilled for Move {
    ghost use Rattle.office_schema.specs.tables.Edits.{with_move};

    ghost with_row = { with_move };

    fn add_again<S: Alter>(
        &self,
        _alloc: Global,
        tx: &mut Transaction<'_, S>,
    ) -> Result<(), Error> {
        add_move(tx, self)
    }
}

/// Adds a move of a person in a round. Fails if a move of this person in this round is stored already.
pub fn add_move<S: Alter>(tx: &mut Transaction<'_, S>, row: &Move) -> Result<(), Error>
    ensures { Edits S.Store tx.old tx.new result (with_move row.now) }
{
    run(
        tx,
        "INSERT INTO move(round, person, from_room, to_room, wave) VALUES (?1, ?2, ?3, ?4, ?5)",
        params![
            u32::from(row.round),
            row.person.as_str(),
            code_or_null(&row.from),
            code_or_null(&row.to),
            number_or_null(row.wave)
        ],
    )
}
