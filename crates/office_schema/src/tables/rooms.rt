//! The table of rooms.
ghost use Rattle.office_schema.specs.tables.Edits.{with_room, with_shut};
ghost use Rattle.office_schema.specs.tables.Runs.{Edits};

use crate::cells::values::{flag_in, text_in};
use crate::tables::layouts::Layout;
use crate::tables::running::run;
use crate::tables::table_rows::TableRow;
use room_types::{OutOfMemory, RoomCode};
use sqlite::{Alter, Error, Row, Transaction, params};
use std::alloc::Global;

impl TableRow for (RoomCode, bool) {
    ghost use Rattle.room_types.specs.Grammars.{is_room_code};
    ghost use Rattle.office_schema.specs.cells.Allocation.{BeginsWith};
    ghost use Rattle.office_schema.specs.cells.Columns.{room_columns, two};
    ghost use Rattle.office_schema.specs.cells.Forms.{IsRoomRow};
    ghost use Rattle.office_schema.specs.declared.tables.names.TableName.TheVariants.{Rooms};

    ghost is_form = { IsRoomRow };

    ghost front = { two };

    ghost columns = { room_columns };

    ghost may_allocate = { BeginsWith is_room_code };

    ghost name = { Rooms };

    ghost kept = { room_columns };

    fn from_row(alloc: Global, row: &Row) -> Result<Option<(RoomCode, bool)>, OutOfMemory> {
        let Some(code) = text_in(alloc, row, 0)? else {
            return Ok(None);
        };
        let Some(shut) = flag_in(row, 1) else {
            return Ok(None);
        };
        Ok(Some((code, shut)))
    }

    fn query() -> &'static str {
        "SELECT code, shut FROM room"
    }

    fn is_in(_layout: Layout) -> bool {
        true
    }
}

/// Adds a room with its `shut` flag. Fails if the room exists already.
pub fn add_room<S: Alter>(
    tx: &mut Transaction<'_, S>,
    room: &RoomCode,
    shut: bool,
) -> Result<(), Error>
    ensures { Edits S.Store tx.old tx.new result (with_room room.now shut) }
{
    run(
        tx,
        "INSERT INTO room(code, shut) VALUES (?1, ?2)",
        params![room.as_str(), shut],
    )
}

/// Sets a room's `shut` flag. Does nothing if the room is unknown.
pub fn set_shut<S: Alter>(
    tx: &mut Transaction<'_, S>,
    room: &RoomCode,
    shut: bool,
) -> Result<(), Error>
    ensures { Edits S.Store tx.old tx.new result (with_shut room.now shut) }
{
    run(
        tx,
        "UPDATE room SET shut = ?2 WHERE code = ?1",
        params![room.as_str(), shut],
    )
}
