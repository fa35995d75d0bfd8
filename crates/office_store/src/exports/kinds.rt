//! The queries for rooms, people, moves and grades.
ghost use Rattle.std.specs.Prelude.{◌≡◌, IfSome};
ghost use Rattle.sqlite_value.specs.Order.{column};
ghost use Rattle.office_core.specs.Query.Overview.{state_of};
ghost use Rattle.office_store.specs.exports.Shown.{u64_in};

use crate::exports::exported::Exported;
use office_lists::{ExportKind, grade_row_bytes, move_row_bytes, person_row_bytes, room_row_bytes};
use office_schema::cells::values::{flag_in, optional_text_in, text_in, u16_in};
use office_schema::tables::table_rows::TableRow;
use room_types::{Grade, GradeRow, Move, OutOfMemory, PersonId, PersonRow, RoomRow, State};
use sqlite::Row;
use sqlite_value::value::ValueRef;
use std::alloc::Global;

impl Exported for RoomRow {
    ghost use Rattle.office_lists.specs.declared.exports.ExportKind.TheVariants.{Rooms};
    ghost use Rattle.office_store.specs.exports.Shown.{room_record};
    ghost use Rattle.office_store.specs.exports.Queries.{rooms_text};

    ghost kind = { Rooms };

    ghost text = { rooms_text };

    ghost fields = { room_record };

    fn kind() -> ExportKind {
        ExportKind::Rooms
    }

    fn query() -> &'static str {
        "SELECT code, shut, id FROM room LEFT JOIN person ON home = code ORDER BY code"
    }

    fn row_bytes(alloc: Global, row: &Row) -> Result<Option<Vec<u8>>, OutOfMemory> {
        let Some(room) = text_in(alloc, row, 0)? else {
            return Ok(None);
        };
        let Some(shut) = flag_in(row, 1) else {
            return Ok(None);
        };
        let Some(tenant) = optional_text_in(alloc, row, 2)? else {
            return Ok(None);
        };
        let state = state_of(shut, &tenant);
        let bytes = room_row_bytes(
            alloc,
            &RoomRow {
                room,
                state,
                tenant,
            },
        )?;
        Ok(Some(bytes))
    }
}

// Returns the state of a room, from whether it is shut and who lives there.
fn state_of(shut: bool, tenant: &Option<PersonId>) -> State
    ensures { result ≡ state_of shut tenant.now }
{
    match (shut, tenant) {
        (true, _) => State::Shut,
        (false, Some(_)) => State::Occupied,
        (false, None) => State::Free,
    }
}

impl Exported for PersonRow {
    ghost use Rattle.office_lists.specs.declared.exports.ExportKind.TheVariants.{People};
    ghost use Rattle.office_store.specs.exports.Shown.{person_record};
    ghost use Rattle.office_store.specs.exports.Queries.{people_text};

    ghost kind = { People };

    ghost text = { people_text };

    ghost fields = { person_record };

    fn kind() -> ExportKind {
        ExportKind::People
    }

    fn query() -> &'static str {
        "SELECT id, name, home FROM person ORDER BY id"
    }

    fn row_bytes(alloc: Global, row: &Row) -> Result<Option<Vec<u8>>, OutOfMemory> {
        let Some(person) = text_in(alloc, row, 0)? else {
            return Ok(None);
        };
        let Some(name) = text_in(alloc, row, 1)? else {
            return Ok(None);
        };
        let Some(home) = optional_text_in(alloc, row, 2)? else {
            return Ok(None);
        };
        let bytes = person_row_bytes(alloc, &PersonRow { person, name, home })?;
        Ok(Some(bytes))
    }
}

impl Exported for Move {
    ghost use Rattle.office_lists.specs.declared.exports.ExportKind.TheVariants.{Moves};
    ghost use Rattle.office_store.specs.exports.Shown.{move_record};
    ghost use Rattle.office_store.specs.exports.Queries.{moves_text};

    ghost kind = { Moves };

    ghost text = { moves_text };

    ghost fields = { move_record };

    fn kind() -> ExportKind {
        ExportKind::Moves
    }

    fn query() -> &'static str {
        "SELECT round, person, from_room, to_room, wave FROM move ORDER BY round, person"
    }

    fn row_bytes(alloc: Global, row: &Row) -> Result<Option<Vec<u8>>, OutOfMemory> {
        let Some(moved) = Move::from_row(alloc, row)? else {
            return Ok(None);
        };
        let bytes = move_row_bytes(alloc, &moved)?;
        Ok(Some(bytes))
    }
}

impl Exported for GradeRow {
    ghost use Rattle.office_lists.specs.declared.exports.ExportKind.TheVariants.{Grades};
    ghost use Rattle.office_store.specs.exports.Shown.{grade_record};
    ghost use Rattle.office_store.specs.exports.Queries.{grades_text};

    ghost kind = { Grades };

    ghost text = { grades_text };

    ghost fields = { grade_record };

    fn kind() -> ExportKind {
        ExportKind::Grades
    }

    fn query() -> &'static str {
        "SELECT id, value FROM person LEFT JOIN grade ON person = id ORDER BY id"
    }

    fn row_bytes(alloc: Global, row: &Row) -> Result<Option<Vec<u8>>, OutOfMemory> {
        let Some(person) = text_in(alloc, row, 0)? else {
            return Ok(None);
        };
        let Some(grade) = grade_in(row, 1) else {
            return Ok(None);
        };
        let bytes = grade_row_bytes(alloc, &GradeRow { person, grade })?;
        Ok(Some(bytes))
    }
}

// Returns the grade in a column. NULL represents grade 0, which no table records. Returns `None` if the cell holds
// neither NULL nor the number of a grade.
fn grade_in(row: &Row, at: usize) -> Option<Grade>
    ensures { IfSome result (λ grade. grade ≡ u64_in (column row.now at)) }
{
    if let Ok(ValueRef::Null) = row.get_ref(at) {
        return Some(Grade::first());
    }
    let number = u8::try_from(u16_in(row, at)?).ok()?;
    Grade::new(number)
}
