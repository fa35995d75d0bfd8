//! The table of grades: a row for each person whose grade is not 0.
ghost use Rattle.std.specs.Prelude.{◌≡◌, pos, IfSome, MatchOption};
ghost use Rattle.sqlite_value.specs.Order.{column};
ghost use Rattle.sqlite_value.specs.declared.value.Value.TheVariants.{Int};
ghost use Rattle.office_schema.specs.cells.Cells.{IsGrade};
ghost use Rattle.office_schema.specs.tables.Edits.{with_grade, without_grade_of};
ghost use Rattle.office_schema.specs.tables.Runs.{Edits};

use crate::cells::values::{text_in, u16_in};
use crate::tables::layouts::Layout;
use crate::tables::refilling::Refilled;
use crate::tables::running::run;
use crate::tables::table_rows::TableRow;
use room_types::{Grade, OutOfMemory, PersonId};
use sqlite::{Alter, Error, Row, Transaction, params};
use std::alloc::Global;

// Reads a column as a recorded grade: 1 to 9.
fn grade_in(row: &Row, at: usize) -> Option<Grade>
    ensures returned { MatchOption result (¬ IsGrade (column row.now at))
        (λ g. column row.now at ≡ Int (pos g)) }
    ensures formed { IfSome result (λ _. IsGrade (column row.now at)) }
{
    let number = u16_in(row, at)?;
    if number == 0 || number > 9 {
        return None;
    }
    Grade::new(number as u8)
}

impl TableRow for (PersonId, Grade) {
    ghost use Rattle.room_types.specs.Grammars.{is_person_id};
    ghost use Rattle.office_schema.specs.cells.Allocation.{BeginsWith};
    ghost use Rattle.office_schema.specs.cells.Columns.{grade_columns, two};
    ghost use Rattle.office_schema.specs.cells.Forms.{IsGradeRow};
    ghost use Rattle.office_schema.specs.declared.tables.names.TableName.TheVariants.{Grades};

    ghost is_form = { IsGradeRow };

    ghost front = { two };

    ghost columns = { grade_columns };

    ghost may_allocate = { BeginsWith is_person_id };

    ghost name = { Grades };

    ghost kept = { grade_columns };

    fn from_row(alloc: Global, row: &Row) -> Result<Option<(PersonId, Grade)>, OutOfMemory> {
        let Some(person) = text_in(alloc, row, 0)? else {
            return Ok(None);
        };
        let Some(grade) = grade_in(row, 1) else {
            return Ok(None);
        };
        Ok(Some((person, grade)))
    }

    fn query() -> &'static str {
        "SELECT person, value FROM grade"
    }

    fn is_in(layout: Layout) -> bool {
        layout.has_grades()
    }
}

impl Refilled for (PersonId, Grade) {
    ghost use Rattle.office_schema.specs.tables.Edits.{with_grade};

    ghost with_row = { λ r. with_grade r.0 r.1 };

    fn add_again<S: Alter>(
        &self,
        _alloc: Global,
        tx: &mut Transaction<'_, S>,
    ) -> Result<(), Error> {
        add_grade(tx, &self.0, self.1)
    }
}

/// Adds a person's grade. Fails if the person has a grade already, if the person is unknown, or if the grade is 0.
pub fn add_grade<S: Alter>(
    tx: &mut Transaction<'_, S>,
    person: &PersonId,
    grade: Grade,
) -> Result<(), Error>
    ensures { Edits S.Store tx.old tx.new result (with_grade person.now grade) }
{
    run(
        tx,
        "INSERT INTO grade(person, value) VALUES (?1, ?2)",
        params![person.as_str(), u32::from(grade.value())],
    )
}

/// Deletes a person's grade. Does nothing if the person has none.
pub fn drop_grade<S: Alter>(tx: &mut Transaction<'_, S>, person: &PersonId) -> Result<(), Error>
    ensures { Edits S.Store tx.old tx.new result (without_grade_of person.now) }
{
    run(
        tx,
        "DELETE FROM grade WHERE person = ?1",
        params![person.as_str()],
    )
}
