//! Storing grades, and who leaves the college.
ghost use Rattle.std.specs.Prelude.{OnOk};
ghost use Rattle.sqlite.specs.Held.{state};
ghost use Rattle.office_state.specs.declared.change.Change.TheVariants.{PutGoing, PutGrade};
ghost use Rattle.office_schema.specs.tables.Crashes.{WasOpen};
ghost use Rattle.office_schema.specs.tables.Runs.{Runs, RunsSome};
ghost use Rattle.office_db.specs.changes.StoresChanges.{StoresAlways, Turns};
ghost use Rattle.office_db.specs.changes.Inner.Grading.{with_grade_recorded};

use crate::changes::lemmas::{lemma_grade, lemma_text};
use office_schema::tables::going::add_going;
use office_schema::tables::grades::{add_grade, drop_grade};
use room_types::{Grade, PersonId};
use sqlite::{Alter, Error, Transaction};

/// Replaces a person's grade. If the new grade is 0, only deletes the row of the old grade, because grade 0 has no
/// row.
pub(crate) fn put_grade<S: Alter>(
    tx: &mut Transaction<'_, S>,
    person: &PersonId,
    grade: Grade,
) -> Result<(), Error>
    ensures runs { RunsSome S.Store tx.old tx.new result
        (λ before after. StoresAlways before after (PutGrade person.now grade)) }
    ensures was_open { OnOk result
        (WasOpen (state S.Store tx.old.conn.now) (state S.Store tx.new.conn.now)) }
{
    drop_grade(tx, person)?;
    record_grade(tx, person, grade)
}

// Adds a row for the grade, unless it is 0.
fn record_grade<S: Alter>(
    tx: &mut Transaction<'_, S>,
    person: &PersonId,
    grade: Grade,
) -> Result<(), Error>
    ensures { RunsSome S.Store tx.old tx.new result
        (λ before after. Turns before after (with_grade_recorded person.now grade)) }
{
    if grade.is_first() {
        return Ok(());
    }
    lemma_text(person);
    lemma_grade(grade);
    add_grade(tx, person, grade)
}

/// Records that a person leaves the college after the round.
pub(crate) fn put_going<S: Alter>(
    tx: &mut Transaction<'_, S>,
    person: &PersonId,
) -> Result<(), Error>
    ensures { Runs S.Store tx.old tx.new result (λ before after. StoresAlways before after (PutGoing person.now)) }
{
    lemma_text(person);
    add_going(tx, person)
}
