//! Adds a list of grades.
ghost use Rattle.std.specs.Prelude.{◌≡◌, ◌≤◌, IfOk, IfErr, length};
ghost use Rattle.office_lists.specs.Records.{record_limit};
ghost use Rattle.office_core.specs.Command.Import.{grade_command, first_denied, list_refusal};
ghost use Rattle.office_core.specs.Inner.Tries.{AreAdded, AreAllowed, IsOrOutOfMemory};

use crate::command::import::denial::denial_of;
use crate::command::register::may_grade;
use crate::refusal::Refusal;
use office_lists::read_grades;
use office_state::{Change, Office};
use room_types::{GradeRow, OutOfMemory};
use std::alloc::Global;

/// Parses and checks a list of grades. Does not change the office. Returns one change for each record; the change
/// gives the person the grade.
///
/// # Errors
///
/// `BadRecord` for the first record that cannot be parsed. If every record can be parsed, `BadRecord` for the first
/// record whose `SetGrade` command the office refuses after the commands of the records before it. `OutOfMemory` if
/// an allocation fails.
#[tactic(auto, using(crate::proofs::imports::ListChecks::few_entries, crate::proofs::imports::ListChecks::few_changes))]
pub fn grades_added(alloc: Global, office: &Office, bytes: &[u8]) -> Result<Vec<Change>, Refusal>
    ensures added { IfOk result
        (λ changes. AreAdded grade_command office.now bytes.now changes.items) }
    ensures few { IfOk result (λ changes. length changes.items ≤ record_limit) }
    ensures refused { IfErr result
        (IsOrOutOfMemory (list_refusal grade_command office.now bytes.now)) }
{
    let entries = read_grades(alloc, bytes)?;
    each_grade_added(alloc, office, entries.as_slice())
}

// Checks each grade and returns one change for each. The checks of one grade do not depend on the other grades, so
// every check uses the same office.
fn each_grade_added(
    alloc: Global,
    office: &Office,
    list: &[GradeRow],
) -> Result<Vec<Change>, Refusal>
    requires { length list.now ≤ record_limit }
    ensures allowed { IfOk result
        (λ changes. AreAllowed grade_command office.now list.now changes.items) }
    ensures refused { IfErr result
        (IsOrOutOfMemory (first_denied grade_command office.now 1 list.now)) }
{
    let mut changes = Vec::new(alloc);
    for (i, entry) in list.iter().enumerate() {
        if let Err(refusal) = may_grade(office, &entry.person) {
            return Err(denial_of(i, &refusal));
        }
        let change = imported_grade_change(entry)?;
        changes.push(change)?;
    }
    Ok(changes)
}

// Returns the change that gives the person of this entry the grade.
fn imported_grade_change(entry: &GradeRow) -> Result<Change, OutOfMemory>
    ensures { IfOk result (λ change. change ≡ grade_command.change entry.now) }
{
    Ok(Change::PutGrade {
        person: entry.person.copy()?,
        grade: entry.grade,
    })
}
