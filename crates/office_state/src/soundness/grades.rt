//! Tests the invariants on grades.
ghost use Rattle.std.specs.Prelude.{◌≡◌};
ghost use Rattle.std.specs.Bool.{Decides};
ghost use Rattle.std.specs.List.{list_all};
ghost use Rattle.std.specs.FinMap as map;
ghost use Rattle.office_state.specs.Office.Invariants.{AreValidGrades};
ghost use Rattle.office_state.specs.Inner.Soundness.{is_recorded_grade};

use crate::office::Office;
use room_types::{Grade, PersonId};

/// Returns whether the invariants on grades hold: each person with a grade is known, and no recorded grade is 0.
pub(crate) fn are_valid_grades(office: &Office) -> bool
    ensures { Decides result (AreValidGrades office.now.people office.now.grades) }
{
    are_grades_recorded(office)
}

// Returns whether each recorded grade belongs to a known person and is not 0.
fn are_grades_recorded(office: &Office) -> bool
    ensures { result ≡ list_all (λ e. is_recorded_grade office.now.people e.0 e.1)
        (map.entries office.now.grades) }
{
    office
        .grades
        .iter()
        .all(|(person, grade)| is_recorded_grade(office, person, grade))
}

fn is_recorded_grade(office: &Office, person: &PersonId, grade: &Grade) -> bool
    ensures { result ≡ is_recorded_grade office.now.people person.now grade.now }
{
    office.people.contains_key(person) && !grade.is_first()
}
