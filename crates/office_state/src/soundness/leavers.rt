//! Tests the invariants on those who leave the college.
ghost use Rattle.std.specs.Prelude.{◌≡◌};
ghost use Rattle.std.specs.Bool.{Decides};
ghost use Rattle.std.specs.List.{list_all};
ghost use Rattle.std.specs.FinMap as map;
ghost use Rattle.office_state.specs.Office.Invariants.{AreValidLeavers};
ghost use Rattle.office_state.specs.Inner.Soundness.{is_leaver};

use crate::office::Office;
use crate::office::phases::is_idle;
use room_types::PersonId;

/// Returns whether the invariants on those who leave the college hold. Between rounds there are none. During a round,
/// each of them is known and has not withdrawn.
pub(crate) fn are_valid_leavers(office: &Office) -> bool
    ensures { Decides result (AreValidLeavers office.now.phase office.now.people office.now.withdrawn
        office.now.going) }
{
    if is_idle(office.phase) {
        return office.going.len() == 0;
    }
    are_leavers_eligible(office)
}

// Returns whether each person who leaves is known, and has not withdrawn.
fn are_leavers_eligible(office: &Office) -> bool
    ensures { result ≡ list_all (λ e. is_leaver office.now.people office.now.withdrawn e.0)
        (map.entries office.now.going) }
{
    office
        .going
        .iter()
        .all(|(person, _)| is_leaver(office, person))
}

fn is_leaver(office: &Office, person: &PersonId) -> bool
    ensures { result ≡ is_leaver office.now.people office.now.withdrawn person.now }
{
    office.people.contains_key(person) && !office.has_withdrawn(person)
}
