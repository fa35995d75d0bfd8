//! Tests the invariants on preference lists and withdrawals.
ghost use Rattle.std.specs.Prelude.{◌≡◌};
ghost use Rattle.std.specs.Bool.{Decides};
ghost use Rattle.std.specs.List.{list_all};
ghost use Rattle.std.specs.FinMap as map;
ghost use Rattle.office_state.specs.Office.Invariants.{AreValidLists};
ghost use Rattle.office_state.specs.Inner.Soundness.{is_recorded_list};

use crate::office::Office;
use room_types::{Choices, RoomCode};

/// Returns whether the invariants on preference lists and withdrawals hold. Each person who has a list or has
/// withdrawn is known. No list is empty, and each listed room is known.
pub(crate) fn are_valid_lists(office: &Office) -> bool
    ensures { Decides result
        (AreValidLists office.now.rooms office.now.people office.now.choices office.now.withdrawn) }
{
    if !are_choosers_known(office) {
        return false;
    }
    if !are_lists_recorded(office) {
        return false;
    }
    are_withdrawers_known(office)
}

// Returns whether each person with a list is known.
fn are_choosers_known(office: &Office) -> bool
    ensures { result ≡
        list_all (λ e. map.contains_key office.now.people e.0) (map.entries office.now.choices) }
{
    office
        .choices
        .iter()
        .all(|(person, _)| office.people.contains_key(person))
}

// Returns whether no list is empty and each listed room is known.
fn are_lists_recorded(office: &Office) -> bool
    ensures { result ≡
        list_all (λ e. is_recorded_list office.now.rooms e.1) (map.entries office.now.choices) }
{
    office
        .choices
        .iter()
        .all(|(_, choices)| is_recorded_list(office, choices))
}

fn is_recorded_list(office: &Office, choices: &Choices) -> bool
    ensures { result ≡ is_recorded_list office.now.rooms choices.now }
{
    let codes = choices.as_slice();
    if codes.is_empty() {
        return false;
    }
    are_rooms_known(office, codes)
}

fn are_rooms_known(office: &Office, codes: &[RoomCode]) -> bool
    ensures { result ≡ list_all (λ code. map.contains_key office.now.rooms code) codes.now }
{
    codes.iter().all(|code| office.rooms.contains_key(code))
}

// Returns whether each person who has withdrawn is known.
fn are_withdrawers_known(office: &Office) -> bool
    ensures { result ≡
        list_all (λ e. map.contains_key office.now.people e.0) (map.entries office.now.withdrawn) }
{
    office
        .withdrawn
        .iter()
        .all(|(person, _)| office.people.contains_key(person))
}
