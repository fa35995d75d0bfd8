//! Tests the invariants on results.
ghost use Rattle.std.specs.Prelude.{◌≡◌, IfOk, OnErr, true};
ghost use Rattle.std.specs.Bool.{Decides};
ghost use Rattle.std.specs.List.{list_all};
ghost use Rattle.std.specs.FinMap as map;
ghost use Rattle.office_state.specs.Office.Invariants.{AreValidResults, HomesDiffer};
ghost use Rattle.office_state.specs.Office.Phases.{has_results};
ghost use Rattle.office_state.specs.Inner.Soundness.{is_given};

use crate::office::phases::has_results;
use crate::office::queries::is_same_room;
use crate::office::{Assigned, Office};
use crate::round::round_results;
use room_types::grammars::PersonIds;
use room_types::{OutOfMemory, PersonId, Table};
use std::alloc::Global;

/// Returns whether the recorded results are valid. If the phase has results, the call runs the round again, and the
/// recorded results must be the same. Otherwise no result may be recorded.
pub(crate) fn are_valid_results(alloc: Global, office: &Office) -> Result<bool, OutOfMemory>
    requires { HomesDiffer office.now }
    ensures lawful { IfOk result (λ lawful. Decides lawful (AreValidResults office.now)) }
    ensures memory { OnErr result (has_results office.now.phase ≡ true) }
{
    if !has_results(office.phase) {
        return Ok(office.results.len() == 0);
    }
    let given = round_results(alloc, office)?;
    Ok(are_same(&office.results, &given))
}

// Returns whether the two maps are equal.
fn are_same(found: &Table<PersonIds, Assigned>, given: &Table<PersonIds, Assigned>) -> bool
    ensures { Decides result (found.now ≡ given.now) }
{
    if !are_given(found, given) {
        return false;
    }
    are_results_found(found, given)
}

fn are_given(found: &Table<PersonIds, Assigned>, given: &Table<PersonIds, Assigned>) -> bool
    ensures { result ≡ list_all (λ e. is_given given.now e.0 e.1) (map.entries found.now) }
{
    found
        .iter()
        .all(|(person, assigned)| is_given(given, person, assigned))
}

fn is_given(given: &Table<PersonIds, Assigned>, person: &PersonId, found: &Assigned) -> bool
    ensures { result ≡ is_given given.now person.now found.now }
{
    match given.get(person) {
        Some(assigned) => is_same_room(&assigned.room, &found.room),
        None => false,
    }
}

fn are_results_found(found: &Table<PersonIds, Assigned>, given: &Table<PersonIds, Assigned>) -> bool
    ensures { result ≡ list_all (λ e. map.contains_key found.now e.0) (map.entries given.now) }
{
    given.iter().all(|(person, _)| found.contains_key(person))
}
