//! Answers the queries about one person: what the person sees, and what another list would give.
ghost use Rattle.std.specs.Prelude.{IfOk, ◌≡◌};
ghost use Rattle.office_state.specs.Office.Invariants.{IsLawful};
ghost use Rattle.office_state.specs.Office.{choices_of};
ghost use Rattle.office_core.specs.Inner.Passes.{Passes};
ghost use Rattle.office_core.specs.Query.Answer.{IsAnswered};
ghost use Rattle.office_core.specs.Query.Personal.{IsNoGain, shown_result, standing_of, what_if_checks};
ghost use Rattle.office_core.specs.Query.{returned};

use crate::query::Query;
use crate::refusal::Refusal;
use crate::refusal::rooms::may_list_all;
use crate::reply::{Reply, Standing};
use office_state::phases::has_results;
use office_state::round::result_by;
use office_state::{Office, Person, copy_found};
use room_types::rows::copy_optional;
use room_types::{Choices, Key, OutOfMemory, PersonId, RoomCode};
use std::alloc::Global;

/// Returns what the person with this key may see. Scans the people to find the key.
///
/// # Errors
///
/// `UnknownPerson` if nobody has the key. Otherwise, `OutOfMemory` if an allocation fails.
pub fn me(alloc: Global, office: &Office, key: &Key) -> Result<Reply, Refusal>
    ensures { IsAnswered (returned office.now (Query.Me key.now)) result }
{
    let Some(id) = office.owner(key) else {
        return Err(Refusal::UnknownPerson);
    };
    let Some(person) = office.people.get(id) else {
        return Err(Refusal::UnknownPerson);
    };
    let standing = standing_of(alloc, office, id, person)?;
    Ok(Reply::Me(standing))
}

// Returns what this person may see: their own record, and the number and the phase of the round.
fn standing_of(
    alloc: Global,
    office: &Office,
    id: &PersonId,
    person: &Person,
) -> Result<Standing, OutOfMemory>
    ensures { IfOk result (λ seen. seen ≡ standing_of office.now id.now person.now) }
{
    Ok(Standing {
        person: id.copy()?,
        name: person.name.copy()?,
        home: copy_optional(&person.home)?,
        round: office.number,
        phase: office.phase,
        choices: recorded_choices(alloc, office, id)?,
        withdrawn: office.has_withdrawn(id),
        going: office.is_going(id),
        shown: office.is_shown(id),
        result: shown_result(office, id)?,
    })
}

// Returns a copy of the recorded list, or an empty one if none is recorded.
fn recorded_choices(
    alloc: Global,
    office: &Office,
    person: &PersonId,
) -> Result<Choices, OutOfMemory>
    ensures { IfOk result (λ choices. choices ≡ choices_of office.now person.now) }
{
    if let Some(choices) = office.choices.get(person) {
        return choices.copy();
    }
    match Choices::read(Vec::new(alloc)) {
        Ok(choices) => Ok(choices),
        Err(_) => unreachable!(),
    }
}

// Returns a copy of the room that the round gives the person. Returns `None` if the person may not see the result, or
// if there is no such room.
fn shown_result(office: &Office, person: &PersonId) -> Result<Option<RoomCode>, OutOfMemory>
    ensures { IfOk result (λ room. room ≡ shown_result office.now person.now) }
{
    if !office.is_shown(person) {
        return Ok(None);
    }
    copy_found(office.recorded_result(person))
}

/// Returns the room that a participant would get with this list in place of the recorded one. The order and all other
/// lists stay the same. The participant's recorded list never ranks the returned room above their result.
///
/// # Errors
///
/// The first of these that applies: `BadPhase` unless the round has run; `UnknownPerson` if nobody has the
/// identifier; `NotInRound` if the person has withdrawn or leaves the college; `UnknownRoom` or `RoomShut` for the
/// first room on the list that is unknown or shut. `OutOfMemory` if an allocation fails, but never instead of
/// `BadPhase`, `UnknownPerson` or `NotInRound`.
pub fn what_if(
    alloc: Global,
    office: &Office,
    person: &PersonId,
    choices: &Choices,
) -> Result<Reply, Refusal>
    requires { IsLawful office.now }
    ensures returned { IsAnswered (returned office.now (Query.WhatIf person.now choices.now)) result }
    ensures no_gain { IfOk result (IsNoGain office.now person.now) }
{
    may_ask(office, person, choices)?;
    let room = result_by(alloc, office, person, choices)?;
    Ok(Reply::WouldGet(room))
}

// Checks that the query is allowed for this person and list.
fn may_ask(office: &Office, person: &PersonId, choices: &Choices) -> Result<(), Refusal>
    ensures { Passes (what_if_checks office.now person.now choices.now) result }
{
    if !has_results(office.phase) {
        return Err(Refusal::BadPhase(office.phase));
    }
    if !office.people.contains_key(person) {
        return Err(Refusal::UnknownPerson);
    }
    if !office.is_participant(person) {
        return Err(Refusal::NotInRound);
    }
    may_list_all(office, choices.as_slice())
}
