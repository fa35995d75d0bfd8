//! Decides the commands about people's lists (choices, withdrawals and departures), and the blanking of an imported
//! list.
ghost use Rattle.std.specs.Prelude.{OnOk};
ghost use Rattle.room_types.specs.Choices.{IsChoices};
ghost use Rattle.office_core.specs.Command.Decision.{Decides};
ghost use Rattle.office_core.specs.Command.Lists.{set_choices};
ghost use Rattle.office_core.specs.Inner.Passes.{Passes};

use crate::command::Command;
use crate::command::decision::{Decision, decision_of_one};
use crate::refusal::Refusal;
use crate::refusal::rooms::may_list_all;
use crate::reply::Reply;
use office_state::phases::is_open;
use office_state::{Change, Office};
use room_types::{Choices, Label, Listing, PersonId};
use std::alloc::Global;

/// Decides to replace a person's list.
///
/// # Errors
///
/// The first of these that applies: `BadPhase` unless the phase is `Opened`; `UnknownPerson` if nobody has the
/// identifier; `Withdrawn` if the person has withdrawn; `Going` if the person leaves the college; `UnknownRoom` or
/// `RoomShut` for the first room on the list that is unknown or shut. `OutOfMemory` if an allocation fails.
pub fn set_choices(
    alloc: Global,
    office: &Office,
    person: &PersonId,
    choices: &Choices,
) -> Result<Decision, Refusal>
    ensures formed { OnOk result (IsChoices choices.now) }
    ensures decides { Decides office.now (Command.SetChoices person.now choices.now) result }
{
    may_choose(office, person, choices)?;
    let change = Change::PutChoices {
        person: person.copy()?,
        choices: choices.copy()?,
    };
    let choices = choices.copy()?;
    decision_of_one(alloc, Reply::Chosen { choices }, change)
}

/// Checks that this list may replace the person's list.
pub(crate) fn may_choose(
    office: &Office,
    person: &PersonId,
    choices: &Choices,
) -> Result<(), Refusal>
    ensures { Passes ((set_choices person.now choices.now).checks office.now) result }
{
    if !is_open(office.phase) {
        return Err(Refusal::BadPhase(office.phase));
    }
    if !office.people.contains_key(person) {
        return Err(Refusal::UnknownPerson);
    }
    if office.has_withdrawn(person) {
        return Err(Refusal::Withdrawn);
    }
    if office.is_going(person) {
        return Err(Refusal::Going);
    }
    may_list_all(office, choices.as_slice())
}

/// Decides to take a person, and that person's room, out of the round. If the person has already withdrawn, the
/// decision has no changes.
///
/// # Errors
///
/// The first of these that applies: `BadPhase` unless the phase is `Opened`; `UnknownPerson` if nobody has the
/// identifier; `Going` if the person leaves the college. `OutOfMemory` if an allocation fails, but never if the
/// person has already withdrawn.
pub fn withdraw(alloc: Global, office: &Office, person: &PersonId) -> Result<Decision, Refusal>
    ensures { Decides office.now (Command.Withdraw person.now) result }
{
    if !is_open(office.phase) {
        return Err(Refusal::BadPhase(office.phase));
    }
    if !office.people.contains_key(person) {
        return Err(Refusal::UnknownPerson);
    }
    if office.is_going(person) {
        return Err(Refusal::Going);
    }
    if office.has_withdrawn(person) {
        return Ok(Decision {
            reply: Reply::Withdrawn,
            changes: Vec::new(alloc),
        });
    }
    let person = person.copy()?;
    decision_of_one(alloc, Reply::Withdrawn, Change::PutWithdrawn { person })
}

/// Decides to record that a person leaves the college after the round. The round trades their room as a vacant one.
/// If this is already recorded, the decision has no changes.
///
/// # Errors
///
/// The first of these that applies: `BadPhase` unless the phase is `Opened`; `UnknownPerson` if nobody has the
/// identifier; `Withdrawn` if the person has withdrawn; `NoHome` if the person has no home. `OutOfMemory` if an
/// allocation fails. If the departure is already recorded, the call returns neither `NoHome` nor `OutOfMemory`.
pub fn going(alloc: Global, office: &Office, person: &PersonId) -> Result<Decision, Refusal>
    ensures { Decides office.now (Command.Going person.now) result }
{
    if !is_open(office.phase) {
        return Err(Refusal::BadPhase(office.phase));
    }
    let Some(kept) = office.people.get(person) else {
        return Err(Refusal::UnknownPerson);
    };
    if office.has_withdrawn(person) {
        return Err(Refusal::Withdrawn);
    }
    if office.is_going(person) {
        return Ok(Decision {
            reply: Reply::Going,
            changes: Vec::new(alloc),
        });
    }
    if kept.home.is_none() {
        return Err(Refusal::NoHome);
    }
    let person = person.copy()?;
    decision_of_one(alloc, Reply::Going, Change::PutGoing { person })
}

/// Decides to replace the bytes of an imported list by the seven bytes `blanked`, in any phase. The label stays in
/// use: a different list under it is refused.
///
/// # Errors
///
/// `UnknownLabel` if there is no list with this label. `OutOfMemory` if an allocation fails.
pub fn blank(alloc: Global, office: &Office, label: &Label) -> Result<Decision, Refusal>
    ensures { Decides office.now (Command.Blank label.now) result }
{
    if !office.lists.contains_key(label) {
        return Err(Refusal::UnknownLabel);
    }
    let change = Change::PutBytes {
        label: label.copy()?,
        bytes: Listing::new(Vec::from_slice(alloc, "blanked".as_bytes())?),
    };
    decision_of_one(alloc, Reply::Done, change)
}
