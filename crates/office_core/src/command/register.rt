//! Decides the commands that change the register: its rooms and its people.
ghost use Rattle.std.specs.Prelude.{IfOk, ◌≡◌};
ghost use Rattle.office_state.specs.declared.change.Change.TheVariants.{PutPerson};
ghost use Rattle.office_core.specs.Command.Decision.{Decides};
ghost use Rattle.office_core.specs.Command.Register as spec;
ghost use Rattle.office_core.specs.Command.Register.{add_room, grade_checks};
ghost use Rattle.office_core.specs.Inner.Passes.{Passes};

use crate::command::Command;
use crate::command::decision::{Decision, decision_of_one, decision_of_two};
use crate::refusal::rooms::{may_have_home, may_list, may_live};
use crate::refusal::{Refusal, unknown_room_refusal};
use crate::reply::Reply;
use office_state::phases::{is_idle, is_preparing};
use office_state::{Change, Office, PEOPLE_LIMIT, ROOM_LIMIT};
use room_types::grammars::RoomCodes;
use room_types::rows::copy_optional;
use room_types::{Grade, Key, Name, OutOfMemory, PersonId, RoomCode, Table};
use std::alloc::Global;

/// Decides to add a room that is not shut.
///
/// # Errors
///
/// The first of these that applies: `BadPhase` unless the phase is `Idle` or `Opened`; `DuplicateRoom` if a room has
/// the code; `LimitReached` if there are already `ROOM_LIMIT` rooms. `OutOfMemory` if an allocation fails.
pub fn add_room(alloc: Global, office: &Office, room: &RoomCode) -> Result<Decision, Refusal>
    ensures { Decides office.now (Command.AddRoom room.now) result }
{
    may_add_room(office, &office.rooms, room)?;
    let room = room.copy()?;
    decision_of_one(alloc, Reply::Done, Change::PutRoom { room, shut: false })
}

/// Checks that the room may be added. Uses the table `rooms` in place of the office's own rooms.
pub(crate) fn may_add_room(
    office: &Office,
    rooms: &Table<RoomCodes, bool>,
    room: &RoomCode,
) -> Result<(), Refusal>
    ensures { Passes ((add_room room.now).checks (record office.now { rooms = rooms.now })) result }
{
    if !is_preparing(office.phase) {
        return Err(Refusal::BadPhase(office.phase));
    }
    if rooms.contains_key(room) {
        return Err(Refusal::DuplicateRoom);
    }
    if rooms.len() >= ROOM_LIMIT {
        return Err(Refusal::LimitReached);
    }
    Ok(())
}

/// Decides to add a person, with the home if there is one. Scans the people.
///
/// # Errors
///
/// The first of these that applies: `BadPhase` unless the phase is `Idle` or `Opened`; `DuplicatePerson` if somebody
/// has the identifier; `KeyInUse` if somebody has the key; `UnknownRoom`, `RoomShut` or `RoomTaken` if the home is an
/// unknown room, a shut room or somebody's home; `LimitReached` if there are already `PEOPLE_LIMIT` people.
/// `OutOfMemory` if an allocation fails.
pub fn add_person(
    alloc: Global,
    office: &Office,
    person: &PersonId,
    name: &Name,
    key: &Key,
    home: &Option<RoomCode>,
) -> Result<Decision, Refusal>
    ensures { Decides office.now (Command.AddPerson person.now name.now key.now home.now) result }
{
    if !is_preparing(office.phase) {
        return Err(Refusal::BadPhase(office.phase));
    }
    if office.people.contains_key(person) {
        return Err(Refusal::DuplicatePerson);
    }
    if office.owner(key).is_some() {
        return Err(Refusal::KeyInUse);
    }
    may_have_home(office, home)?;
    if office.people.len() >= PEOPLE_LIMIT {
        return Err(Refusal::LimitReached);
    }
    let change = person_change(person, name, key, home)?;
    decision_of_one(alloc, Reply::Done, change)
}

// Returns the change that adds a person. Fails only if an allocation fails.
pub(crate) fn person_change(
    person: &PersonId,
    name: &Name,
    key: &Key,
    home: &Option<RoomCode>,
) -> Result<Change, OutOfMemory>
    ensures { IfOk result (λ change.
        change ≡ PutPerson person.now name.now key.now home.now) }
{
    Ok(Change::PutPerson {
        person: person.copy()?,
        name: name.copy()?,
        key: key.copy()?,
        home: copy_optional(home)?,
    })
}

/// Decides to make a room the home of a person who has none. Scans the people.
///
/// # Errors
///
/// The first of these that applies: `BadPhase` unless the phase is `Idle`; `UnknownPerson` if nobody has the
/// identifier; `HasHome` if the person has a home; `UnknownRoom` if no room has the code; `RoomShut` if the room is
/// shut; `RoomTaken` if somebody lives there. `OutOfMemory` if an allocation fails.
pub fn set_home(
    alloc: Global,
    office: &Office,
    person: &PersonId,
    room: &RoomCode,
) -> Result<Decision, Refusal>
    ensures { Decides office.now (Command.SetHome person.now room.now) result }
{
    if !is_idle(office.phase) {
        return Err(Refusal::BadPhase(office.phase));
    }
    let Some(kept) = office.people.get(person) else {
        return Err(Refusal::UnknownPerson);
    };
    if kept.home.is_some() {
        return Err(Refusal::HasHome);
    }
    may_live(office, room)?;
    let change = Change::PutHome {
        person: person.copy()?,
        home: Some(room.copy()?),
    };
    decision_of_one(alloc, Reply::Done, change)
}

/// Decides to end a person's tenancy. The person then has no home.
///
/// # Errors
///
/// The first of these that applies: `BadPhase` unless the phase is `Idle`; `UnknownPerson` if nobody has the
/// identifier; `NoHome` if the person has no home. `OutOfMemory` if an allocation fails.
pub fn leave(alloc: Global, office: &Office, person: &PersonId) -> Result<Decision, Refusal>
    ensures { Decides office.now (Command.Leave person.now) result }
{
    if !is_idle(office.phase) {
        return Err(Refusal::BadPhase(office.phase));
    }
    let Some(kept) = office.people.get(person) else {
        return Err(Refusal::UnknownPerson);
    };
    if kept.home.is_none() {
        return Err(Refusal::NoHome);
    }
    let person = person.copy()?;
    decision_of_one(alloc, Reply::Done, Change::PutHome { person, home: None })
}

/// Decides to remove a person who has no home. This also removes the person's grade. The recorded moves remain.
///
/// # Errors
///
/// The first of these that applies: `BadPhase` unless the phase is `Idle`; `UnknownPerson` if nobody has the
/// identifier; `HasHome` if the person has a home. `OutOfMemory` if an allocation fails.
pub fn remove(alloc: Global, office: &Office, person: &PersonId) -> Result<Decision, Refusal>
    ensures { Decides office.now (Command.Remove person.now) result }
{
    if !is_idle(office.phase) {
        return Err(Refusal::BadPhase(office.phase));
    }
    let Some(kept) = office.people.get(person) else {
        return Err(Refusal::UnknownPerson);
    };
    if kept.home.is_some() {
        return Err(Refusal::HasHome);
    }
    let person = person.copy()?;
    decision_of_one(alloc, Reply::Done, Change::DropPerson { person })
}

/// Decides to take a room out of use. If the room has a tenant, that person loses their home, and the reply names
/// them. Scans the people.
///
/// # Errors
///
/// The first of these that applies: `BadPhase` unless the phase is `Idle` or `Opened`; `UnknownRoom` if no room has
/// the code; `RoomShut` if the room is already shut. `OutOfMemory` if an allocation fails.
#[tactic(auto, using(crate::proofs::commands::Changes::has_last))]
pub fn shut(alloc: Global, office: &Office, room: &RoomCode) -> Result<Decision, Refusal>
    ensures { Decides office.now (Command.Shut room.now) result }
{
    if !is_preparing(office.phase) {
        return Err(Refusal::BadPhase(office.phase));
    }
    may_list(office, room)?;
    let code = room.copy()?;
    match office.tenant(room) {
        Some(tenant) => {
            let person = tenant.copy()?;
            let displaced = Some(tenant.copy()?);
            let left = Change::PutHome { person, home: None };
            let closed = Change::PutRoom {
                room: code,
                shut: true,
            };
            decision_of_two(alloc, Reply::Shut { displaced }, left, closed)
        }
        None => {
            let closed = Change::PutRoom {
                room: code,
                shut: true,
            };
            decision_of_one(alloc, Reply::Shut { displaced: None }, closed)
        }
    }
}

/// Decides to bring a shut room back into use.
///
/// # Errors
///
/// The first of these that applies: `BadPhase` unless the phase is `Idle` or `Opened`; `UnknownRoom` if no room has
/// the code; `NotShut` if the room is not shut. `OutOfMemory` if an allocation fails.
pub fn reopen(alloc: Global, office: &Office, room: &RoomCode) -> Result<Decision, Refusal>
    ensures { Decides office.now (Command.Reopen room.now) result }
{
    if !is_preparing(office.phase) {
        return Err(Refusal::BadPhase(office.phase));
    }
    if !office.rooms.contains_key(room) {
        return Err(unknown_room_refusal(room));
    }
    if !office.is_shut(room) {
        return Err(Refusal::NotShut);
    }
    let room = room.copy()?;
    decision_of_one(alloc, Reply::Done, Change::PutRoom { room, shut: false })
}

/// Decides to give a person this grade.
///
/// # Errors
///
/// The first of these that applies: `BadPhase` unless the phase is `Idle` or `Opened`; `UnknownPerson` if nobody has
/// the identifier. `OutOfMemory` if an allocation fails.
pub fn set_grade(
    alloc: Global,
    office: &Office,
    person: &PersonId,
    grade: Grade,
) -> Result<Decision, Refusal>
    ensures { Decides office.now (Command.SetGrade person.now grade) result }
{
    may_grade(office, person)?;
    let person = person.copy()?;
    decision_of_one(alloc, Reply::Done, Change::PutGrade { person, grade })
}

/// Checks that the person may be given a grade.
pub(crate) fn may_grade(office: &Office, person: &PersonId) -> Result<(), Refusal>
    ensures { Passes (grade_checks office.now person.now) result }
{
    if !is_preparing(office.phase) {
        return Err(Refusal::BadPhase(office.phase));
    }
    if !office.people.contains_key(person) {
        return Err(Refusal::UnknownPerson);
    }
    Ok(())
}

/// Decides to give a person this name, in any phase. Their key and home stay.
///
/// # Errors
///
/// `UnknownPerson` if nobody has the identifier. `OutOfMemory` if an allocation fails.
pub fn set_name(
    alloc: Global,
    office: &Office,
    person: &PersonId,
    name: &Name,
) -> Result<Decision, Refusal>
    ensures { Decides office.now (Command.SetName person.now name.now) result }
{
    let Some(kept) = office.people.get(person) else {
        return Err(Refusal::UnknownPerson);
    };
    let change = Change::PutNameAndKey {
        person: person.copy()?,
        name: name.copy()?,
        key: kept.key.copy()?,
    };
    decision_of_one(alloc, Reply::Done, change)
}

/// Decides to give a person this key, in any phase. Their name and home stay. Scans the people.
///
/// # Errors
///
/// The first of these that applies: `UnknownPerson` if nobody has the identifier; `KeyInUse` if somebody else has the
/// key. `OutOfMemory` if an allocation fails.
pub fn set_key(
    alloc: Global,
    office: &Office,
    person: &PersonId,
    key: &Key,
) -> Result<Decision, Refusal>
    ensures { Decides office.now (Command.SetKey person.now key.now) result }
{
    let Some(kept) = office.people.get(person) else {
        return Err(Refusal::UnknownPerson);
    };
    if is_of_another(office, person, key) {
        return Err(Refusal::KeyInUse);
    }
    let change = Change::PutNameAndKey {
        person: person.copy()?,
        name: kept.name.copy()?,
        key: key.copy()?,
    };
    decision_of_one(alloc, Reply::Done, change)
}

// Whether somebody else has this key.
fn is_of_another(office: &Office, person: &PersonId, key: &Key) -> bool
    ensures { result ≡ spec.is_of_another office.now person.now key.now }
{
    match office.owner(key) {
        Some(other) => other != person,
        None => false,
    }
}
