//! Adds a list of people.
ghost use Rattle.std.specs.Prelude.{◌≡◌, ◌≤◌, IfOk, IfErr, length};
ghost use Rattle.office_lists.specs.Records.{record_limit};
ghost use Rattle.office_core.specs.Command.Import.{first_denied, list_refusal, person_command};
ghost use Rattle.office_core.specs.Inner.Passes.{Passes};
ghost use Rattle.office_core.specs.Inner.Tries.{AreAdded, AreAllowed, IsIndexed, IsOrOutOfMemory};
ghost use Rattle.office_core.specs.Refusal.Checks.{home_checks_if_any};

use crate::command::import::denial::denial_of;
use crate::command::import::register::Register;
use crate::command::register::person_change;
use crate::refusal::Refusal;
use crate::refusal::rooms::may_list;
use office_lists::{PersonEntry, read_people};
use office_state::phases::is_preparing;
use office_state::{Change, Office, PEOPLE_LIMIT};
use room_types::RoomCode;
use std::alloc::Global;

/// Parses and checks a list of people. Does not change the office. Returns one change for each record; the change
/// adds the person.
///
/// # Errors
///
/// `BadRecord` for the first record that cannot be parsed. If every record can be parsed, `BadRecord` for the first
/// record whose `AddPerson` command the office refuses after the commands of the records before it. `OutOfMemory` if
/// an allocation fails.
#[tactic(auto, using(crate::proofs::imports::ListChecks::few_entries, crate::proofs::imports::ListChecks::few_changes))]
pub fn people_added(alloc: Global, office: &Office, bytes: &[u8]) -> Result<Vec<Change>, Refusal>
    ensures added { IfOk result
        (λ changes. AreAdded person_command office.now bytes.now changes.items) }
    ensures few { IfOk result (λ changes. length changes.items ≤ record_limit) }
    ensures refused { IfErr result (IsOrOutOfMemory (list_refusal person_command office.now bytes.now)) }
{
    let people = read_people(alloc, bytes)?;
    each_person_added(alloc, office, people.as_slice())
}

// Checks each person against the office with all earlier people of the list added. Returns one change for each
// person.
fn each_person_added(
    alloc: Global,
    office: &Office,
    list: &[PersonEntry],
) -> Result<Vec<Change>, Refusal>
    requires { length list.now ≤ record_limit }
    ensures allowed { IfOk result
        (λ changes. AreAllowed person_command office.now list.now changes.items) }
    ensures refused { IfErr result (IsOrOutOfMemory (first_denied person_command office.now 1 list.now)) }
{
    let mut register = Register::of(alloc, office)?;
    let mut changes = Vec::new(alloc);
    for (i, entry) in list.iter().enumerate() {
        if let Err(refusal) = may_add_person(office, &register, entry) {
            return Err(denial_of(i, &refusal));
        }
        register.add(entry)?;
        let change = person_change(&entry.person, &entry.name, &entry.key, &entry.home)?;
        changes.push(change)?;
    }
    Ok(changes)
}

// Checks that the person may be added. Uses the people of the register in place of the office's own people.
fn may_add_person(office: &Office, register: &Register, entry: &PersonEntry) -> Result<(), Refusal>
    requires { IsIndexed register.now }
    ensures { Passes
        (person_command.checks (record office.now { people = register.now.people }) entry.now)
        result }
{
    if !is_preparing(office.phase) {
        return Err(Refusal::BadPhase(office.phase));
    }
    if register.people.contains_key(&entry.person) {
        return Err(Refusal::DuplicatePerson);
    }
    if register.keys.contains_key(&entry.key) {
        return Err(Refusal::KeyInUse);
    }
    may_have_home(office, register, &entry.home)?;
    if register.people.len() >= PEOPLE_LIMIT {
        return Err(Refusal::LimitReached);
    }
    Ok(())
}

// Checks the home of a new person, if there is one: the room is known and not shut, and nobody in the register lives
// there.
fn may_have_home(
    office: &Office,
    register: &Register,
    home: &Option<RoomCode>,
) -> Result<(), Refusal>
    requires { IsIndexed register.now }
    ensures { Passes
        (home_checks_if_any (record office.now { people = register.now.people }) home.now)
        result }
{
    let Some(room) = home else {
        return Ok(());
    };
    may_list(office, room)?;
    if register.tenants.contains_key(room) {
        return Err(Refusal::RoomTaken);
    }
    Ok(())
}
