//! Adds a list of choices.
ghost use Rattle.std.specs.Prelude.{◌≡◌, ◌≤◌, IfOk, IfErr, length};
ghost use Rattle.office_lists.specs.Records.{record_limit};
ghost use Rattle.office_core.specs.Command.Import.{choices_command, first_denied, list_refusal};
ghost use Rattle.office_core.specs.Inner.Tries.{AreAdded, AreAllowed, IsOrOutOfMemory};

use crate::command::import::denial::denial_of;
use crate::command::lists::may_choose;
use crate::refusal::Refusal;
use office_lists::{ChoicesEntry, read_choices};
use office_state::{Change, Office};
use room_types::OutOfMemory;
use std::alloc::Global;

/// Parses and checks a list of choices. Does not change the office. Returns one change for each record; the change
/// replaces the person's list.
///
/// # Errors
///
/// `BadRecord` for the first record that cannot be parsed. If every record can be parsed, `BadRecord` for the first
/// record whose `SetChoices` command the office refuses after the commands of the records before it. `OutOfMemory` if
/// an allocation fails.
#[tactic(auto, using(crate::proofs::imports::ListChecks::few_entries, crate::proofs::imports::ListChecks::few_changes))]
pub fn choices_added(alloc: Global, office: &Office, bytes: &[u8]) -> Result<Vec<Change>, Refusal>
    ensures added { IfOk result
        (λ changes. AreAdded choices_command office.now bytes.now changes.items) }
    ensures few { IfOk result (λ changes. length changes.items ≤ record_limit) }
    ensures refused { IfErr result
        (IsOrOutOfMemory (list_refusal choices_command office.now bytes.now)) }
{
    let entries = read_choices(alloc, bytes)?;
    each_choices_added(alloc, office, entries.as_slice())
}

// Checks each person's list and returns one change for each. The checks of one list do not depend on the other lists,
// so every check uses the same office.
fn each_choices_added(
    alloc: Global,
    office: &Office,
    list: &[ChoicesEntry],
) -> Result<Vec<Change>, Refusal>
    requires { length list.now ≤ record_limit }
    ensures allowed { IfOk result
        (λ changes. AreAllowed choices_command office.now list.now changes.items) }
    ensures refused { IfErr result
        (IsOrOutOfMemory (first_denied choices_command office.now 1 list.now)) }
{
    let mut changes = Vec::new(alloc);
    for (i, entry) in list.iter().enumerate() {
        if let Err(refusal) = may_choose(office, &entry.person, &entry.choices) {
            return Err(denial_of(i, &refusal));
        }
        let change = imported_choices_change(entry)?;
        changes.push(change)?;
    }
    Ok(changes)
}

// Returns the change that replaces the list of this entry's person.
fn imported_choices_change(entry: &ChoicesEntry) -> Result<Change, OutOfMemory>
    ensures { IfOk result (λ change. change ≡ choices_command.change entry.now) }
{
    Ok(Change::PutChoices {
        person: entry.person.copy()?,
        choices: entry.choices.copy()?,
    })
}
