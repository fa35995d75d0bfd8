//! Adds a list of rooms.
ghost use Rattle.std.specs.Prelude.{◌≡◌, ◌≤◌, IfOk, IfErr, length};
ghost use Rattle.office_lists.specs.Records.{record_limit};
ghost use Rattle.office_core.specs.Command.Import.{first_denied, list_refusal, room_command};
ghost use Rattle.office_core.specs.Inner.Tries.{AreAdded, AreAllowed, IsOrOutOfMemory};

use crate::command::import::denial::denial_of;
use crate::command::register::may_add_room;
use crate::refusal::Refusal;
use office_lists::read_rooms;
use office_state::{Change, Office};
use room_types::{OutOfMemory, RoomCode};
use std::alloc::Global;

/// Parses and checks a list of rooms. Does not change the office. Returns one change for each record; the change adds
/// the room.
///
/// # Errors
///
/// `BadRecord` for the first record that cannot be parsed. If every record can be parsed, `BadRecord` for the first
/// record whose `AddRoom` command the office refuses after the commands of the records before it. `OutOfMemory` if an
/// allocation fails.
#[tactic(auto, using(crate::proofs::imports::ListChecks::few_entries, crate::proofs::imports::ListChecks::few_changes))]
pub fn rooms_added(alloc: Global, office: &Office, bytes: &[u8]) -> Result<Vec<Change>, Refusal>
    ensures added { IfOk result
        (λ changes. AreAdded room_command office.now bytes.now changes.items) }
    ensures few { IfOk result (λ changes. length changes.items ≤ record_limit) }
    ensures refused { IfErr result (IsOrOutOfMemory (list_refusal room_command office.now bytes.now)) }
{
    let rooms = read_rooms(alloc, bytes)?;
    each_room_added(alloc, office, rooms.as_slice())
}

// Checks each room against the office with all earlier rooms of the list added. Returns one change for each room.
fn each_room_added(
    alloc: Global,
    office: &Office,
    list: &[RoomCode],
) -> Result<Vec<Change>, Refusal>
    requires { length list.now ≤ record_limit }
    ensures allowed { IfOk result
        (λ changes. AreAllowed room_command office.now list.now changes.items) }
    ensures refused { IfErr result (IsOrOutOfMemory (first_denied room_command office.now 1 list.now)) }
{
    let mut rooms = office.rooms.copy()?;
    let mut changes = Vec::new(alloc);
    for (i, room) in list.iter().enumerate() {
        if let Err(refusal) = may_add_room(office, &rooms, room) {
            return Err(denial_of(i, &refusal));
        }
        rooms.insert(room.copy()?, false)?;
        let change = imported_room_change(room)?;
        changes.push(change)?;
    }
    Ok(changes)
}

// Returns the change that adds this room.
fn imported_room_change(room: &RoomCode) -> Result<Change, OutOfMemory>
    ensures { IfOk result (λ change. change ≡ room_command.change room.now) }
{
    Ok(Change::PutRoom {
        room: room.copy()?,
        shut: false,
    })
}
