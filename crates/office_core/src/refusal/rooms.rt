//! Checks that a room may be on a list or be a home. Each function returns the first refusal that applies. If the
//! room's code cannot be copied, `OutOfMemory` takes the place of `UnknownRoom` or `RoomShut`.
ghost use Rattle.std.specs.List.{flat_map};
ghost use Rattle.office_core.specs.Inner.Passes.{Passes};
ghost use Rattle.office_core.specs.Refusal.Checks.{room_checks, home_checks, home_checks_if_any};

use crate::refusal::{Refusal, shut_room_refusal, unknown_room_refusal};
use office_state::Office;
use room_types::RoomCode;

/// Checks that a room may be on a list: it is known and not shut.
///
/// # Errors
///
/// `UnknownRoom` if no room has the code; `RoomShut` if the room is shut.
pub fn may_list(office: &Office, room: &RoomCode) -> Result<(), Refusal>
    ensures { Passes (room_checks office.now room.now) result }
{
    if !office.rooms.contains_key(room) {
        return Err(unknown_room_refusal(room));
    }
    if office.is_shut(room) {
        return Err(shut_room_refusal(room));
    }
    Ok(())
}

/// Checks that each of the rooms may be on a list.
///
/// # Errors
///
/// The error of `may_list` for the first room that may not be on a list.
pub fn may_list_all(office: &Office, rooms: &[RoomCode]) -> Result<(), Refusal>
    ensures { Passes (flat_map (room_checks office.now) rooms.now) result }
{
    for room in rooms {
        may_list(office, room)?;
    }
    Ok(())
}

/// Checks that a room may be given as a home: it may be on a list, and nobody lives there. Scans the people.
///
/// # Errors
///
/// `UnknownRoom` if no room has the code; `RoomShut` if the room is shut; `RoomTaken` if somebody lives there.
pub fn may_live(office: &Office, room: &RoomCode) -> Result<(), Refusal>
    ensures { Passes (home_checks office.now room.now) result }
{
    may_list(office, room)?;
    if office.tenant(room).is_some() {
        return Err(Refusal::RoomTaken);
    }
    Ok(())
}

/// Checks that the room, if there is one, may be given as a home.
///
/// # Errors
///
/// The errors of `may_live`, if there is a room.
pub fn may_have_home(office: &Office, home: &Option<RoomCode>) -> Result<(), Refusal>
    ensures { Passes (home_checks_if_any office.now home.now) result }
{
    match home {
        Some(room) => may_live(office, room),
        None => Ok(()),
    }
}
