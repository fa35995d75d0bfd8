//! The rooms of the round.
ghost use Rattle.std.specs.Prelude.{◌≡◌, IfOk, List, ℕ};
ghost use Rattle.std.specs.FinMap as map;
ghost use Rattle.office_state.specs.Round.{is_kept_back, round_rooms};

use crate::office::Office;
use room_types::grammars::RoomCodes;
use room_types::{OutOfMemory, RoomCode, Table};
use std::alloc::Global;

/// Returns the rooms of the round, in order of code: the rooms that are not shut and are not the home of a person who
/// has withdrawn.
pub(crate) fn round_rooms(alloc: Global, office: &Office) -> Result<Vec<RoomCode>, OutOfMemory>
    ensures { IfOk result (λ rooms. rooms.items ≡ round_rooms office.now) }
{
    let kept_back = kept_back(alloc, office)?;
    let mut rooms = Vec::new(alloc);
    for (code, shut) in office.rooms.iter() {
        if !*shut && !kept_back.contains_key(code) {
            rooms.push(code.copy()?)?;
        }
    }
    Ok(rooms)
}

// Returns the homes of the people who have withdrawn.
fn kept_back(alloc: Global, office: &Office) -> Result<Table<RoomCodes, ()>, OutOfMemory>
    ensures { IfOk result
        (λ homes. (room : List ℕ) → map.contains_key homes room ≡ is_kept_back office.now room) }
{
    let mut homes = Table::new(alloc);
    for (id, person) in office.people.iter() {
        if office.withdrawn.contains_key(id) {
            if let Some(home) = &person.home {
                homes.insert(home.copy()?, ())?;
            }
        }
    }
    Ok(homes)
}
