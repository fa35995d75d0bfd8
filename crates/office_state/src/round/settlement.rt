//! Who moves when a round is settled.
ghost use Rattle.std.specs.Prelude.{◌≡◌, IfOk, OnErr, true};
ghost use Rattle.std.specs.List.{list_any};
ghost use Rattle.office_state.specs.Office.{people_not_withdrawn};
ghost use Rattle.office_state.specs.Round.Settlement.{has_room, relocations};

use crate::office::Office;
use crate::office::queries::{copy_found, is_same_room};
use office_lists::Relocation;
use room_types::OutOfMemory;
use std::alloc::Global;

/// Returns the people whose home the settlement of the round changes, in order of identifier, each with the old and
/// the new room. The new room is the recorded result. In a lawful office a person who leaves the college has no
/// result, and so gets no new room. If no results are recorded, the call returns everybody who has a home and has not
/// withdrawn, each without a new room. Makes one pass over the people. Allocates only if a person who has not
/// withdrawn has a home or a recorded room.
///
/// # Errors
///
/// `OutOfMemory` if an allocation fails.
pub fn relocations(alloc: Global, office: &Office) -> Result<Vec<Relocation>, OutOfMemory>
    ensures relocations { IfOk result (λ found. found.items ≡ relocations office.now) }
    ensures memory { OnErr result
        (list_any (has_room office.now) (people_not_withdrawn office.now) ≡ true) }
{
    let mut relocations = Vec::new(alloc);
    for (id, _) in office.people.iter() {
        if !office.has_withdrawn(id) {
            let from = copy_found(office.home_of(id))?;
            let to = copy_found(office.recorded_result(id))?;
            if !is_same_room(&from, &to) {
                relocations.push((id.copy()?, from, to))?;
            }
        }
    }
    Ok(relocations)
}
