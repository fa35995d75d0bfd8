//! Statement parameters that may be NULL.
ghost use Rattle.std.specs.Prelude.{◌≡◌, pos};
ghost use Rattle.sqlite_value.specs.declared.value.Value.TheVariants.{Int, Text};
ghost use Rattle.sqlite.specs.Values.{bound_value, or_null};
ghost use Rattle.office_schema.specs.cells.Cells.{text_or_null, wave_value};

use room_types::{RoomCode, Wave};

/// Returns the room's code, or `None` if there is no room. A statement binds `None` as NULL.
pub(crate) fn code_or_null(room: &Option<RoomCode>) -> Option<&str>
    ensures { bound_value (or_null (λ code. Text code.now) result) ≡ text_or_null room.now }
{
    match room {
        Some(room) => Some(room.as_str()),
        None => None,
    }
}

/// Returns the number of the wave, or `None` for a swap, which has no number. A statement binds `None` as NULL.
pub(crate) fn number_or_null(wave: Wave) -> Option<u32>
    ensures { bound_value (or_null (λ number. Int (pos number)) result) ≡ wave_value wave }
{
    match wave {
        Wave::Swap => None,
        Wave::Nth(number) => Some(u32::from(number)),
    }
}
