//! Tests the invariants on the round: the round number is at most `ROUND_LIMIT`, and at least 1 while a round is
//! under way. Between rounds there are no preference lists and no withdrawals.
ghost use Rattle.std.specs.Bool.{Decides};
ghost use Rattle.office_state.specs.Office.Invariants.{IsValidRound};

use crate::office::Office;
use crate::office::limits::ROUND_LIMIT;
use crate::office::phases::is_idle;

/// Returns whether the invariants on the round hold.
pub(crate) fn is_valid_round(office: &Office) -> bool
    ensures { Decides result
        (IsValidRound office.now.number office.now.phase office.now.choices office.now.withdrawn) }
{
    if office.number > ROUND_LIMIT {
        return false;
    }
    if !is_idle(office.phase) {
        return 1 <= office.number;
    }
    if office.choices.len() != 0 {
        return false;
    }
    office.withdrawn.len() == 0
}
