//! Tests the invariants on recorded moves.
ghost use Rattle.std.specs.Prelude.{◌≡◌};
ghost use Rattle.std.specs.Bool.{Decides};
ghost use Rattle.std.specs.List.{list_all};
ghost use Rattle.std.specs.FinMap as map;
ghost use Rattle.office_state.specs.Office.Invariants.{AreValidMoves};
ghost use Rattle.office_state.specs.Office.{is_over};
ghost use Rattle.office_state.specs.Inner.Soundness.{is_recorded_move, is_recorded_round, is_wave_0};

use crate::office::Office;
use crate::office::moves::{Moved, RoundMoves};
use room_types::Wave;

/// Returns whether the invariants on recorded moves hold. Each round in the table of moves is over and has at least
/// one move, and each move without a new room has wave 0.
pub(crate) fn are_valid_moves(office: &Office) -> bool
    ensures { Decides result (AreValidMoves office.now) }
{
    if !are_rounds_over(office) {
        return false;
    }
    are_rounds_recorded(office)
}

// Returns whether each round with recorded moves is over.
fn are_rounds_over(office: &Office) -> bool
    ensures { result ≡ list_all (λ e. is_over office.now e.0) (map.entries office.now.moves) }
{
    office.moves.iter().all(|(round, _)| office.is_over(*round))
}

// Returns whether each round in the table has at least one move, and each move without a new room has wave 0.
fn are_rounds_recorded(office: &Office) -> bool
    ensures { result ≡ list_all (λ e. is_recorded_round e.1) (map.entries office.now.moves) }
{
    office
        .moves
        .iter()
        .all(|(_, moves)| is_recorded_round(moves))
}

fn is_recorded_round(moves: &RoundMoves) -> bool
    ensures { result ≡ is_recorded_round moves.now }
{
    if moves.by_person.len() == 0 {
        return false;
    }
    are_moves_recorded(moves)
}

fn are_moves_recorded(moves: &RoundMoves) -> bool
    ensures { result ≡ list_all (λ e. is_recorded_move e.1) (map.entries moves.now.by_person) }
{
    moves
        .by_person
        .iter()
        .all(|(_, moved)| is_recorded_move(moved))
}

fn is_recorded_move(moved: &Moved) -> bool
    ensures { result ≡ is_recorded_move moved.now }
{
    moved.to.is_some() || is_wave_0(moved.wave)
}

fn is_wave_0(wave: Wave) -> bool
    ensures { result ≡ is_wave_0 wave }
{
    match wave {
        Wave::Swap => false,
        Wave::Nth(number) => number == 0,
    }
}
