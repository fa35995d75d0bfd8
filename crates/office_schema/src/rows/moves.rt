//! Rebuilding the moves of all rounds from their rows.
ghost use Rattle.std.specs.Prelude.{◌≡◌, ◌<◌, IfOk, OnErr, length, reverse};
ghost use Rattle.std.specs.FinMap as map;
ghost use Rattle.office_state.specs.Office.Moves.{moves_of};
ghost use Rattle.office_schema.specs.rows.Rows.{AreStorableMoves, rows_of_moves};
ghost use Rattle.office_schema.specs.rows.Inner.Recorded.{recorded_moves};
ghost use Rattle.office_schema.specs.rows.Reads.{Reads};

use office_state::{RoundMoves, Rounds};
use room_types::{Move, OutOfMemory};
use std::alloc::Global;

/// Rebuilds the moves of all rounds from their rows. The rows may be in any order. Returns `None` if a person moves
/// twice in a round; otherwise the result is unique. Fails only if an allocation fails, and cannot fail if `rows` is
/// empty.
pub fn read_moves(alloc: Global, rows: Vec<Move>) -> Result<Option<Rounds<RoundMoves>>, OutOfMemory>
    ensures reads { IfOk result (λ found. Reads AreStorableMoves rows_of_moves rows.items found) }
    ensures memory { OnErr result (0 < length rows.items) }
{
    fill_moves(alloc, rows)
}

// Records the moves from the last row to the first. Returns `None` if a person moves twice in a round.
fn fill_moves(alloc: Global, rows: Vec<Move>) -> Result<Option<Rounds<RoundMoves>>, OutOfMemory>
    ensures fills { IfOk result (λ found. found ≡ recorded_moves map.empty (reverse rows.items)) }
    ensures memory { OnErr result (0 < length rows.items) }
{
    let mut rows = rows;
    let mut moves: Rounds<RoundMoves> = Rounds::new(alloc);
    while let Some(row) = rows.pop() {
        if has_moved(&moves, &row) {
            return Ok(None);
        }
        moves.add(&row)?;
    }
    Ok(Some(moves))
}

// Returns whether a move of the row's person in the row's round is already recorded.
fn has_moved(moves: &Rounds<RoundMoves>, row: &Move) -> bool
    ensures { result ≡ map.contains_key (moves_of moves.now row.now.round) row.now.person }
{
    match moves.get(row.round) {
        Some(recorded) => recorded.by_person.contains_key(&row.person),
        None => false,
    }
}
