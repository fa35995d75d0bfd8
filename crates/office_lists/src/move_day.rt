//! The list of moves for the day of moving.
ghost use Rattle.std.specs.Prelude.{◌≡◌, ◌<◌, ◌++◌, [], ◌∷◌, List, length, IfOk, OnOk, OnErr, string_bytes, map};
ghost use Rattle.room_types.specs.Ascending.{ascending};
ghost use Rattle.room_types.specs.declared.moves.Move.{Move};
ghost use Rattle.office_lists.specs.Tables.{line};
ghost use Rattle.office_lists.specs.MoveDay.{is_swap, wave_number, move_cmp, wave_text, move_day_table, IsMoveDayList, HaveOneMoveDayList};

use crate::tables::or_none;
use room_types::{Move, OutOfMemory, PersonId, Wave};
use std::alloc::{AllocError, Global};
use std::cmp::Ordering;

/// Returns the list for the day of moving as a text table. The numbered waves come first, in ascending order; the
/// swaps come last. Within a wave and among the swaps, the moves ascend by the person's identifier. Makes O(n log n)
/// comparisons.
pub fn move_day_text(alloc: Global, moves: &[Move]) -> Result<String, OutOfMemory>
    ensures listed { IfOk result (λ text. IsMoveDayList moves.now (string_bytes text)) }
    ensures computed { IfOk result (λ text. string_bytes text ≡ move_day_table moves.now) }
{
    let rows = in_moving_order(alloc, moves)?;
    let mut text = String::new(alloc);
    push_move(&mut text, "wave", "person", "from", "to")?;
    for row in &rows {
        let wave = wave_text(alloc, row.wave)?;
        push_move(
            &mut text,
            wave.as_str(),
            row.person.as_str(),
            or_none(&row.from),
            or_none(&row.to),
        )?;
    }
    Ok(text)
}

/// Returns the moves sorted by wave, with swaps last, and within a wave by the person's identifier. Makes O(n log n)
/// comparisons. Does not allocate if there are no moves.
pub fn in_moving_order(alloc: Global, moves: &[Move]) -> Result<Vec<&Move>, OutOfMemory>
    ensures ordered { IfOk result (λ rows. map (λ row. row.now) rows.items
        ≡ ascending move_cmp moves.now) }
    ensures memory { OnErr result (0 < length moves.now) }
{
    if moves.is_empty() {
        return Ok(Vec::new(alloc));
    }
    let mut rows: Vec<&Move> = moves.iter().collect(alloc)?;
    rows.sort_by(|a, b| move_cmp(a, b))?;
    Ok(rows)
}

fn move_cmp(a: &Move, b: &Move) -> Ordering
    ensures { result ≡ move_cmp a.now b.now }
{
    sort_key(a).cmp(&sort_key(b))
}

// Returns the sort key of a move: whether the move is a swap, the number of its wave (0 for a swap), and the person.
fn sort_key(row: &Move) -> (bool, u16, &PersonId)
    ensures swap { result.0 ≡ is_swap row.now.wave }
    ensures number { result.1 ≡ wave_number row.now.wave }
    ensures person { result.2.now ≡ row.now.person }
{
    match row.wave {
        Wave::Nth(number) => (false, number, &row.person),
        Wave::Swap => (true, 0, &row.person),
    }
}

/// Returns a wave as it is printed: its number, or `swap`.
pub fn wave_text(alloc: Global, wave: Wave) -> Result<String, AllocError>
    ensures { IfOk result (λ text. string_bytes text ≡ wave_text wave) }
{
    match wave {
        Wave::Nth(number) => number.to_string(alloc),
        Wave::Swap => String::from_str(alloc, "swap"),
    }
}

fn push_move(
    text: &mut String,
    wave: &str,
    person: &str,
    from: &str,
    to: &str,
) -> Result<(), AllocError>
    ensures { OnOk result (string_bytes text.new ≡ string_bytes text.old
        ++ line (4 ∷ 12 ∷ 8 ∷ []) (wave.now ∷ person.now ∷ from.now ∷ to.now ∷ [])) }
{
    writeln!(text, "{wave:<4}  {person:<12}  {from:<8}  {to}")
}

/// Theorem: for any moves there is exactly one list for the day of moving. `move_day_table` in `specs/` computes this
/// list. The function does nothing.
pub fn one_move_list()
    ensures { (moves : List Move) → HaveOneMoveDayList moves }
{}
