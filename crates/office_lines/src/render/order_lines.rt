//! Formats the drawn order as text.
ghost use Rattle.std.specs.Prelude.{◌≡◌, ◌<◌, ◌++◌, IfOk, OnErr, OnOk, length, string_bytes};
ghost use Rattle.office_lines.specs.render.OrderLines.{order_line, order_text, right_in, grade_suffix};

use office_core::OrderRow;
use room_types::{Grade, OutOfMemory};
use std::alloc::{AllocError, Global};

/// The width, in characters, of the column that shows the place of each row.
const PLACE_WIDTH: usize = 4;

/// Returns one line for each row, in the order of `rows`. Each line starts with the row's place, counted from 1. If
/// there are no rows, returns an empty text and allocates nothing.
///
/// # Errors
///
/// `OutOfMemory` if an allocation fails. This never happens if there are no rows.
#[tactic(auto, using(crate::proofs::answer_texts::Bytes::order_text_some))]
pub fn order_text(alloc: Global, rows: &[OrderRow]) -> Result<String, OutOfMemory>
    ensures text { IfOk result (λ text. string_bytes text ≡ order_text rows.now) }
    ensures memory { OnErr result (0 < length (order_text rows.now)) }
{
    let mut text = String::new(alloc);
    let mut place = 1u64;
    for row in rows {
        push_order_row(alloc, &mut text, place, row)?;
        place += 1;
    }
    Ok(text)
}

// Appends the line of a row. `place` is the row's place in the order, counted from 1.
fn push_order_row(
    alloc: Global,
    text: &mut String,
    place: u64,
    row: &OrderRow,
) -> Result<(), AllocError>
    ensures { OnOk result
        (string_bytes text.new ≡ string_bytes text.old ++ order_line place row.now) }
{
    let number = place.to_string(alloc)?;
    let word = row.word;
    push_right(text, number.as_str(), PLACE_WIDTH)?;
    write!(text, " {word} ")?;
    text.push_str(row.person.as_str())?;
    push_grade(text, row.grade)?;
    text.push_str("\n")
}

// Appends ` grade ` and the grade, unless the grade is 0.
fn push_grade(text: &mut String, grade: Grade) -> Result<(), AllocError>
    ensures { OnOk result (string_bytes text.new ≡ string_bytes text.old ++ grade_suffix grade) }
{
    if grade.is_first() {
        return Ok(());
    }
    write!(text, " grade {grade}")
}

// Appends a text, padded with spaces on the left to the width.
fn push_right(text: &mut String, cell: &str, width: usize) -> Result<(), AllocError>
    ensures { OnOk result
        (string_bytes text.new ≡ string_bytes text.old ++ right_in width cell.now) }
{
    let mut spaces = width.saturating_sub(cell.len());
    while spaces > 0 {
        text.push_str(" ")?;
        spaces -= 1;
    }
    text.push_str(cell)
}
