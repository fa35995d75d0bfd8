//! Tests whether a state is lawful: whether it satisfies all invariants of an office.
mod grades;
mod imports;
mod leavers;
mod lists;
mod moves;
mod register;
mod results;
mod round;
mod words;

ghost use Rattle.std.specs.Prelude.{IfOk, OnErr};
ghost use Rattle.std.specs.Bool.{Decides};
ghost use Rattle.office_state.specs.Office.Invariants.{IsLawful};
ghost use Rattle.office_state.specs.Soundness.{Allocates};

use crate::office::Office;
use crate::soundness::grades::are_valid_grades;
use crate::soundness::imports::are_valid_imports;
use crate::soundness::leavers::are_valid_leavers;
use crate::soundness::lists::are_valid_lists;
use crate::soundness::moves::are_valid_moves;
use crate::soundness::register::is_valid_register;
use crate::soundness::results::are_valid_results;
use crate::soundness::round::is_valid_round;
use crate::soundness::words::are_valid_words;
use room_types::OutOfMemory;
use std::alloc::Global;

/// Returns whether the office satisfies all its invariants. Takes n log n steps for n entries and listed rooms, and
/// at most one run of the round. Allocates only to compare keys and homes, and to compute the results again. If the
/// call finds a broken invariant before it allocates, it returns `false` and cannot fail.
///
/// # Errors
///
/// `OutOfMemory` if an allocation fails.
pub fn sound(alloc: Global, office: &Office) -> Result<bool, OutOfMemory>
    ensures lawful { IfOk result (λ lawful. Decides lawful (IsLawful office.now)) }
    ensures memory { OnErr result (Allocates office.now) }
{
    if !is_valid_register(alloc, office)? {
        return Ok(false);
    }
    if !are_valid_lists(office) {
        return Ok(false);
    }
    if !is_valid_round(office) {
        return Ok(false);
    }
    if !are_valid_grades(office) {
        return Ok(false);
    }
    if !are_valid_leavers(office) {
        return Ok(false);
    }
    if !are_valid_words(office) {
        return Ok(false);
    }
    if !are_valid_moves(office) {
        return Ok(false);
    }
    if !are_valid_imports(office) {
        return Ok(false);
    }
    are_valid_results(alloc, office)
}
