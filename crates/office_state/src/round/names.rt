//! Numbers the people or rooms of a problem.
ghost use Rattle.std.specs.Prelude.{◌≡◌, IfOk, List, ℕ};
ghost use Rattle.std.specs.FinMap as map;
ghost use Rattle.office_state.specs.Round.{number_in};

use room_types::{Grammar, OutOfMemory, Table, Text};
use std::alloc::Global;

/// Returns a map from each name to its number: the index of its first occurrence in `names`. Makes O(n log n)
/// comparisons for n names.
pub(crate) fn numbers<G: Grammar>(
    alloc: Global,
    names: &[Text<G>],
) -> Result<Table<G, usize>, OutOfMemory>
    ensures { IfOk result
        (λ numbers. (name : List ℕ) → map.get numbers name ≡ number_in names.now name) }
{
    let mut numbers = Table::new(alloc);
    for (number, name) in names.iter().enumerate() {
        if !numbers.contains_key(name) {
            numbers.insert(name.copy()?, number)?;
        }
    }
    Ok(numbers)
}
