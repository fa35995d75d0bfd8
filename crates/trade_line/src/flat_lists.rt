//! Lists of numbers, stored in one vector.
ghost use Rattle.std.specs.Prelude.{◌≡◌, ℕ, ◌<◌, List, [], IfOk, length, map, slice_index_or, slice_set};
ghost use Rattle.trade_line.specs.Inner.Flat.{AreFlat, flat_lists};

use crate::out_of_memory::OutOfMemory;
use std::alloc::Global;
use std::marker::Model;

// Lists that are stored one after the other in one vector. So reading a list does not follow a separate pointer for
// that list.
#[derive(Drop)]
pub(crate) struct FlatLists {
    entries: Vec<usize>,
    // The place in `entries` at which each list starts, and then the place at which the last list ends.
    starts: Vec<usize>,
}

impl Model for FlatLists {
    ghost Value = { List (List ℕ) };

    ghost view = { λ lists. flat_lists lists.entries.items lists.starts.items };

    ghost invariant = { λ lists. AreFlat lists.entries.items lists.starts.items
        (flat_lists lists.entries.items lists.starts.items) };
}

impl FlatLists {
    // Copies the lists.
    pub(crate) fn copied(alloc: Global, lists: &[Vec<usize>]) -> Result<Self, OutOfMemory>
        ensures { IfOk result (λ copied. copied ≡ map (λ list. list.items) lists.now) }
    {
        let mut entries = Vec::new(alloc);
        let mut starts = Vec::with_capacity(alloc, lists.len() + 1)?;
        starts.push(0)?;
        for list in lists {
            entries.extend_from_slice(list)?;
            starts.push(entries.len())?;
        }
        Ok(FlatLists { entries, starts })
    }

    // Returns the list of a person.
    pub(crate) fn list(&self, person: usize) -> &[usize]
        requires { person < length self.now }
        ensures { result.now ≡ slice_index_or self.now person [] }
    {
        &self.entries[self.starts[person]..self.starts[person + 1]]
    }

    // Returns the number of lists.
    pub(crate) fn len(&self) -> usize
        ensures { result ≡ length self.now }
    {
        self.starts.len() - 1
    }

    // Copies the lists, with `list` in place of the list of `person`.
    pub(crate) fn with_list(
        &self,
        alloc: Global,
        person: usize,
        list: &[usize],
    ) -> Result<Self, OutOfMemory>
        ensures { IfOk result (λ changed. changed ≡ slice_set self.now person list.now) }
    {
        let mut entries = Vec::new(alloc);
        let mut starts = Vec::with_capacity(alloc, self.starts.len())?;
        starts.push(0)?;
        for other in 0..self.len() {
            let next = if other == person {
                list
            } else {
                self.list(other)
            };
            entries.extend_from_slice(next)?;
            starts.push(entries.len())?;
        }
        Ok(FlatLists { entries, starts })
    }
}
