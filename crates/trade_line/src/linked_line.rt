//! A line as a linked list, whose calls other than `whole` take constant time.
ghost use Rattle.std.specs.Prelude.{ℕ, List};
ghost use Rattle.trade_line.specs.Inner.Links.{IsLinkedRing, linked_people};

use crate::line::Line;
use crate::out_of_memory::OutOfMemory;
use std::alloc::Global;
use std::marker::Model;

/// A line as a doubly linked list. Two vectors have, for each person, the next and the previous one. `whole` takes
/// time and memory linear in `count`; all other calls take constant time and do not allocate.
#[derive(Drop)]
pub struct LinkedLine {
    // The number of people, `waits.len()`, is a sentinel: it follows the last person and precedes the first, so the
    // ends of the line are no special cases. `next` and `previous` have one more entry than `waits`, for the
    // sentinel.
    next: Vec<usize>,
    previous: Vec<usize>,
    waits: Vec<bool>,
}

impl Model for LinkedLine {
    ghost Value = { List ℕ };

    ghost view = { λ line. linked_people line.next.items line.waits.items };

    ghost invariant = { λ line. IsLinkedRing line.next.items line.previous.items line.waits.items
        (linked_people line.next.items line.waits.items) };
}

impl Line for LinkedLine {
    ghost people = { λ line. line };

    fn whole(alloc: Global, count: usize) -> Result<Self, OutOfMemory> {
        // This allocation comes first: if it succeeds, `count + 1` is in range.
        let waits = vec![in alloc; true; count]?;
        let mut next = Vec::with_capacity(alloc, waits.len() + 1)?;
        let mut previous = Vec::with_capacity(alloc, waits.len() + 1)?;
        previous.push(count)?;
        for person in 0..count {
            next.push(person + 1)?;
            previous.push(person)?;
        }
        next.push(0)?;
        Ok(LinkedLine {
            next,
            previous,
            waits,
        })
    }

    fn front(&self) -> Option<usize> {
        let end = self.waits.len();
        let first = self.next[end];
        if first == end { None } else { Some(first) }
    }

    fn holds(&self, person: usize) -> bool {
        person < self.waits.len() && self.waits[person]
    }

    fn is_empty(&self) -> bool {
        let end = self.waits.len();
        self.next[end] == end
    }

    fn bring_to_front(&mut self, person: usize) {
        let before = self.previous[person];
        let behind = self.next[person];
        self.next[before] = behind;
        self.previous[behind] = before;
        let end = self.waits.len();
        let first = self.next[end];
        self.next[person] = first;
        self.previous[first] = person;
        self.next[end] = person;
        self.previous[person] = end;
    }

    fn drop_front(&mut self) {
        let end = self.waits.len();
        let first = self.next[end];
        let second = self.next[first];
        self.next[end] = second;
        self.previous[second] = end;
        self.waits[first] = false;
    }

    fn drop_member(&mut self, person: usize) {
        let before = self.previous[person];
        let behind = self.next[person];
        self.next[before] = behind;
        self.previous[behind] = before;
        self.waits[person] = false;
    }
}
