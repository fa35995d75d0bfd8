//! The memory of a run, allocated before the run begins.
ghost use Rattle.std.specs.Prelude.{◌≡◌, ◌<◌, ◌+◌, length, IfOk, OnErr};
ghost use Rattle.trade_line.specs.Size.{Size, size_of};
ghost use Rattle.trade_line.specs.Inner.Fresh.{IsFresh};

use crate::out_of_memory::OutOfMemory;
use crate::problem::Problem;
use crate::progress::Progress;
use std::alloc::Global;
use std::marker::Model;

/// All the memory that a run needs besides the line, for a given number of people and a given number of rooms.
#[derive(Drop)]
pub struct Bench {
    asked: Vec<bool>,
    remaining: Vec<bool>,
    given: Vec<Option<usize>>,
    cursors: Vec<usize>,
}

impl Model for Bench {
    ghost Value = { Size };

    ghost view = { λ b. record {
      people = length b.asked.items;
      rooms = length b.remaining.items;
    } };

    ghost invariant = { λ b. IsFresh b.asked.items b.remaining.items b.given.items
        b.cursors.items };
}

impl Bench {
    /// Allocates the bench for a run of the problem. Does not allocate if the problem has no people and no rooms.
    ///
    /// # Errors
    ///
    /// `OutOfMemory` if an allocation fails.
    pub fn new(alloc: Global, problem: &Problem) -> Result<Self, OutOfMemory>
        ensures bench { IfOk result (λ b. b ≡ size_of problem.now) }
        ensures memory { OnErr result (0 < problem.now.people + problem.now.rooms) }
    {
        let people = problem.people();
        let rooms = problem.rooms();
        if people == 0 && rooms == 0 {
            return Ok(Bench {
                asked: Vec::new(alloc),
                remaining: Vec::new(alloc),
                given: Vec::new(alloc),
                cursors: Vec::new(alloc),
            });
        }
        Ok(Bench {
            asked: vec![in alloc; false; people]?,
            remaining: vec![in alloc; true; rooms]?,
            given: vec![in alloc; None; people]?,
            cursors: vec![in alloc; 0; people]?,
        })
    }

    // Splits the bench into two parts: the state of a run before the first turn, and the cursors of the people. Each
    // cursor is at the start of its person's list.
    pub(crate) fn into_progress(self) -> (Progress, Vec<usize>)
        ensures fresh { IsFresh result.0.asked.items result.0.remaining.items result.0.given.items
            result.1.items }
        ensures people { length result.0.asked.items ≡ self.people }
        ensures rooms { length result.0.remaining.items ≡ self.rooms }
    {
        let progress = Progress {
            asked: self.asked,
            remaining: self.remaining,
            given: self.given,
        };
        (progress, self.cursors)
    }
}
