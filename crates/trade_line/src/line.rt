//! The line: the queue of people who wait for their turn.
ghost use Rattle.std.specs.Prelude.{◌≡◌, ℕ, ◌<◌, List, ◌∷◌, IfOk, OnErr, IsTrue, false};
ghost use Rattle.std.specs.List.{range_with_len};
ghost use Rattle.trade_line.specs.Member.{among};
ghost use Rattle.trade_line.specs.Line.{front_of, tail_of, is_empty, without};

use crate::out_of_memory::OutOfMemory;
use std::alloc::Global;
use std::marker::Model;

/// The queue of people who wait for their turn, as a list with the front first. Only `whole` allocates. The contract
/// of `run` holds for every implementation.
pub trait Line: Drop {
    ghost people: { Self → List ℕ };

    /// Creates the line of the people numbered below `count`, in ascending order.
    ///
    /// # Errors
    ///
    /// `OutOfMemory` if an allocation fails.
    fn whole(alloc: Global, count: usize) -> Result<Self, OutOfMemory>
        ensures { IfOk result (λ line. people line ≡ range_with_len 0 count) };

    /// Returns the first person, or `None` if the line is empty.
    fn front(&self) -> Option<usize>
        ensures { result ≡ front_of (people self.now) };

    /// Returns whether the person is in the line.
    fn holds(&self, person: usize) -> bool
        ensures { result ≡ among (people self.now) person };

    /// Returns whether the line is empty.
    fn is_empty(&self) -> bool
        ensures { result ≡ is_empty (people self.now) };

    /// Moves a person of the line to the front. The others keep their order.
    fn bring_to_front(&mut self, person: usize)
        requires { IsTrue (among (people self.old) person) }
        ensures { people self.new ≡ person ∷ without person (people self.old) };

    /// Removes the first person from the line, which must not be empty.
    fn drop_front(&mut self)
        requires { is_empty (people self.old) ≡ false }
        ensures { people self.new ≡ tail_of (people self.old) };

    /// Removes a person of the line from any position. The others keep their order.
    fn drop_member(&mut self, person: usize)
        requires { IsTrue (among (people self.old) person) }
        ensures { people self.new ≡ without person (people self.old) };
}

/// A line in one vector, the front first. `holds`, `bring_to_front`, `drop_front` and `drop_member` take time linear
/// in the length of the line. So the calls of the line in a run take time quadratic in the number of people. Use
/// `LinkedLine` for runs; tests compare `LinkedLine` with this simpler line.
#[derive(Drop)]
pub struct VecLine {
    order: Vec<usize>,
}

impl Model for VecLine {
    ghost Value = { List ℕ };

    ghost view = { λ line. line.order.items };
}

impl Line for VecLine {
    ghost people = { λ line. line };

    // Creating an empty line does not allocate.
    fn whole(alloc: Global, count: usize) -> Result<Self, OutOfMemory>
        ensures line { IfOk result (λ line. line ≡ range_with_len 0 count) }
        ensures memory { OnErr result (0 < count) }
    {
        let mut order = Vec::with_capacity(alloc, count)?;
        for person in 0..count {
            order.push(person)?;
        }
        Ok(VecLine { order })
    }

    fn front(&self) -> Option<usize> {
        self.order.first().copied()
    }

    fn holds(&self, person: usize) -> bool {
        self.order.iter().any(|other| *other == person)
    }

    fn is_empty(&self) -> bool {
        self.order.is_empty()
    }

    fn bring_to_front(&mut self, person: usize) {
        self.order.retain(|other| *other != person);
        // The insertion does not allocate: the entry just removed left room for it.
        let _ = self.order.insert(0, person);
    }

    fn drop_front(&mut self) {
        self.order.remove(0);
    }

    fn drop_member(&mut self, person: usize) {
        self.order.retain(|member| *member != person);
    }
}
