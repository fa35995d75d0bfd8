//! Preference lists: rooms, the best first.
ghost use Rattle.std.specs.Prelude.{◌≡◌, None, Some, ◌⊎◌, MatchResult, IfOk, OnErr, [], ◌<◌, length};
ghost use Rattle.std.specs.Option.{option_copied};
ghost use Rattle.room_types.specs.Repeats.{first_repeated};
ghost use Rattle.room_types.specs.Choices.{choices_fault, IsChoices, RepeatsRoom};

use crate::fault::{OutOfMemory, TypeFault};
use crate::grammars::RoomCode;
use crate::table::ExactClone;
use std::alloc::{AllocError, Global};
use std::marker::Model;

/// The greatest number of rooms on a list.
pub const CHOICE_LIMIT: usize = 40;

/// A person's preference list: at most `CHOICE_LIMIT` rooms, all different, the best first.
#[derive(Debug, Drop)]
pub struct Choices {
    codes: Vec<RoomCode>,
}

impl Model for Choices {
    ghost use Rattle.std.specs.Prelude.{List, ℕ};
    ghost use Rattle.room_types.specs.Choices.{IsChoices};

    ghost Value = { List (List ℕ) };

    ghost view = { λ a. a.codes.items };

    ghost invariant = { λ a. IsChoices a.codes.items };
}

impl Choices {
    /// Makes the preference list of the rooms with these codes. Allocates only to copy a repeated code into the
    /// error.
    ///
    /// # Errors
    ///
    /// `TooManyChoices` if there are more than `CHOICE_LIMIT` codes. Otherwise `RoomRepeated` if a code occurs twice.
    /// The error contains the first code that equals an earlier one. `OutOfMemory` comes in place of `RoomRepeated`
    /// if the allocation for the copy of that code fails.
    pub fn read(codes: Vec<RoomCode>) -> Result<Choices, TypeFault>
        ensures { MatchResult result
            (λ value. (value ≡ codes.items) × (choices_fault codes.items ≡ None))
            (λ fault. ((fault ≡ TypeFault.OutOfMemory) × RepeatsRoom codes.items)
            ⊎ (choices_fault codes.items ≡ Some fault)) }
    {
        if codes.len() > CHOICE_LIMIT {
            return Err(TypeFault::TooManyChoices);
        }
        if let Some(code) = first_repeated(codes.as_slice()) {
            return match code.copy() {
                Ok(code) => Err(TypeFault::RoomRepeated(code)),
                Err(_) => Err(TypeFault::OutOfMemory),
            };
        }
        Ok(Choices { codes })
    }

    /// Copies the list. Does not allocate if the list is empty.
    pub fn copy(&self) -> Result<Self, OutOfMemory>
        ensures copy { IfOk result (λ copy. copy ≡ self.now) }
        ensures memory { OnErr result (0 < length self.now) }
    {
        let copy = copied(*self.codes.allocator(), self.codes.as_slice())?;
        Ok(Choices { codes: copy })
    }

    /// Returns the rooms, the best first.
    pub fn as_slice(&self) -> &[RoomCode]
        ensures rooms { result.now ≡ self.now }
        ensures choices { IsChoices self.now }
    {
        self.codes.as_slice()
    }
}

impl Clone for Choices {
    ghost is_clone = { λ x y. y ≡ x };

    // Copying an empty list does not allocate.
    fn clone(&self) -> Result<Self, AllocError>
        ensures copy { IfOk result (λ copy. copy ≡ self.now) }
        ensures memory { OnErr result (0 < length self.now) }
    {
        let codes = copied(*self.codes.allocator(), self.codes.as_slice())?;
        Ok(Choices { codes })
    }
}

impl ExactClone for Choices {
    ghost same = { λ x y h. h };
}

// Returns the first code that equals an earlier one, or `None` if all codes differ. Takes quadratic time, which is
// fast enough for short lists.
fn first_repeated(codes: &[RoomCode]) -> Option<&RoomCode>
    ensures { option_copied result ≡ first_repeated [] codes.now }
{
    for (i, code) in codes.iter().enumerate() {
        if codes[..i].contains(code) {
            return Some(code);
        }
    }
    None
}

// Copies the codes, in order. Does not allocate if there are none.
fn copied(alloc: Global, codes: &[RoomCode]) -> Result<Vec<RoomCode>, AllocError>
    ensures copies { IfOk result (λ copies. copies.items ≡ codes.now) }
    ensures memory { OnErr result (0 < length codes.now) }
{
    let mut copies = Vec::with_capacity(alloc, codes.len())?;
    for code in codes {
        copies.push(code.clone()?)?;
    }
    Ok(copies)
}
