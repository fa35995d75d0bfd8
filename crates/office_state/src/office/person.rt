//! A person of the office.
ghost use Rattle.std.specs.Prelude.{◌≡◌, IfOk};

use room_types::rows::copy_optional;
use room_types::{ExactClone, Key, Name, OutOfMemory, RoomCode};
use std::alloc::AllocError;

/// What the office stores about a person, apart from the identifier.
#[derive(Drop)]
pub struct Person {
    pub name: Name,
    /// The secret by which the person authenticates.
    pub key: Key,
    /// The room where the person lives, or `None` if they have no home.
    pub home: Option<RoomCode>,
}

impl Person {
    /// Copies the person, but with `home` as the home.
    pub(crate) fn copy_with_home(&self, home: &Option<RoomCode>) -> Result<Person, OutOfMemory>
        ensures { IfOk result (λ moved. moved ≡ record self.now { home = home.now }) }
    {
        Ok(Person {
            name: self.name.copy()?,
            key: self.key.copy()?,
            home: copy_optional(home)?,
        })
    }
}

impl Clone for Person {
    ghost is_clone = { λ x y. y ≡ x };

    fn clone(&self) -> Result<Person, AllocError> {
        Ok(Person {
            name: self.name.clone()?,
            key: self.key.clone()?,
            home: copy_optional(&self.home)?,
        })
    }
}

impl ExactClone for Person {
    ghost same = { λ x y h. h };
}
