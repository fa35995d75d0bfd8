//! Grades: priority classes of people. In the drawn order of a round, people with a smaller grade come earlier.
ghost use Rattle.std.specs.Prelude.{◌≡◌, ◌≤◌, None, Some, IfSome, MatchOption, MatchResult};
ghost use Rattle.std.specs.Bool.{Decides};
ghost use Rattle.room_types.specs.Grades.{grade_limit, grade_of, grade_text};

use crate::fault::TypeFault;
use crate::table::ExactClone;
use std::fmt;
use std::marker::Model;

/// The greatest grade.
pub const GRADE_LIMIT: u8 = 9;

/// A grade from 0 to `GRADE_LIMIT`. In the drawn order of a round, people with a smaller grade come earlier. Grades
/// are compared by value.
#[derive(Clone, Copy, Debug, PartialEq, Eq, PartialOrd, Ord)]
pub struct Grade {
    value: u8,
}

impl Model for Grade {
    ghost use Rattle.std.specs.Prelude.{ℕ, ◌≤◌};
    ghost use Rattle.room_types.specs.Grades.{grade_limit};

    ghost Value = { ℕ };

    ghost view = { λ a. a.value };

    ghost invariant = { λ a. a.value ≤ grade_limit };

    ghost inverse = { λ n. record { value = n } };
}

impl Grade {
    /// Returns grade 0, which a person has unless the office sets another.
    pub fn first() -> Grade
        ensures { result ≡ 0 }
    {
        Grade { value: 0 }
    }

    /// Returns the grade with this value, or `None` if the value is above `GRADE_LIMIT`.
    pub fn new(value: u8) -> Option<Grade>
        ensures { MatchOption result (¬ (value ≤ grade_limit)) (λ grade. grade ≡ value) }
    {
        if value <= GRADE_LIMIT {
            Some(Grade { value })
        } else {
            None
        }
    }

    /// Parses a grade of exactly one decimal digit. Does not allocate.
    ///
    /// # Errors
    ///
    /// `BadValue` for any other text.
    pub fn read(text: &str) -> Result<Grade, TypeFault>
        ensures { MatchResult result (λ grade. grade_of text.now ≡ Some grade)
            (λ fault. (fault ≡ TypeFault.BadValue) × (grade_of text.now ≡ None)) }
    {
        match text.as_bytes() {
            [byte @ b'0'..=b'9'] => Ok(Grade {
                value: *byte - b'0',
            }),
            _ => Err(TypeFault::BadValue),
        }
    }

    /// Returns the grade as a number.
    pub fn value(self) -> u8
        ensures value { result ≡ self }
        ensures within { result ≤ grade_limit }
    {
        self.value
    }

    /// Returns whether this is grade 0.
    pub fn is_first(self) -> bool
        ensures { Decides result (self ≡ 0) }
    {
        self.value == 0
    }
}

impl ExactClone for Grade {
    ghost same = { λ x y h. h };
}

/// Prints one decimal digit.
impl fmt::Display for Grade {
    ghost output = { λ grade. Some (grade_text grade) };

    fn fmt<W: fmt::Write>(&self, f: &mut fmt::Formatter<W>) -> fmt::Result {
        let value = self.value;
        write!(f, "{value}")
    }
}
