//! The words of a draw: 64-bit lottery numbers.
ghost use Rattle.std.specs.Prelude.{◌≡◌, Some, None, MatchResult, IfSome, ◌<◌, ◌≤◌, length};
ghost use Rattle.room_types.specs.Words.{word_of, word_text, hex_digit, hex_value};

use crate::fault::TypeFault;
use crate::table::ExactClone;
use std::fmt;
use std::marker::Model;

/// The number of hexadecimal digits of a word.
pub const WORD_DIGITS: usize = 16;

/// A word: a 64-bit lottery number. The draw of a round gives a word to each participant. Words are compared by
/// value.
#[derive(Clone, Copy, Debug, PartialEq, Eq, PartialOrd, Ord)]
pub struct Word {
    value: u64,
}

impl Model for Word {
    ghost use Rattle.std.specs.Prelude.{ℕ};

    ghost Value = { ℕ };

    ghost view = { λ a. a.value };

    ghost inverse = { λ n. record { value = n } };
}

impl Word {
    /// Makes the word with this value.
    pub fn new(value: u64) -> Word
        ensures { result ≡ value }
    {
        Word { value }
    }

    /// Parses a word of exactly `WORD_DIGITS` hexadecimal digits, in either case. Does not allocate.
    ///
    /// # Errors
    ///
    /// `BadValue` for any other text.
    pub fn read(text: &str) -> Result<Word, TypeFault>
        ensures { MatchResult result (λ word. word_of text.now ≡ Some word)
            (λ fault. (fault ≡ TypeFault.BadValue) × (word_of text.now ≡ None)) }
    {
        if text.len() != WORD_DIGITS {
            return Err(TypeFault::BadValue);
        }
        match hex_value(text.as_bytes()) {
            Some(value) => Ok(Word { value }),
            None => Err(TypeFault::BadValue),
        }
    }

    /// Returns the word as a number.
    pub fn value(self) -> u64
        ensures { result ≡ self }
    {
        self.value
    }
}

impl ExactClone for Word {
    ghost same = { λ x y h. h };
}

/// Prints sixteen hexadecimal digits in lower case.
impl fmt::Display for Word {
    ghost output = { λ word. Some (word_text word) };

    fn fmt<W: fmt::Write>(&self, f: &mut fmt::Formatter<W>) -> fmt::Result {
        let value = self.value;
        write!(f, "{value:016x}")
    }
}

fn hex_value(digits: &[u8]) -> Option<u64>
    requires { length digits.now ≤ 16 }
    ensures { result ≡ hex_value 0 digits.now }
{
    let mut value = 0u64;
    for byte in digits {
        match hex_digit(*byte) {
            Some(digit) => value = value * 16 + digit,
            None => return None,
        }
    }
    Some(value)
}

fn hex_digit(byte: u8) -> Option<u64>
    ensures value { result ≡ hex_digit byte }
    ensures small { IfSome result (λ digit. digit < 16) }
{
    match byte {
        b'0'..=b'9' => Some(byte as u64 - 48),
        b'a'..=b'f' => Some(byte as u64 - 87),
        b'A'..=b'F' => Some(byte as u64 - 55),
        _ => None,
    }
}
