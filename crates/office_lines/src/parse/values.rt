//! Parses the values of a request.
ghost use Rattle.std.specs.Prelude.{◌≡◌, false, is_some, length, map};
ghost use Rattle.std.specs.Char.{is_ascii_digit};
ghost use Rattle.std.specs.Int.{is_in_range};
ghost use Rattle.std.specs.List.{list_all};
ghost use Rattle.office_lines.specs.parse.Understanding.{Understands, UnderstandsAs, OutOfMemoryOnlyIf};
ghost use Rattle.room_types.specs.Grades.{grade_of};
ghost use Rattle.room_types.specs.Words.{word_of};
ghost use Rattle.office_lines.specs.parse.Values.{all_of, choices_in, codes_of, in_grammar, is_round_number, joined, only, round_number};
ghost use Rattle.office_lines.specs.parse.Requests.{first_in, is_drawn_word};
ghost use Rattle.room_types.specs.Grammars.{is_name};

use crate::parse::word_fault::WordFault;
use room_types::{Choices, Grade, Grammar, Listing, Name, RoomCode, Text, TypeFault, Word};
use std::alloc::Global;

/// The greatest number of digits in the number of a round.
pub const ROUND_DIGITS: usize = 4;

/// Parses a word of the grammar `G`.
///
/// # Errors
///
/// `NotUnderstood` if the word is not in the grammar. `OutOfMemory` if an allocation fails, which happens only for a
/// word in the grammar.
pub(crate) fn value_of<G: Grammar>(alloc: Global, word: &str) -> Result<Text<G>, WordFault>
    ensures understands { Understands (in_grammar G.is_text word.now) result }
    ensures memory { OutOfMemoryOnlyIf (G.is_text word.now) result }
{
    match Text::read(alloc, word) {
        Ok(value) => Ok(value),
        Err(TypeFault::OutOfMemory) => Err(WordFault::OutOfMemory),
        Err(_) => Err(WordFault::NotUnderstood),
    }
}

/// Parses the only word in `words`, which must be in the grammar `G`.
///
/// # Errors
///
/// `NotUnderstood` if the number of words is not 1, or if the word is not in the grammar. `OutOfMemory` if an
/// allocation fails, which happens only if there is exactly one word and this word is in the grammar.
pub(crate) fn only_value<G: Grammar>(alloc: Global, words: &[&str]) -> Result<Text<G>, WordFault>
    ensures understands { Understands
        (only G.is_text (map (λ word. word.now) words.now)) result }
    ensures memory { OutOfMemoryOnlyIf
        (is_some (only G.is_text (map (λ word. word.now) words.now))) result }
{
    match words {
        [word] => value_of(alloc, word),
        _ => Err(WordFault::NotUnderstood),
    }
}

/// Joins the words with single spaces, and parses the result as a name.
///
/// # Errors
///
/// `NotUnderstood` if the joined words are not a name; `OutOfMemory` if an allocation fails.
pub(crate) fn name_of(alloc: Global, words: &[&str]) -> Result<Name, WordFault>
    ensures { Understands (in_grammar is_name (joined (map (λ word. word.now) words.now))) result }
{
    let name = words.join(alloc, " ")?;
    value_of(alloc, name.as_str())
}

/// Parses a preference list. Each word is one room code.
///
/// # Errors
///
/// `NotUnderstood` if a word is not a room code, if a code occurs twice, or if there are more than `CHOICE_LIMIT`
/// codes. `OutOfMemory` if an allocation fails.
pub(crate) fn choices_in(alloc: Global, words: &[&str]) -> Result<Choices, WordFault>
    ensures { Understands (choices_in (map (λ word. word.now) words.now)) result }
{
    let codes = codes_of(alloc, words)?;
    match Choices::read(codes) {
        Ok(choices) => Ok(choices),
        Err(TypeFault::OutOfMemory) => Err(WordFault::OutOfMemory),
        Err(_) => Err(WordFault::NotUnderstood),
    }
}

// Parses a room code from each word.
fn codes_of(alloc: Global, words: &[&str]) -> Result<Vec<RoomCode>, WordFault>
    ensures { UnderstandsAs (λ codes. codes.items) (codes_of (map (λ word. word.now) words.now))
        result }
{
    let mut codes = Vec::new(alloc);
    for word in words {
        codes.push(value_of(alloc, word)?)?;
    }
    Ok(codes)
}

/// Parses the lottery numbers of a draw. Each word is one lottery number.
///
/// # Errors
///
/// `NotUnderstood` if a word is not a lottery number. `OutOfMemory` if an allocation fails, which happens only if the
/// first word is a lottery number.
pub(crate) fn drawn_words(alloc: Global, words: &[&str]) -> Result<Listing<Word>, WordFault>
    ensures understands { Understands (all_of word_of (map (λ word. word.now) words.now)) result }
    ensures memory { OutOfMemoryOnlyIf
        (first_in is_drawn_word (map (λ word. word.now) words.now)) result }
{
    let mut drawn = Vec::new(alloc);
    for word in words {
        drawn.push(drawn_word(word)?)?;
    }
    Ok(Listing::new(drawn))
}

// Parses a lottery number. Does not allocate.
fn drawn_word(word: &str) -> Result<Word, WordFault>
    ensures understands { Understands (word_of word.now) result }
    ensures memory { OutOfMemoryOnlyIf false result }
{
    match Word::read(word) {
        Ok(word) => Ok(word),
        Err(_) => Err(WordFault::NotUnderstood),
    }
}

/// Parses a grade, which is one digit. Does not allocate.
///
/// # Errors
///
/// `NotUnderstood` if the word is not a grade.
pub(crate) fn grade_of(word: &str) -> Result<Grade, WordFault>
    ensures understands { Understands (grade_of word.now) result }
    ensures memory { OutOfMemoryOnlyIf false result }
{
    match Grade::read(word) {
        Ok(grade) => Ok(grade),
        Err(_) => Err(WordFault::NotUnderstood),
    }
}

/// Parses the number of a round, which is 1 to 4 digits. Does not allocate.
///
/// # Errors
///
/// `NotUnderstood` if the word is not 1 to 4 digits.
pub(crate) fn round_number(word: &str) -> Result<u16, WordFault>
    ensures understands { Understands (round_number word.now) result }
    ensures memory { OutOfMemoryOnlyIf false result }
{
    if !is_round_number(word) {
        return Err(WordFault::NotUnderstood);
    }
    match word.parse::<u16>() {
        Ok(number) => Ok(number),
        Err(_) => Err(WordFault::NotUnderstood),
    }
}

// Returns whether a word is 1 to 4 decimal digits.
fn is_round_number(word: &str) -> bool
    ensures { result ≡ is_round_number word.now }
{
    has_round_length(word) && has_only_digits(word)
}

fn has_round_length(word: &str) -> bool
    ensures { result ≡ is_in_range 1 4 (length word.now) }
{
    1 <= word.len() && word.len() <= ROUND_DIGITS
}

fn has_only_digits(word: &str) -> bool
    ensures { result ≡ list_all is_ascii_digit word.now }
{
    word.as_bytes().iter().all(|byte| byte.is_ascii_digit())
}
