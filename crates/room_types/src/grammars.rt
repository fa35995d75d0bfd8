//! The grammars of room codes, identifiers, keys, labels and names. Lengths are in bytes.
ghost use Rattle.std.specs.Prelude.{◌≡◌, true, length};
ghost use Rattle.std.specs.List.{list_all, list_any};
ghost use Rattle.std.specs.Char.{is_control};
ghost use Rattle.std.specs.Str.{chars};
ghost use Rattle.std.specs.Int.{is_in_range};
ghost use Rattle.room_types.specs.Grammars.{is_room_code, is_person_id, is_key, is_label, is_name};
ghost use Rattle.room_types.specs.Grammars.{is_code_byte, is_id_byte, is_key_byte, is_label_byte};
ghost use Rattle.room_types.specs.Grammars.{starts_plainly, is_spaced};

use crate::text::{Grammar, Text};

/// The code of a room.
pub type RoomCode = Text<RoomCodes>;

/// The identifier of a person.
pub type PersonId = Text<PersonIds>;

/// The secret key that authenticates a person's own requests. The office gives it out.
pub type Key = Text<Keys>;

/// The label of an imported list. Each label names at most one list.
pub type Label = Text<Labels>;

/// A person's name, as it is printed.
pub type Name = Text<Names>;

/// The grammar of room codes: 1 to 8 characters, each one of A-Z, 0-9 or a hyphen. The first is not a hyphen.
#[derive(Drop)]
pub struct RoomCodes {}

/// The grammar of identifiers: 1 to 12 characters, each one of A-Z or 0-9.
#[derive(Drop)]
pub struct PersonIds {}

/// The grammar of keys: 16 to 64 characters, each one of a-z or 0-9.
#[derive(Drop)]
pub struct Keys {}

/// The grammar of labels: 1 to 32 characters, each one of a-z, 0-9 or a hyphen. The first is not a hyphen.
#[derive(Drop)]
pub struct Labels {}

/// The grammar of names: 1 to 60 bytes of UTF-8. A name has no control character (U+0000 to U+001F, U+007F to
/// U+009F), no space at either end, and no two spaces in a row.
#[derive(Drop)]
pub struct Names {}

impl Grammar for RoomCodes {
    ghost is_text = { is_room_code };

    fn is_text(text: &str) -> bool {
        has_length(text, 1, 8) && starts_plainly(text) && has_code_bytes(text)
    }
}

impl Grammar for PersonIds {
    ghost is_text = { is_person_id };

    fn is_text(text: &str) -> bool {
        has_length(text, 1, 12) && has_id_bytes(text)
    }
}

impl Grammar for Keys {
    ghost is_text = { is_key };

    fn is_text(text: &str) -> bool {
        has_length(text, 16, 64) && has_key_bytes(text)
    }
}

impl Grammar for Labels {
    ghost is_text = { is_label };

    fn is_text(text: &str) -> bool {
        has_length(text, 1, 32) && starts_plainly(text) && has_label_bytes(text)
    }
}

impl Grammar for Names {
    ghost is_text = { is_name };

    fn is_text(text: &str) -> bool {
        has_length(text, 1, 60) && is_spaced(text) && !has_control(text)
    }
}

// Returns whether the length of a text, in bytes, is from `least` to `most`.
fn has_length(text: &str, least: usize, most: usize) -> bool
    ensures { result ≡ is_in_range least most (length text.now) }
{
    least <= text.len() && text.len() <= most
}

// Returns whether a text does not begin with a hyphen.
fn starts_plainly(text: &str) -> bool
    ensures { result ≡ starts_plainly text.now }
{
    match text.as_bytes() {
        [] => true,
        [first, ..] => *first != b'-',
    }
}

fn has_code_bytes(text: &str) -> bool
    ensures { result ≡ list_all is_code_byte text.now }
{
    text.as_bytes().iter().all(|b| b.is_ascii_uppercase() || b.is_ascii_digit() || *b == b'-')
}

fn has_id_bytes(text: &str) -> bool
    ensures { result ≡ list_all is_id_byte text.now }
{
    text.as_bytes()
        .iter()
        .all(|b| b.is_ascii_uppercase() || b.is_ascii_digit())
}

fn has_key_bytes(text: &str) -> bool
    ensures { result ≡ list_all is_key_byte text.now }
{
    text.as_bytes()
        .iter()
        .all(|b| b.is_ascii_lowercase() || b.is_ascii_digit())
}

fn has_label_bytes(text: &str) -> bool
    ensures { result ≡ list_all is_label_byte text.now }
{
    text.as_bytes().iter().all(|b| b.is_ascii_lowercase() || b.is_ascii_digit() || *b == b'-')
}

// Returns whether a text is not empty, has no space at either end, and has no two spaces in a row.
fn is_spaced(text: &str) -> bool
    ensures { result ≡ is_spaced true text.now }
{
    let mut after_space = true;
    for byte in text.as_bytes() {
        if *byte == b' ' {
            if after_space {
                return false;
            }
            after_space = true;
        } else {
            after_space = false;
        }
    }
    !after_space
}

fn has_control(text: &str) -> bool
    ensures { result ≡ list_any is_control (chars text.now) }
{
    text.chars().any(|c| c.is_control())
}
