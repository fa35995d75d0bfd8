//! Parsers for the fields of a record.
ghost use Rattle.std.specs.Prelude.{◌≡◌, ◌⊎◌, true, false, map, IfOk, IfErr, MatchResult, None, Some};
ghost use Rattle.std.specs.List.{list_all};
ghost use Rattle.csv.specs.Records.{fields_of};
ghost use Rattle.room_types.specs.Grades.{grade_of};
ghost use Rattle.room_types.specs.Grammars.{is_room_code};
ghost use Rattle.office_lists.specs.Entries.{codes_in, is_choices, is_optional_room_code, text_or_none};
ghost use Rattle.office_lists.specs.Records.{field, same_fields};
ghost use Rattle.office_lists.specs.Inner.RecordFaults.{FailsAt, field_fault};

use crate::fault::{Cause, RecordFault};
use csv::{ByteRecord, StringRecord};
use room_types::{Choices, Grade, Grammar, RoomCode, Text, TypeFault};
use std::alloc::{AllocError, Global};

/// Returns whether the fields of `row` are exactly `names`, in this order.
pub fn same_fields(row: &ByteRecord, names: &[&str]) -> bool
    ensures { result ≡ same_fields (map (λ name. name.now) names.now) (fields_of row.now) }
{
    if row.len() != names.len() {
        return false;
    }
    for (i, name) in names.iter().enumerate() {
        match row.get(i) {
            Some(field) => {
                if field != name.as_bytes() {
                    return false;
                }
            }
            None => return false,
        }
    }
    true
}

/// Returns the field at index `at`, or an empty text if the record has no such field.
pub fn field(fields: &StringRecord, at: usize) -> &str
    ensures { result.now ≡ field at (fields_of fields.now) }
{
    fields.get(at).unwrap_or("")
}

/// Parses the text of field `number` by the grammar `G`. Fails with `BadField(number)` if the text is outside the
/// grammar. Allocates only if the text is in the grammar.
pub fn value<G: Grammar>(alloc: Global, text: &str, number: u8) -> Result<Text<G>, RecordFault>
    ensures value { IfOk result (λ value. value ≡ text.now) }
    ensures in_grammar { IfOk result (λ _. G.is_text text.now ≡ true) }
    ensures fault { IfErr result (λ fault. FailsAt number (G.is_text text.now) fault) }
{
    match Text::read(alloc, text) {
        Ok(value) => Ok(value),
        Err(fault) => Err(field_fault(fault, number)),
    }
}

/// Parses the text of field `number` as a room code, or as `None` if the text is empty. Fails with `BadField(number)`
/// if the text is neither.
pub fn optional_room(alloc: Global, text: &str, number: u8) -> Result<Option<RoomCode>, RecordFault>
    ensures value { IfOk result (λ room. room ≡ text_or_none text.now) }
    ensures in_grammar { IfOk result (λ _. is_optional_room_code text.now ≡ true) }
    ensures fault { IfErr result (λ fault. FailsAt number (is_optional_room_code text.now) fault) }
{
    if text.is_empty() {
        return Ok(None);
    }
    match value(alloc, text, number) {
        Ok(room) => Ok(Some(room)),
        Err(fault) => Err(fault),
    }
}

/// Parses the text of field `number` as a preference list: room codes separated by single spaces. An empty text is an
/// empty list. Fails with `BadField(number)` if the text is not a preference list, or with `OutOfMemory` if an
/// allocation fails.
pub fn choices(alloc: Global, text: &str, number: u8) -> Result<Choices, RecordFault>
    ensures value { IfOk result (λ choices. choices ≡ codes_in text.now) }
    ensures in_grammar { IfOk result (λ _. is_choices text.now ≡ true) }
    ensures fault { IfErr result (λ fault. FailsAt number (is_choices text.now) fault) }
{
    match read_choices(alloc, text) {
        Ok(choices) => Ok(choices),
        Err(fault) => Err(field_fault(fault, number)),
    }
}

/// Parses the text of field `number` as a grade, or fails with `BadField(number)`. Does not allocate.
pub fn grade(text: &str, number: u8) -> Result<Grade, RecordFault>
    ensures { MatchResult result (λ grade. grade_of text.now ≡ Some grade)
        (λ fault. (fault ≡ RecordFault.Bad (Cause.BadField number)) × (grade_of text.now ≡ None)) }
{
    match Grade::read(text) {
        Ok(grade) => Ok(grade),
        Err(fault) => Err(field_fault(fault, number)),
    }
}

// Converts the fault of field `number` to a fault of its record. Every fault but `OutOfMemory` becomes
// `BadField(number)`.
fn field_fault(fault: TypeFault, number: u8) -> RecordFault
    ensures { result ≡ field_fault number fault }
{
    match fault {
        TypeFault::OutOfMemory => RecordFault::OutOfMemory,
        _ => RecordFault::Bad(Cause::BadField(number)),
    }
}

fn read_choices(alloc: Global, text: &str) -> Result<Choices, TypeFault>
    ensures value { IfOk result (λ choices. choices ≡ codes_in text.now) }
    ensures in_grammar { IfOk result (λ _. is_choices text.now ≡ true) }
    ensures fault { IfErr result (λ fault.
        (fault ≡ TypeFault.OutOfMemory) ⊎ (is_choices text.now ≡ false)) }
{
    let codes = codes(alloc, text)?;
    Choices::read(codes)
}

fn codes(alloc: Global, text: &str) -> Result<Vec<RoomCode>, TypeFault>
    ensures value { IfOk result (λ codes. codes.items ≡ codes_in text.now) }
    ensures in_grammar { IfOk result (λ _. list_all is_room_code (codes_in text.now) ≡ true) }
    ensures fault { IfErr result (λ fault. (fault ≡ TypeFault.OutOfMemory)
        ⊎ (list_all is_room_code (codes_in text.now) ≡ false)) }
{
    let mut codes = Vec::new(alloc);
    for word in &words(alloc, text)? {
        match RoomCode::read(alloc, word) {
            Ok(code) => {
                if codes.push(code).is_err() {
                    return Err(TypeFault::OutOfMemory);
                }
            }
            Err(fault) => return Err(fault),
        }
    }
    Ok(codes)
}

// Splits a text at each space. An empty text gives no words.
fn words(alloc: Global, text: &str) -> Result<Vec<&str>, AllocError>
    ensures { IfOk result (λ words. map (λ word. word.now) words.items ≡ codes_in text.now) }
{
    if text.is_empty() {
        return Ok(Vec::new(alloc));
    }
    text.split(' ').collect(alloc)
}
