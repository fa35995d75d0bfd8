//! The preference list in the body of a request.
ghost use Rattle.std.specs.Prelude.{◌≡◌, ◌<◌, ◌⊎◌, ◌++◌, ◌∷◌, [], IfOk, IfErr, OnOk, Ok, Err, Some, None, length};
ghost use Rattle.serde_json.specs.View.{items_view, view};
ghost use Rattle.resident_requests.specs.Bodies.{choices_of_body, code_in, codes_in, json_of};

use room_types::{Choices, OutOfMemory, RoomCode, TypeFault};
use serde_json::Value;
use std::alloc::Global;

/// Parses the preference list in the body of a request: a JSON array of room codes, the best first.
///
/// # Errors
///
/// - `BadValue` if the body is not a JSON array of room codes.
/// - `TooManyChoices` if the array has more than `CHOICE_LIMIT` codes.
/// - Otherwise, `RoomRepeated` if a code occurs in the array more than once.
/// - `OutOfMemory` if an allocation fails. This never happens for an empty body, whose error is `BadValue`.
pub fn choices_of_body(alloc: Global, body: &[u8]) -> Result<Choices, TypeFault>
    ensures value { IfOk result (λ choices. choices_of_body body.now ≡ Ok choices) }
    ensures fault { IfErr result (λ fault.
        ((fault ≡ TypeFault.OutOfMemory) × (0 < length body.now))
        ⊎ (choices_of_body body.now ≡ Err fault)) }
{
    let value = json_value(alloc, body)?;
    let Some(items) = value.as_array() else {
        return Err(TypeFault::BadValue);
    };
    let codes = room_codes(alloc, items.as_slice())?;
    Choices::read(codes)
}

// Parses the bytes as JSON. Fails with `BadValue` if they are not UTF-8 or `serde_json` cannot read them, and with
// `OutOfMemory` if an allocation fails.
fn json_value(alloc: Global, bytes: &[u8]) -> Result<Value, TypeFault>
    ensures value { IfOk result (λ value. json_of bytes.now ≡ Some (view value)) }
    ensures fault { IfErr result (λ fault.
        ((fault ≡ TypeFault.OutOfMemory) × (0 < length bytes.now))
        ⊎ ((fault ≡ TypeFault.BadValue) × (json_of bytes.now ≡ None))) }
{
    match Value::from_slice(alloc, bytes) {
        Ok(value) => Ok(value),
        Err(error) if error.is_memory() => Err(TypeFault::OutOfMemory),
        Err(_) => Err(TypeFault::BadValue),
    }
}

// Returns the room codes in an array's items. Fails with `BadValue` if an item is not a room code, and with
// `OutOfMemory` if an allocation fails.
fn room_codes(alloc: Global, items: &[Value]) -> Result<Vec<RoomCode>, TypeFault>
    ensures codes { IfOk result (λ codes. codes_in (items_view items.now) ≡ Some codes.items) }
    ensures fault { IfErr result (λ fault. (fault ≡ TypeFault.OutOfMemory)
        ⊎ ((fault ≡ TypeFault.BadValue) × (codes_in (items_view items.now) ≡ None))) }
{
    let mut codes = Vec::new(alloc);
    for item in items {
        let code = code_in(alloc, item)?;
        push_code(&mut codes, code)?;
    }
    Ok(codes)
}

fn push_code(codes: &mut Vec<RoomCode>, code: RoomCode) -> Result<(), OutOfMemory>
    ensures { OnOk result (codes.new.items ≡ codes.old.items ++ code ∷ []) }
{
    codes.push(code)?;
    Ok(())
}

// Returns the room code in a JSON value. Fails with `BadValue` if the value is not a string with a room code, and
// with `OutOfMemory` if an allocation fails.
fn code_in(alloc: Global, value: &Value) -> Result<RoomCode, TypeFault>
    ensures code { IfOk result (λ code. code_in (view value.now) ≡ Some code) }
    ensures fault { IfErr result (λ fault. (fault ≡ TypeFault.OutOfMemory)
        ⊎ ((fault ≡ TypeFault.BadValue) × (code_in (view value.now) ≡ None))) }
{
    match value.as_str() {
        Some(text) => RoomCode::read(alloc, text),
        None => Err(TypeFault::BadValue),
    }
}
