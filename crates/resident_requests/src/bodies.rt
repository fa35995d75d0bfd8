//! The bodies of responses, in JSON. Each function fails only if an allocation fails.
ghost use Rattle.std.specs.Prelude.{◌≡◌, IfOk, false};
ghost use Rattle.serde_json.specs.Data.{string};
ghost use Rattle.serde_json.specs.View.{view};
ghost use Rattle.serde_json.specs.Written.{compact_text, has_float};
ghost use Rattle.resident_requests.specs.Bodies.{choices_data, room_data, rooms_data, standing_data};
ghost use Rattle.resident_requests.specs.Bodies.{text_array, text_or_null, withdrawn_data};

use office_core::Standing;
use room_types::{Listing, OutOfMemory, RoomCode, RoomRow};
use serde_json::{Value, json};
use std::alloc::{AllocError, Global};

/// Returns the JSON body of the response that confirms a recorded preference list: `{"choices":[..]}`.
///
/// # Errors
///
/// `OutOfMemory` if an allocation fails.
pub fn choices_body(alloc: Global, choices: &[RoomCode]) -> Result<Listing<u8>, OutOfMemory>
    ensures { IfOk result (λ body. body ≡ compact_text (choices_data choices.now)) }
{
    let value = choices_data(alloc, choices)?;
    written_json(alloc, &value)
}

/// Returns the JSON body of the response with a resident's own record.
///
/// # Errors
///
/// `OutOfMemory` if an allocation fails.
pub fn standing_body(alloc: Global, standing: &Standing) -> Result<Listing<u8>, OutOfMemory>
    ensures { IfOk result (λ body. body ≡ compact_text (standing_data standing.now)) }
{
    let value = standing_data(alloc, standing)?;
    written_json(alloc, &value)
}

/// Returns the JSON body of the response that lists the rooms: an array with the code and the state of each room, in
/// the order of `rows`.
///
/// # Errors
///
/// `OutOfMemory` if an allocation fails.
pub fn rooms_body(alloc: Global, rows: &[RoomRow]) -> Result<Listing<u8>, OutOfMemory>
    ensures { IfOk result (λ body. body ≡ compact_text (rooms_data rows.now)) }
{
    let value = rooms_data(alloc, rows)?;
    written_json(alloc, &value)
}

/// Returns the JSON body of the response that confirms a withdrawal: `{"withdrawn":true}`.
///
/// # Errors
///
/// `OutOfMemory` if an allocation fails.
pub fn withdrawn_body(alloc: Global) -> Result<Listing<u8>, OutOfMemory>
    ensures { IfOk result (λ body. body ≡ compact_text withdrawn_data) }
{
    let value = withdrawn_data(alloc)?;
    written_json(alloc, &value)
}

// Returns the compact JSON text of the value.
fn written_json(alloc: Global, value: &Value) -> Result<Listing<u8>, OutOfMemory>
    requires { has_float (view value.now) ≡ false }
    ensures { IfOk result (λ body. body ≡ compact_text (view value.now)) }
{
    let text = value.to_string(alloc)?;
    Ok(Listing::new(text.into_bytes()))
}

fn choices_data(alloc: Global, choices: &[RoomCode]) -> Result<Value, AllocError>
    ensures { IfOk result (λ value. view value ≡ choices_data choices.now) }
{
    let choices = text_array(alloc, choices)?;
    json!(in alloc; {"choices": choices})
}

fn standing_data(alloc: Global, standing: &Standing) -> Result<Value, AllocError>
    ensures { IfOk result (λ value. view value ≡ standing_data standing.now) }
{
    let choices = text_array(alloc, standing.choices.as_slice())?;
    let going = standing.going;
    let home = text_or_null(alloc, &standing.home)?;
    let name = standing.name.as_str();
    let person = standing.person.as_str();
    let phase = standing.phase.as_str();
    let result = text_or_null(alloc, &standing.result)?;
    let round = u64::from(standing.round);
    let shown = standing.shown;
    let withdrawn = standing.withdrawn;
    json!(in alloc; {
        "choices": choices,
        "going": going,
        "home": home,
        "name": name,
        "person": person,
        "phase": phase,
        "result": result,
        "round": round,
        "shown": shown,
        "withdrawn": withdrawn
    })
}

fn rooms_data(alloc: Global, rows: &[RoomRow]) -> Result<Value, AllocError>
    ensures { IfOk result (λ value. view value ≡ rooms_data rows.now) }
{
    let mut values = Vec::with_capacity(alloc, rows.len())?;
    for row in rows {
        values.push(room_data(alloc, row)?)?;
    }
    Ok(Value::Array(values))
}

fn room_data(alloc: Global, row: &RoomRow) -> Result<Value, AllocError>
    ensures { IfOk result (λ value. view value ≡ room_data row.now) }
{
    let room = row.room.as_str();
    let state = row.state.as_str();
    json!(in alloc; {"room": room, "state": state})
}

fn withdrawn_data(alloc: Global) -> Result<Value, AllocError>
    ensures { IfOk result (λ value. view value ≡ withdrawn_data) }
{
    json!(in alloc; {"withdrawn": true})
}

fn text_array(alloc: Global, codes: &[RoomCode]) -> Result<Value, AllocError>
    ensures { IfOk result (λ value. view value ≡ text_array codes.now) }
{
    let mut values = Vec::with_capacity(alloc, codes.len())?;
    for code in codes {
        values.push(text_value(alloc, code)?)?;
    }
    Ok(Value::Array(values))
}

fn text_or_null(alloc: Global, text: &Option<RoomCode>) -> Result<Value, AllocError>
    ensures { IfOk result (λ value. view value ≡ text_or_null text.now) }
{
    match text {
        Some(text) => text_value(alloc, text),
        None => Ok(Value::Null),
    }
}

fn text_value(alloc: Global, text: &RoomCode) -> Result<Value, AllocError>
    ensures { IfOk result (λ value. view value ≡ string text.now) }
{
    Ok(Value::String(String::from_str(alloc, text.as_str())?))
}
