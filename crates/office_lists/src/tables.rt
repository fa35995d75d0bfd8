//! Formats rooms, people and results as text tables.
ghost use Rattle.std.specs.Prelude.{◌≡◌, ◌++◌, [], ◌∷◌, IfOk, OnOk, string_bytes};
ghost use Rattle.office_lists.specs.Tables.{line, or_none, rooms_table, people_table, results_table};

use room_types::text::{Grammar, Text};
use room_types::{OutOfMemory, PersonRow, ResultRow, RoomRow};
use std::alloc::{AllocError, Global};

/// Returns the text table of these rooms: a line of headings, and a line for each room, in the order of the rows.
pub fn rooms_text(alloc: Global, rows: &[RoomRow]) -> Result<String, OutOfMemory>
    ensures { IfOk result (λ text. string_bytes text ≡ rooms_table rows.now) }
{
    let mut text = String::new(alloc);
    push_room(&mut text, "room", "state", "tenant")?;
    for row in rows {
        push_room(
            &mut text,
            row.room.as_str(),
            row.state.as_str(),
            or_none(&row.tenant),
        )?;
    }
    Ok(text)
}

/// Returns the text table of these people: a line of headings, and a line for each person, in the order of the rows.
pub fn people_text(alloc: Global, rows: &[PersonRow]) -> Result<String, OutOfMemory>
    ensures { IfOk result (λ text. string_bytes text ≡ people_table rows.now) }
{
    let mut text = String::new(alloc);
    push_person(&mut text, "person", "home", "name")?;
    for row in rows {
        push_person(
            &mut text,
            row.person.as_str(),
            or_none(&row.home),
            row.name.as_str(),
        )?;
    }
    Ok(text)
}

/// Returns the text table of these results: a line of headings, and a line for each result, in the order of the rows.
pub fn results_text(alloc: Global, rows: &[ResultRow]) -> Result<String, OutOfMemory>
    ensures { IfOk result (λ text. string_bytes text ≡ results_table rows.now) }
{
    let mut text = String::new(alloc);
    push_result(&mut text, "person", "room")?;
    for row in rows {
        push_result(&mut text, row.person.as_str(), or_none(&row.room))?;
    }
    Ok(text)
}

fn push_room(text: &mut String, room: &str, state: &str, tenant: &str) -> Result<(), AllocError>
    ensures { OnOk result (string_bytes text.new
        ≡ string_bytes text.old ++ line (8 ∷ 8 ∷ []) (room.now ∷ state.now ∷ tenant.now ∷ [])) }
{
    writeln!(text, "{room:<8}  {state:<8}  {tenant}")
}

fn push_person(text: &mut String, person: &str, home: &str, name: &str) -> Result<(), AllocError>
    ensures { OnOk result (string_bytes text.new
        ≡ string_bytes text.old ++ line (12 ∷ 8 ∷ []) (person.now ∷ home.now ∷ name.now ∷ [])) }
{
    writeln!(text, "{person:<12}  {home:<8}  {name}")
}

fn push_result(text: &mut String, person: &str, room: &str) -> Result<(), AllocError>
    ensures { OnOk result (string_bytes text.new
        ≡ string_bytes text.old ++ line (12 ∷ []) (person.now ∷ room.now ∷ [])) }
{
    writeln!(text, "{person:<12}  {room}")
}

/// Returns the text, or the word `none` if there is no text.
pub fn or_none<G: Grammar>(text: &Option<Text<G>>) -> &str
    ensures { result.now ≡ or_none text.now }
{
    match text {
        Some(text) => text.as_str(),
        None => "none",
    }
}
