//! Tests the invariants on rooms and people.
ghost use Rattle.std.specs.Prelude.{◌≡◌, ◌<◌, IfOk, OnErr, Some, length};
ghost use Rattle.std.specs.Bool.{Decides};
ghost use Rattle.std.specs.List.{list_all};
ghost use Rattle.std.specs.FinMap as map;
ghost use Rattle.office_state.specs.Office.Invariants.{IsValidRegister};
ghost use Rattle.office_state.specs.Inner.Soundness.{differ_from, is_home_open};
ghost use Rattle.office_state.specs.Soundness.{ComparesKeys};

use crate::office::Office;
use crate::office::limits::{PEOPLE_LIMIT, ROOM_LIMIT};
use crate::office::person::Person;
use room_types::grammars::{Keys, RoomCodes};
use room_types::{OutOfMemory, Table};
use std::alloc::Global;

/// Returns whether the invariants on rooms and people hold: there are at most `ROOM_LIMIT` rooms and `PEOPLE_LIMIT`
/// people, each home is a known room that is not shut, and no two people have the same key or the same home. Takes n
/// log n steps for n rooms and people.
pub(crate) fn is_valid_register(alloc: Global, office: &Office) -> Result<bool, OutOfMemory>
    ensures lawful { IfOk result
        (λ lawful. Decides lawful (IsValidRegister office.now.rooms office.now.people)) }
    ensures memory { OnErr result (ComparesKeys office.now.rooms office.now.people) }
{
    if office.rooms.len() > ROOM_LIMIT {
        return Ok(false);
    }
    if office.people.len() > PEOPLE_LIMIT {
        return Ok(false);
    }
    if !are_homes_open(office) {
        return Ok(false);
    }
    if !have_distinct_keys(alloc, office)? {
        return Ok(false);
    }
    have_distinct_homes(alloc, office)
}

// Returns whether each home is a known room that is not shut.
fn are_homes_open(office: &Office) -> bool
    ensures { result ≡
        list_all (λ e. is_home_open office.now.rooms e.1) (map.entries office.now.people) }
{
    office
        .people
        .iter()
        .all(|(_, person)| is_home_open(office, person))
}

fn is_home_open(office: &Office, person: &Person) -> bool
    ensures { result ≡ is_home_open office.now.rooms person.now }
{
    match &person.home {
        Some(home) => match office.rooms.get(home) {
            Some(shut) => !*shut,
            None => false,
        },
        None => true,
    }
}

// Returns whether no two people have the same key, in one pass.
fn have_distinct_keys(alloc: Global, office: &Office) -> Result<bool, OutOfMemory>
    ensures differ { IfOk result (λ differ. differ ≡
        differ_from (λ p. Some p.key) map.empty (map.entries office.now.people)) }
    ensures memory { OnErr result (0 < length (map.entries office.now.people)) }
{
    let mut seen: Table<Keys, ()> = Table::new(alloc);
    for (_, person) in office.people.iter() {
        if seen.contains_key(&person.key) {
            return Ok(false);
        }
        seen.insert(person.key.copy()?, ())?;
    }
    Ok(true)
}

// Returns whether no two people have the same home, in one pass.
fn have_distinct_homes(alloc: Global, office: &Office) -> Result<bool, OutOfMemory>
    ensures differ { IfOk result (λ differ. differ ≡
        differ_from (λ p. p.home) map.empty (map.entries office.now.people)) }
    ensures memory { OnErr result (0 < length (map.entries office.now.people)) }
{
    let mut seen: Table<RoomCodes, ()> = Table::new(alloc);
    for (_, person) in office.people.iter() {
        let Some(home) = &person.home else {
            continue;
        };
        if seen.contains_key(home) {
            return Ok(false);
        }
        seen.insert(home.copy()?, ())?;
    }
    Ok(true)
}
