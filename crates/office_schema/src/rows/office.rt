//! Rebuilding an office from the rows of all its tables.
ghost use Rattle.std.specs.Prelude.{◌<◌, IfOk, OnErr};
ghost use Rattle.office_schema.specs.rows.Inner.BuildsOffice.{BuildsOffice};
ghost use Rattle.office_schema.specs.rows.ReadsOffice.{ReadsOffice, Allocates, count_outside_round};

use crate::rows::choices::read_choices;
use crate::rows::moves::read_moves;
use crate::rows::people::read_people;
use crate::rows::records::OfficeRecords;
use crate::rows::round::read_round;
use crate::rows::tables::{read_keys, read_table};
use office_state::{Office, sound};
use room_types::OutOfMemory;
use std::alloc::Global;

/// Rebuilds the lawful office whose rows, in tables of version `version`, are exactly `records`. The records of each
/// table may be in any order. Returns `None` if no lawful office has these rows. No two lawful offices have them.
///
/// Takes O(n log n) time for n records. If the phase of the office has results and the office satisfies every other
/// invariant, this function recomputes the results to check them. That takes the time of one run of the round. Fails
/// only if an allocation fails. If every table except `round` is empty, only recomputing the results allocates.
pub fn read_office(
    alloc: Global,
    records: OfficeRecords,
    version: u16,
) -> Result<Option<Office>, OutOfMemory>
    ensures reads { IfOk result (λ found. ReadsOffice version records found) }
    ensures memory { OnErr result (Allocates version records) }
{
    let Some(office) = build_office(alloc, records, version)? else {
        return Ok(None);
    };
    if !sound(alloc, &office)? {
        return Ok(None);
    }
    Ok(Some(office))
}

// Rebuilds an office that has these rows. The office may be unlawful. Returns `None` only if no lawful office has
// these rows.
#[tactic(auto, unfolding(crate::specs::rows::Tables::rows_at))]
fn build_office(
    alloc: Global,
    records: OfficeRecords,
    version: u16,
) -> Result<Option<Office>, OutOfMemory>
    ensures makes { IfOk result (λ made. BuildsOffice version records made) }
    ensures memory { OnErr result (0 < count_outside_round records) }
{
    let Some(rooms) = read_table(alloc, records.rooms)? else {
        return Ok(None);
    };
    let Some(people) = read_people(alloc, records.people)? else {
        return Ok(None);
    };
    let Some(round) = read_round(records.rounds.as_slice(), version) else {
        return Ok(None);
    };
    let Some(choices) = read_choices(alloc, records.choices)? else {
        return Ok(None);
    };
    let Some(words) = read_table(alloc, records.words)? else {
        return Ok(None);
    };
    let Some(results) = read_table(alloc, records.results)? else {
        return Ok(None);
    };
    let Some(moves) = read_moves(alloc, records.moves)? else {
        return Ok(None);
    };
    let Some(lists) = read_table(alloc, records.lists)? else {
        return Ok(None);
    };
    let Some(grades) = read_table(alloc, records.grades)? else {
        return Ok(None);
    };
    let Some(going) = read_keys(alloc, records.going)? else {
        return Ok(None);
    };
    Ok(Some(Office {
        rooms,
        people: people.people,
        choices,
        withdrawn: people.withdrawn,
        words,
        results,
        moves,
        lists,
        grades,
        going,
        number: round.number,
        phase: round.phase,
    }))
}
