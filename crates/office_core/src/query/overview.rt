//! Answers the queries about the whole office: its rooms, its people, the round, its results and the moves.
ghost use Rattle.std.specs.Option.{option_copied};
ghost use Rattle.std.specs.Prelude.{IfOk, OnErr, false, length, map, ◌<◌, ◌≡◌};
ghost use Rattle.office_state.specs.Empty.{is_empty};
ghost use Rattle.office_core.specs.Query.Answer.{IsAnswered};
ghost use Rattle.office_core.specs.Query.Overview.{move_row, move_rows, order_row, person_row, result_rows, room_row};
ghost use Rattle.office_core.specs.Query.Overview.{state_of};
ghost use Rattle.office_core.specs.Query.{returned};

use crate::query::Query;
use crate::refusal::Refusal;
use crate::reply::{OrderRow, Reply};
use office_state::phases::{has_results, has_words};
use office_state::round::{round_people, word_of};
use office_state::{Moved, Office, Person, copy_found};
use room_types::rows::copy_optional;
use room_types::{
    Listing, Move, OutOfMemory, PersonId, PersonRow, ResultRow, RoomCode, RoomRow, State,
};
use std::alloc::Global;

/// Returns the rooms, sorted by code, each with its state and its tenant. Takes O(n log n) steps, where n is the
/// number of rooms and people together.
///
/// # Errors
///
/// `OutOfMemory` if an allocation fails. If there are no rooms, the call never fails.
#[tactic(auto, using(crate::proofs::reply_rows::Listings::no_rows, crate::proofs::reply_rows::Listings::some_rows))]
pub fn rooms(alloc: Global, office: &Office) -> Result<Reply, Refusal>
    ensures { IsAnswered (returned office.now Query.Rooms) result }
{
    if office.rooms.len() == 0 {
        return Ok(Reply::Rooms(Listing::new(Vec::new(alloc))));
    }
    let tenants = office.tenants(alloc)?;
    let mut rows = Vec::new(alloc);
    for (room, shut) in office.rooms.iter() {
        rows.push(room_row(room, *shut, tenants.get(room))?)?;
    }
    Ok(Reply::Rooms(Listing::new(rows)))
}

// Returns the row of a room with this tenant. Fails only if an allocation fails.
fn room_row(room: &RoomCode, shut: bool, tenant: Option<&PersonId>) -> Result<RoomRow, OutOfMemory>
    ensures room { IfOk result (λ row. row.room ≡ room.now) }
    ensures state { IfOk result (λ row. row.state ≡ state_of shut (option_copied tenant.entry)) }
    ensures tenant { IfOk result (λ row. row.tenant ≡ option_copied tenant.entry) }
{
    let tenant = copy_found(tenant)?;
    Ok(RoomRow {
        room: room.copy()?,
        state: state_of(shut, &tenant),
        tenant,
    })
}

// Returns `Shut` for a shut room, `Occupied` for a room with a tenant, and `Free` for any other room.
fn state_of(shut: bool, tenant: &Option<PersonId>) -> State
    ensures { result ≡ state_of shut tenant.now }
{
    if shut {
        State::Shut
    } else if tenant.is_some() {
        State::Occupied
    } else {
        State::Free
    }
}

/// Returns the people, sorted by identifier, without their keys.
///
/// # Errors
///
/// `OutOfMemory` if an allocation fails. If there are no people, the call never fails.
pub fn people(alloc: Global, office: &Office) -> Result<Reply, Refusal>
    ensures { IsAnswered (returned office.now Query.People) result }
{
    let mut rows = Vec::new(alloc);
    for (id, person) in office.people.iter() {
        rows.push(person_row(id, person)?)?;
    }
    Ok(Reply::People(Listing::new(rows)))
}

// Returns the row of a person. Fails only if an allocation fails.
fn person_row(id: &PersonId, person: &Person) -> Result<PersonRow, OutOfMemory>
    ensures { IfOk result (λ row. row ≡ person_row (id.now, person.now)) }
{
    Ok(PersonRow {
        person: id.copy()?,
        name: person.name.copy()?,
        home: copy_optional(&person.home)?,
    })
}

/// Returns the number of the latest round (0 before the first), the phase, and three counts: all people, those who have
/// withdrawn, and those who leave the college. Never fails; does not allocate.
pub fn round(office: &Office) -> Result<Reply, Refusal>
    ensures { result ≡ returned office.now Query.Round }
{
    Ok(Reply::Round {
        number: office.number,
        phase: office.phase,
        people: office.people.len(),
        withdrawn: office.withdrawn.len(),
        going: office.going.len(),
    })
}

/// Returns the participants in the drawn order, with their lottery numbers and grades.
///
/// # Errors
///
/// `BadPhase` unless lottery numbers are drawn. Otherwise, `OutOfMemory` if an allocation fails. If there are no
/// participants, the call never returns `OutOfMemory`.
#[tactic(auto, using(crate::proofs::reply_rows::Listings::some_ordered))]
pub fn order(alloc: Global, office: &Office) -> Result<Reply, Refusal>
    ensures { IsAnswered (returned office.now Query.Order) result }
{
    if !has_words(office.phase) {
        return Err(Refusal::BadPhase(office.phase));
    }
    let people = round_people(alloc, office)?;
    let rows = order_rows(alloc, office, people.as_slice())?;
    Ok(Reply::Order(Listing::new(rows)))
}

// Returns a row for each of these people.
fn order_rows(
    alloc: Global,
    office: &Office,
    people: &[PersonId],
) -> Result<Vec<OrderRow>, OutOfMemory>
    ensures rows { IfOk result (λ rows. rows.items ≡ map (order_row office.now) people.now) }
    ensures memory { OnErr result (0 < length people.now) }
{
    let mut rows = Vec::new(alloc);
    for person in people {
        rows.push(OrderRow {
            word: word_of(office, person),
            person: person.copy()?,
            grade: office.recorded_grade(person),
        })?;
    }
    Ok(rows)
}

/// Returns the result of each participant, sorted by the person's identifier.
///
/// # Errors
///
/// `BadPhase` unless the round has run. Otherwise, `OutOfMemory` if an allocation fails. If there are no results, the
/// call does not allocate.
pub fn results(alloc: Global, office: &Office) -> Result<Reply, Refusal>
    ensures { IsAnswered (returned office.now Query.Results) result }
{
    if !has_results(office.phase) {
        return Err(Refusal::BadPhase(office.phase));
    }
    let rows = result_rows(alloc, office)?;
    Ok(Reply::Results(Listing::new(rows)))
}

// Returns a row for each result.
fn result_rows(alloc: Global, office: &Office) -> Result<Vec<ResultRow>, OutOfMemory>
    ensures rows { IfOk result (λ rows. rows.items ≡ result_rows office.now) }
    ensures memory { OnErr result (is_empty (result_rows office.now) ≡ false) }
{
    let mut rows = Vec::new(alloc);
    for (id, given) in office.results.iter() {
        rows.push(ResultRow {
            person: id.copy()?,
            room: copy_optional(&given.room)?,
        })?;
    }
    Ok(rows)
}

/// Returns the moves of this round, sorted by the person's identifier. A cancelled round has no moves.
///
/// # Errors
///
/// `NoSuchRound` unless the round is settled or cancelled. Otherwise, `OutOfMemory` if an allocation fails. If there
/// are no moves, the call never returns `OutOfMemory`.
pub fn moves(alloc: Global, office: &Office, round: u16) -> Result<Reply, Refusal>
    ensures { IsAnswered (returned office.now (Query.Moves round)) result }
{
    if !office.is_over(round) {
        return Err(Refusal::NoSuchRound);
    }
    let rows = move_rows(alloc, office, round)?;
    Ok(Reply::Moves(Listing::new(rows)))
}

// Returns a row for each move of the round.
fn move_rows(alloc: Global, office: &Office, round: u16) -> Result<Vec<Move>, OutOfMemory>
    ensures rows { IfOk result (λ rows. rows.items ≡ move_rows office.now round) }
    ensures memory { OnErr result (is_empty (move_rows office.now round) ≡ false) }
{
    let mut rows = Vec::new(alloc);
    let Some(moves) = office.moves.get(round) else {
        return Ok(rows);
    };
    for (id, moved) in moves.by_person.iter() {
        rows.push(move_row(round, id, moved)?)?;
    }
    Ok(rows)
}

// Returns the row of a move. Fails only if an allocation fails.
fn move_row(round: u16, id: &PersonId, moved: &Moved) -> Result<Move, OutOfMemory>
    ensures { IfOk result (λ row. row ≡ move_row round (id.now, moved.now)) }
{
    Ok(Move {
        round,
        person: id.copy()?,
        from: copy_optional(&moved.from)?,
        to: copy_optional(&moved.to)?,
        wave: moved.wave,
    })
}
