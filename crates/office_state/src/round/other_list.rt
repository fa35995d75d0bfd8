//! What a participant would get with another list.
ghost use Rattle.std.specs.Prelude.{◌≡◌, ◌≤◌, IfOk, true};
ghost use Rattle.office_state.specs.Office.Invariants.{HomesDiffer};
ghost use Rattle.office_state.specs.Round.{is_participant, number_in, result_of, result_by, round_rank};

use crate::office::Office;
use crate::round::lists::numbers_of;
use crate::round::problem::{out_of_memory, round_problem};
use crate::round::results::room_named;
use room_types::{Choices, OutOfMemory, PersonId, RoomCode};
use std::alloc::Global;
use trade_line::what_if::run_with_list;

/// Returns the room that a participant would get with `choices` in place of their recorded list, or `None` if they
/// would get no room. The drawn order and the lists of all others stay the same. By their recorded list, the
/// participant ranks what the round gives them at least as high as the returned result.
///
/// # Errors
///
/// `OutOfMemory` if an allocation fails.
pub fn result_by(
    alloc: Global,
    office: &Office,
    person: &PersonId,
    choices: &Choices,
) -> Result<Option<RoomCode>, OutOfMemory>
    requires homes_differ { HomesDiffer office.now }
    requires participant { is_participant office.now person.now ≡ true }
    ensures room { IfOk result (λ room. room ≡ result_by office.now person.now choices.now) }
    ensures no_gain { IfOk result (λ room.
        round_rank office.now person.now (result_of office.now person.now)
        ≤ round_rank office.now person.now room) }
{
    let round = round_problem(alloc, office)?;
    let Some(number) = number_in(&round.people, person) else {
        unreachable!()
    };
    let list = numbers_of(
        alloc,
        &round.numbers,
        office.home_of(person),
        choices.as_slice(),
    )?;
    match run_with_list(alloc, &round.problem, number, list) {
        Ok(room) => room_named(&round.rooms, room),
        Err(fault) => Err(out_of_memory(fault)),
    }
}

fn number_in(people: &[PersonId], person: &PersonId) -> Option<usize>
    ensures { result ≡ number_in people.now person.now }
{
    people.iter().position(|other| other == person)
}
