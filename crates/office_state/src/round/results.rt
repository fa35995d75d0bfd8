//! The results of a round.
ghost use Rattle.std.specs.Prelude.{◌≡◌, ◌≢◌, IfOk, Some, None, ℕ, List, slice_get, slice_index_or};
ghost use Rattle.std.specs.Option.{option_map, option_and_then};
ghost use Rattle.std.specs.List.{AllPairs};
ghost use Rattle.std.specs.FinMap as map;
ghost use Rattle.trade_line.specs.TopTradingCycles.{ttc};
ghost use Rattle.office_state.specs.Office.Invariants.{HomesDiffer};
ghost use Rattle.office_state.specs.Round.{round_results, number_in};

use crate::office::{Assigned, Office};
use crate::round::problem::round_problem;
use room_types::grammars::PersonIds;
use room_types::{OutOfMemory, PersonId, RoomCode, Table};
use std::alloc::Global;
use trade_line::bench::Bench;
use trade_line::line::Line;
use trade_line::linked_line::LinkedLine;
use trade_line::outcome::Outcome;
use trade_line::problem::Problem;
use trade_line::trade::run;

/// Runs top trading cycles on the problem of the office's round, and returns the result of each participant
/// (Abdulkadiroglu and Sönmez 1999). The functions of `round::laws` state the properties of these results in a lawful
/// office.
///
/// # Errors
///
/// `OutOfMemory` if an allocation fails.
pub fn round_results(
    alloc: Global,
    office: &Office,
) -> Result<Table<PersonIds, Assigned>, OutOfMemory>
    requires { HomesDiffer office.now }
    ensures results { IfOk result (λ results. results ≡ round_results office.now) }
{
    let round = round_problem(alloc, office)?;
    let outcome = outcome_of(alloc, &round.problem)?;
    results_by_person(alloc, &round.people, &round.rooms, &outcome)
}

// Runs top trading cycles on the problem.
fn outcome_of(alloc: Global, problem: &Problem) -> Result<Outcome, OutOfMemory>
    ensures { IfOk result (λ outcome. outcome.rooms ≡ ttc problem.now) }
{
    let Ok(line) = LinkedLine::whole(alloc, problem.people()) else {
        return Err(OutOfMemory {});
    };
    let Ok(bench) = Bench::new(alloc, problem) else {
        return Err(OutOfMemory {});
    };
    Ok(run(problem, line, bench))
}

// Returns a map from each person to their result: the room whose number `outcome` gives them, or no room.
fn results_by_person(
    alloc: Global,
    people: &[PersonId],
    rooms: &[RoomCode],
    outcome: &Outcome,
) -> Result<Table<PersonIds, Assigned>, OutOfMemory>
    requires { AllPairs ◌≢◌ people.now }
    ensures { IfOk result (λ results. (person : List ℕ) → map.get results person ≡
        option_map (λ number. record {
          room = option_and_then (slice_get rooms.now)
              (slice_index_or outcome.now.rooms number None);
        }) (number_in people.now person)) }
{
    let mut results = Table::new(alloc);
    for (number, person) in people.iter().enumerate() {
        let room = room_named(rooms, outcome.room_of(number))?;
        results.insert(person.copy()?, Assigned { room })?;
    }
    Ok(results)
}

/// Returns a copy of the room with this number. Returns `None` if `number` is `None`, or if no room has the number.
pub(crate) fn room_named(
    rooms: &[RoomCode],
    number: Option<usize>,
) -> Result<Option<RoomCode>, OutOfMemory>
    ensures { IfOk result (λ room. room ≡ option_and_then (slice_get rooms.now) number) }
{
    let Some(number) = number else {
        return Ok(None);
    };
    match rooms.get(number) {
        Some(room) => Ok(Some(room.copy()?)),
        None => Ok(None),
    }
}
