//! Decides the commands that lead a round from phase to phase, and the one that cancels it. `settle.rt` settles it.
ghost use Rattle.std.specs.FinMap as map;
ghost use Rattle.std.specs.Prelude.{IfOk, length, map as map_list, ◌≡◌};
ghost use Rattle.office_state.specs.Office.Invariants.{IsLawful};
ghost use Rattle.office_core.specs.Command.Changes.{result_change, word_changes};
ghost use Rattle.office_core.specs.Command.Decision.{Decides};

use crate::command::Command;
use crate::command::decision::{Decision, decision_of_one, decision_of_two};
use crate::refusal::Refusal;
use crate::reply::Reply;
use office_state::phases::{has_run, is_closed, is_drawn, is_idle, is_open, may_cancel};
use office_state::round::round_results;
use office_state::{Assigned, Change, Office, ROUND_LIMIT};
use room_types::grammars::PersonIds;
use room_types::rows::copy_optional;
use room_types::{OutOfMemory, PersonId, Phase, Table, Word};
use std::alloc::Global;

/// Decides to begin the next round.
///
/// # Errors
///
/// The first of these that applies: `BadPhase` unless the phase is `Idle`; `LimitReached` if the latest round has the
/// number `ROUND_LIMIT`. `OutOfMemory` if an allocation fails.
pub fn open_round(alloc: Global, office: &Office) -> Result<Decision, Refusal>
    ensures { Decides office.now Command.OpenRound result }
{
    if !is_idle(office.phase) {
        return Err(Refusal::BadPhase(office.phase));
    }
    if office.number >= ROUND_LIMIT {
        return Err(Refusal::LimitReached);
    }
    let round = office.number + 1;
    let change = Change::PutRound {
        number: round,
        phase: Phase::Opened,
    };
    decision_of_one(alloc, Reply::Opened { round }, change)
}

/// Decides to make the lists final. The reply counts the participants.
///
/// # Errors
///
/// `BadPhase` unless the phase is `Opened`; `OutOfMemory` if an allocation fails.
pub fn close_round(alloc: Global, office: &Office) -> Result<Decision, Refusal>
    ensures { Decides office.now Command.CloseRound result }
{
    if !is_open(office.phase) {
        return Err(Refusal::BadPhase(office.phase));
    }
    let participants = office.participant_count();
    let change = Change::PutRound {
        number: office.number,
        phase: Phase::Closed,
    };
    decision_of_one(alloc, Reply::Closed { participants }, change)
}

/// Decides to give each participant a lottery number: the participants, sorted by identifier, get the words in order.
///
/// # Errors
///
/// The first of these that applies: `BadPhase` unless the phase is `Closed`; `WrongWordCount` unless there is exactly
/// one word for each participant. `OutOfMemory` if an allocation fails.
#[tactic(auto, using(crate::proofs::commands::Changes::has_last))]
pub fn draw(alloc: Global, office: &Office, words: &[Word]) -> Result<Decision, Refusal>
    ensures { Decides office.now (Command.Draw words.now) result }
{
    if !is_closed(office.phase) {
        return Err(Refusal::BadPhase(office.phase));
    }
    let want = office.participant_count();
    let got = words.len();
    if got != want {
        return Err(Refusal::WrongWordCount { want, got });
    }
    let people = office.participants(alloc)?;
    let mut changes = word_changes(alloc, people.as_slice(), words)?;
    changes.push(Change::PutRound {
        number: office.number,
        phase: Phase::Drawn,
    })?;
    Ok(Decision {
        reply: Reply::Drawn { participants: want },
        changes,
    })
}

// Returns, for each person, a change that gives the person the word at the same position.
#[tactic(auto, using(crate::proofs::commands::Words::word_changes_more))]
fn word_changes(
    alloc: Global,
    people: &[PersonId],
    words: &[Word],
) -> Result<Vec<Change>, OutOfMemory>
    requires { length words.now ≡ length people.now }
    ensures { IfOk result (λ changes. changes.items ≡ word_changes people.now words.now) }
{
    let mut changes = Vec::new(alloc);
    for (i, person) in people.iter().enumerate() {
        changes.push(Change::PutWord {
            person: person.copy()?,
            word: words[i],
        })?;
    }
    Ok(changes)
}

/// Decides to run the exchange. Each participant's result is the room that top trading cycles assign to them in the
/// round's problem (Abdulkadiroglu and Sönmez 1999).
///
/// # Errors
///
/// `BadPhase` unless the phase is `Drawn`; `OutOfMemory` if an allocation fails.
#[tactic(auto, using(crate::proofs::commands::Changes::has_last))]
pub fn run(alloc: Global, office: &Office) -> Result<Decision, Refusal>
    requires { IsLawful office.now }
    ensures { Decides office.now Command.Run result }
{
    if !is_drawn(office.phase) {
        return Err(Refusal::BadPhase(office.phase));
    }
    let results = round_results(alloc, office)?;
    let participants = office.participant_count();
    let mut changes = result_changes(alloc, &results)?;
    changes.push(Change::PutRound {
        number: office.number,
        phase: Phase::Ran,
    })?;
    Ok(Decision {
        reply: Reply::Ran { participants },
        changes,
    })
}

// Returns, for each result, a change that records it.
fn result_changes(
    alloc: Global,
    results: &Table<PersonIds, Assigned>,
) -> Result<Vec<Change>, OutOfMemory>
    ensures { IfOk result (λ changes.
        changes.items ≡ map_list result_change (map.entries results.now)) }
{
    let mut changes = Vec::new(alloc);
    for (id, given) in results.iter() {
        changes.push(result_change(id, given)?)?;
    }
    Ok(changes)
}

// Returns the change that records a result. Fails only if an allocation fails.
fn result_change(person: &PersonId, given: &Assigned) -> Result<Change, OutOfMemory>
    ensures { IfOk result (λ change. change ≡ result_change (person.now, given.now)) }
{
    Ok(Change::PutResult {
        person: person.copy()?,
        room: copy_optional(&given.room)?,
    })
}

/// Decides to publish the results. Each participant may then see their own result.
///
/// # Errors
///
/// `BadPhase` unless the round has run and its results are not yet published; `OutOfMemory` if an allocation fails.
pub fn publish(alloc: Global, office: &Office) -> Result<Decision, Refusal>
    ensures { Decides office.now Command.Publish result }
{
    if !has_run(office.phase) {
        return Err(Refusal::BadPhase(office.phase));
    }
    let participants = office.participant_count();
    let change = Change::PutRound {
        number: office.number,
        phase: Phase::Published,
    };
    decision_of_one(alloc, Reply::Published { participants }, change)
}

/// Decides to cancel the round. No later round gets the cancelled round's number.
///
/// # Errors
///
/// `BadPhase` if no round is under way, or if its results are published; `OutOfMemory` if an allocation fails.
pub fn cancel(alloc: Global, office: &Office) -> Result<Decision, Refusal>
    ensures { Decides office.now Command.Cancel result }
{
    if !may_cancel(office.phase) {
        return Err(Refusal::BadPhase(office.phase));
    }
    let over = Change::PutRound {
        number: office.number,
        phase: Phase::Idle,
    };
    decision_of_two(alloc, Reply::Cancelled, Change::ClearRound, over)
}
