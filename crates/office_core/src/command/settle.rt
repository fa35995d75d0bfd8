//! Settles the round: participants move, those who leave the college move out, and the moves are recorded.
ghost use Rattle.std.specs.Prelude.{◌≡◌, ◌++◌, length, IsTrue, IfOk, OnOk, map as map_list};
ghost use Rattle.room_types.specs.declared.moves.Move.{Move};
ghost use Rattle.office_state.specs.Office.Invariants.{IsLawful};
ghost use Rattle.office_state.specs.Office.Phases.{is_published};
ghost use Rattle.office_state.specs.Round.Settlement.{moves_with, settled_moves};
ghost use Rattle.office_core.specs.Command.Changes.{arriving, departures, first_out, leaving, swaps};
ghost use Rattle.office_core.specs.Command.Decision.{Decides};

use crate::command::Command;
use crate::command::decision::Decision;
use crate::refusal::Refusal;
use crate::reply::Reply;
use office_lists::{Relocation, in_moving_order, waves};
use office_state::phases::is_published;
use office_state::round::relocations;
use office_state::{Change, Office};
use room_types::rows::copy_optional;
use room_types::{Move, OutOfMemory, Phase, Wave};
use std::alloc::Global;

/// Decides to settle the round. The changes of the decision come in this order:
///
/// 1. Each person who leaves the college moves out of the old room.
/// 2. Each person who swaps moves out of the old room.
/// 3. Each person who moves gets the new room as home, in the order of the waves, with swaps last. A person who
///    leaves the college has no new room and so gets no home.
/// 4. The moves are recorded.
/// 5. The round ends.
///
/// So the changes set the home of each person who moves once, or twice if the person leaves the college or swaps.
///
/// # Errors
///
/// `BadPhase` unless the phase is `Published`; `OutOfMemory` if an allocation fails.
#[tactic(auto, using(crate::proofs::commands::Changes::has_last))]
pub fn settle(alloc: Global, office: &Office) -> Result<Decision, Refusal>
    requires { IsLawful office.now }
    ensures { Decides office.now Command.Settle result }
{
    if !is_published(office.phase) {
        return Err(Refusal::BadPhase(office.phase));
    }
    let moves = settled_moves(alloc, office)?;
    let moves = moves.as_slice();
    let mut changes = Vec::new(alloc);
    push_first_out(&mut changes, moves)?;
    let in_order = in_moving_order(alloc, moves)?;
    push_arrivals(&mut changes, in_order.as_slice())?;
    push_records(&mut changes, moves)?;
    changes.push(Change::ClearRound)?;
    changes.push(Change::PutRound {
        number: office.number,
        phase: Phase::Idle,
    })?;
    Ok(Decision {
        reply: Reply::Settled { moves: moves.len() },
        changes,
    })
}

// Returns the moves of the round, each with its wave.
fn settled_moves(alloc: Global, office: &Office) -> Result<Vec<Move>, OutOfMemory>
    requires lawful { IsLawful office.now }
    requires published { IsTrue (is_published office.now.phase) }
    ensures { IfOk result (λ moves. moves.items ≡ settled_moves office.now) }
{
    let relocations = relocations(alloc, office)?;
    let waves = waves(alloc, relocations.as_slice())?;
    moves_with(
        alloc,
        office.number,
        relocations.as_slice(),
        waves.as_slice(),
    )
}

// Returns one move of this round for each relocation, with the wave at the same position.
#[tactic(auto, using(crate::proofs::settlements::Recorded::moves_with_more))]
fn moves_with(
    alloc: Global,
    round: u16,
    relocations: &[Relocation],
    waves: &[Wave],
) -> Result<Vec<Move>, OutOfMemory>
    requires { length waves.now ≡ length relocations.now }
    ensures { IfOk result (λ moves. moves.items ≡ moves_with round relocations.now waves.now) }
{
    let mut moves = Vec::new(alloc);
    for (i, relocation) in relocations.iter().enumerate() {
        moves.push(move_of(round, relocation, waves[i])?)?;
    }
    Ok(moves)
}

// Returns the move of a relocation in this wave. Fails only if an allocation fails.
fn move_of(round: u16, relocation: &Relocation, wave: Wave) -> Result<Move, OutOfMemory>
    ensures { IfOk result (λ moved. moved ≡ record {
      round = round;
      person = relocation.now.0;
      from = relocation.now.1;
      to = relocation.now.2;
      wave = wave;
    }) }
{
    Ok(Move {
        round,
        person: relocation.0.copy()?,
        from: copy_optional(&relocation.1)?,
        to: copy_optional(&relocation.2)?,
        wave,
    })
}

// Appends the changes by which people leave their old rooms before anybody arrives. Those who move into no room come
// first, then those who swap.
fn push_first_out(changes: &mut Vec<Change>, moves: &[Move]) -> Result<(), OutOfMemory>
    ensures { OnOk result (changes.new.items ≡ changes.old.items
        ++ map_list leaving (first_out moves.now)) }
{
    push_departures(changes, moves)?;
    push_swaps(changes, moves)
}

// Appends, for each person who moves into no room, a change by which that person leaves the old room.
#[tactic(auto, using(crate::proofs::settlements::Recorded::departures_more))]
fn push_departures(changes: &mut Vec<Change>, moves: &[Move]) -> Result<(), OutOfMemory>
    ensures { OnOk result (changes.new.items ≡ changes.old.items
        ++ map_list leaving (departures moves.now)) }
{
    for moved in moves {
        if moved.to.is_none() {
            let person = moved.person.copy()?;
            changes.push(Change::PutHome { person, home: None })?;
        }
    }
    Ok(())
}

// Appends, for each person who swaps, a change by which that person leaves the old room.
#[tactic(auto, using(crate::proofs::settlements::Recorded::swaps_more))]
fn push_swaps(changes: &mut Vec<Change>, moves: &[Move]) -> Result<(), OutOfMemory>
    ensures { OnOk result (changes.new.items ≡ changes.old.items
        ++ map_list leaving (swaps moves.now)) }
{
    for moved in moves {
        if let Wave::Swap = moved.wave {
            let person = moved.person.copy()?;
            changes.push(Change::PutHome { person, home: None })?;
        }
    }
    Ok(())
}

// Appends, for each move in the given order, a change by which its person arrives in the new room.
fn push_arrivals(changes: &mut Vec<Change>, moves: &[&Move]) -> Result<(), OutOfMemory>
    ensures { OnOk result (changes.new.items ≡ changes.old.items
        ++ map_list arriving (map_list (λ moved. moved.now) moves.now)) }
{
    for moved in moves {
        let person = moved.person.copy()?;
        let home = copy_optional(&moved.to)?;
        changes.push(Change::PutHome { person, home })?;
    }
    Ok(())
}

// Appends, for each move, a change that records it.
fn push_records(changes: &mut Vec<Change>, moves: &[Move]) -> Result<(), OutOfMemory>
    ensures { OnOk result (changes.new.items ≡ changes.old.items
        ++ map_list (λ (move : Move). Change.AddMove move) moves.now) }
{
    for moved in moves {
        changes.push(Change::AddMove(moved.copy()?))?;
    }
    Ok(())
}
