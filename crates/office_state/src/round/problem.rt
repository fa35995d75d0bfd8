//! Builds the trading problem of the round.
ghost use Rattle.std.specs.Prelude.{◌≡◌, IfOk, OnOk};
ghost use Rattle.trade_line.specs.Market.{IsMarket};
ghost use Rattle.office_state.specs.Office.Invariants.{HomesDiffer};
ghost use Rattle.office_state.specs.Round.{round_market};
ghost use Rattle.office_state.specs.Inner.RoundProblem.{IsProblemOf};

use crate::office::Office;
use crate::round::lists::{homes, lists};
use crate::round::names::numbers;
use crate::round::people::round_people;
use crate::round::rooms::round_rooms;
use room_types::grammars::RoomCodes;
use room_types::{OutOfMemory, PersonId, RoomCode, Table};
use std::alloc::Global;
use trade_line::fault::TradeFault;
use trade_line::problem::Problem;

/// The trading problem of a round. The problem refers to people and rooms by number: the index in `people` or
/// `rooms`.
#[derive(Drop)]
pub(crate) struct RoundProblem {
    /// The participants in the drawn order.
    pub(crate) people: Vec<PersonId>,
    /// The rooms of the round, in order of code.
    pub(crate) rooms: Vec<RoomCode>,
    /// The number of each room: its index in `rooms`.
    pub(crate) numbers: Table<RoomCodes, usize>,
    pub(crate) problem: Problem,
}

/// Builds the problem of the office's round. The problem is well formed because no two people have the same home.
/// Takes n log n steps, where n counts people, rooms and list entries.
///
/// # Errors
///
/// `OutOfMemory` if an allocation fails.
pub(crate) fn round_problem(alloc: Global, office: &Office) -> Result<RoundProblem, OutOfMemory>
    requires { HomesDiffer office.now }
    ensures problem { IfOk result (λ round. IsProblemOf office.now round) }
    ensures well_formed { OnOk result (IsMarket (round_market office.now)) }
{
    let people = round_people(alloc, office)?;
    let rooms = round_rooms(alloc, office)?;
    let numbers = numbers(alloc, &rooms)?;
    let homes = homes(alloc, office, &people, &numbers)?;
    let lists = lists(alloc, office, &people, &numbers)?;
    match Problem::new(alloc, people.len(), rooms.len(), homes, lists) {
        Ok(problem) => Ok(RoundProblem {
            people,
            rooms,
            numbers,
            problem,
        }),
        Err(fault) => Err(out_of_memory(fault)),
    }
}

/// Converts the fault `OutOfMemory` to the error of the same name. The caller must not pass any other fault; a
/// well-formed problem or list causes none.
pub(crate) fn out_of_memory(fault: TradeFault) -> OutOfMemory
    requires { fault ≡ TradeFault.OutOfMemory }
{
    match fault {
        TradeFault::OutOfMemory => OutOfMemory {},
        TradeFault::BadIndex
        | TradeFault::HomeShared
        | TradeFault::ListRepeats
        | TradeFault::OwnRoomListed => unreachable!(),
    }
}
