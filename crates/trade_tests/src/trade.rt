//! Tests of what no contract states about the trade: calls succeed, and the definitions give the expected values at
//! worked examples.
mod compared;
mod faults;
mod groups;
mod large;
mod lines;
mod literature;
mod worked;

use std::alloc::Global;
use trade_line::{Bench, Line, OutOfMemory, Outcome, Problem, TradeFault, run};

fn problem_of(
    alloc: Global,
    rooms: usize,
    homes: &[Option<usize>],
    lists: &[&[usize]],
) -> Result<Problem, TradeFault> {
    let mut recorded = Vec::new(alloc);
    for list in lists {
        recorded.push(Vec::from_slice(alloc, list)?)?;
    }
    Problem::new(
        alloc,
        homes.len(),
        rooms,
        Vec::from_slice(alloc, homes)?,
        recorded,
    )
}

fn outcome_over<L: Line>(alloc: Global, problem: &Problem) -> Result<Outcome, OutOfMemory> {
    let line = L::whole(alloc, problem.people())?;
    let bench = Bench::new(alloc, problem)?;
    Ok(run(problem, line, bench))
}

fn rooms_of(
    alloc: Global,
    problem: &Problem,
    outcome: &Outcome,
) -> Result<Vec<Option<usize>>, OutOfMemory> {
    let mut rooms = Vec::new(alloc);
    for person in 0..problem.people() {
        rooms.push(outcome.room_of(person))?;
    }
    Ok(rooms)
}
