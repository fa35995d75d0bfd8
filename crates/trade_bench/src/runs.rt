//! Runs the mechanism on one market and measures its time.
use std::alloc::Global;
use std::time::Instant;
use trade_line::bench::Bench;
use trade_line::line::Line;
use trade_line::linked_line::LinkedLine;
use trade_line::out_of_memory::OutOfMemory;
use trade_line::outcome::Outcome;
use trade_line::problem::Problem;
use trade_line::trade::run;

// The number of people times the number of runs in one measurement. The number of runs is this divided by the number
// of people, but at least one.
const PERSON_RUNS: usize = 50_000;

/// Runs the mechanism once. This includes allocating the line and the bench that it uses.
pub fn once(alloc: Global, problem: &Problem) -> Result<Outcome, OutOfMemory> {
    let line = LinkedLine::whole(alloc, problem.people())?;
    let bench = Bench::new(alloc, problem)?;
    Ok(run(problem, line, bench))
}

/// Returns a checksum of who got which room.
pub fn check(problem: &Problem, outcome: &Outcome) -> u64 {
    let mut sum: u64 = 0;
    for person in 0..problem.people() {
        let number = match outcome.room_of(person) {
            Some(room) => (room as u64).wrapping_add(1),
            None => 0,
        };
        sum = sum.wrapping_mul(31).wrapping_add(number);
    }
    sum
}

/// Measures the average time of a run in nanoseconds.
pub fn time(rt: &HostRuntime, problem: &Problem) -> anyhow::Result<u128> {
    let repeats = (PERSON_RUNS / problem.people().max(1)).max(1);
    let start = Instant::now(rt)?;
    for _ in 0..repeats {
        once(rt.alloc(), problem)?;
    }
    Ok(start.elapsed(rt)?.as_nanos() / repeats as u128)
}
