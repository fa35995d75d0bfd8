//! A slow and simple program for top trading cycles, in simultaneous steps as in the definition. Tests compare `run`
//! with this program.
ghost use Rattle.std.specs.Prelude.{◌≡◌, ◌<◌, IfOk, OnErr, Some, None, length, replicate, true, false};
ghost use Rattle.trade_line.specs.TopTradingCycles.{wish, first, successor, remaining_count, is_on_cycle, step, ttc};
ghost use Rattle.trade_line.specs.Inner.Plain.{remains, AreMarks, Gives};

use crate::out_of_memory::OutOfMemory;
use crate::problem::Problem;
use crate::reading::read_on;
use std::alloc::Global;

// Which people and which rooms remain.
#[derive(Drop)]
struct Remaining {
    people: Vec<bool>,
    rooms: Vec<bool>,
}

// Returns the best remaining room on the person's list, or else the person's floor: their home, or `None` for a
// newcomer.
fn wish(problem: &Problem, stage: &Remaining, person: usize) -> Option<usize>
    requires marks { AreMarks problem.now stage.now }
    requires person { person < problem.now.people }
    ensures { result ≡ wish problem.now (remains stage.now) person }
{
    match read_on(problem.list(person), 0, &stage.rooms).room {
        Some(room) => Some(room),
        None => problem.home_of(person),
    }
}

// Returns the first remaining person in priority order, or 0 if nobody remains.
fn first(problem: &Problem, stage: &Remaining) -> usize
    requires { AreMarks problem.now stage.now }
    ensures { result ≡ first problem.now (remains stage.now) }
{
    for person in 0..problem.people() {
        if stage.people[person] {
            return person;
        }
    }
    0
}

// Returns the person to whom the wish of `person` points. A wish for a room points to the tenant if the tenant
// remains, and to the first remaining person otherwise. A wish for no room points to `person`.
fn successor(problem: &Problem, stage: &Remaining, person: usize) -> usize
    requires marks { AreMarks problem.now stage.now }
    requires remains { (remains stage.now).people person ≡ true }
    ensures successor { result ≡ successor problem.now (remains stage.now) person }
    ensures remains { (remains stage.now).people result ≡ true }
{
    match wish(problem, stage, person) {
        None => person,
        Some(room) => match problem.tenant_of(room) {
            Some(tenant) if stage.people[tenant] => tenant,
            _ => first(problem, stage),
        },
    }
}

// Counts the people who remain.
fn count(problem: &Problem, stage: &Remaining) -> usize
    requires { AreMarks problem.now stage.now }
    ensures { result ≡ remaining_count problem.now (remains stage.now) }
{
    let mut count = 0;
    for person in 0..problem.people() {
        if stage.people[person] {
            count += 1;
        }
    }
    count
}

// Returns whether the person remains and is on a cycle, that is, whether the wishes lead from the person back to
// them.
fn is_on_cycle(problem: &Problem, stage: &Remaining, person: usize) -> bool
    requires marks { AreMarks problem.now stage.now }
    requires person { person < problem.now.people }
    ensures { result ≡ is_on_cycle problem.now (remains stage.now) person }
{
    if !stage.people[person] {
        return false;
    }
    let mut at = person;
    for turn in 0..count(problem, stage) {
        at = successor(problem, stage, at);
        if at == person {
            return true;
        }
    }
    false
}

// Takes one step: everybody on a cycle gets what they wish for and leaves with it.
fn step(
    alloc: Global,
    problem: &Problem,
    stage: &Remaining,
    given: &mut Vec<Option<usize>>,
) -> Result<Remaining, OutOfMemory>
    requires marks { AreMarks problem.now stage.now }
    requires given { length given.old.items ≡ problem.now.people }
    ensures next { IfOk result (λ next. remains next ≡ step problem.now (remains stage.now)) }
    ensures marks { IfOk result (λ next. AreMarks problem.now next) }
    ensures gives { IfOk result
        (λ _. Gives problem.now (remains stage.now) given.old.items given.new.items) }
    ensures given { length given.new.items ≡ problem.now.people }
{
    let mut next = Remaining {
        people: Vec::from_slice(alloc, &stage.people)?,
        rooms: Vec::from_slice(alloc, &stage.rooms)?,
    };
    for person in 0..problem.people() {
        if is_on_cycle(problem, stage, person) {
            let room = wish(problem, stage, person);
            given[person] = room;
            next.people[person] = false;
            if let Some(taken) = room {
                next.rooms[taken] = false;
            }
        }
    }
    Ok(next)
}

// Returns the first stage, at which all people and all rooms remain.
fn everybody(alloc: Global, problem: &Problem) -> Result<Remaining, OutOfMemory>
    ensures people { IfOk result (λ stage. stage.people.items ≡ replicate problem.now.people true) }
    ensures rooms { IfOk result (λ stage. stage.rooms.items ≡ replicate problem.now.rooms true) }
{
    Ok(Remaining {
        people: vec![in alloc; true; problem.people()]?,
        rooms: vec![in alloc; true; problem.rooms()]?,
    })
}

// Returns a vector in which nobody has a room.
fn nothing(alloc: Global, problem: &Problem) -> Result<Vec<Option<usize>>, OutOfMemory>
    ensures { IfOk result (λ given. given.items ≡ replicate problem.now.people None) }
{
    Ok(vec![in alloc; None; problem.people()]?)
}

/// Returns the room of each person, in priority order, by top trading cycles in simultaneous steps (Shapley and Scarf
/// 1974; Abdulkadiroglu and Sönmez 1999). Takes as many steps as there are people. Each step finds for everybody
/// whether they are on a cycle. `run` gives the same rooms faster. Does not allocate if there are no people.
///
/// # Errors
///
/// `OutOfMemory` if an allocation fails.
pub fn top_trading_cycles(
    alloc: Global,
    problem: &Problem,
) -> Result<Vec<Option<usize>>, OutOfMemory>
    ensures rooms { IfOk result (λ rooms. rooms.items ≡ ttc problem.now) }
    ensures memory { OnErr result (0 < problem.now.people) }
{
    if problem.people() == 0 {
        return Ok(Vec::new(alloc));
    }
    let mut stage = everybody(alloc, problem)?;
    let mut given = nothing(alloc, problem)?;
    for turn in 0..problem.people() {
        let next = step(alloc, problem, &stage, &mut given)?;
        stage = next;
    }
    Ok(given)
}
