//! The mechanism "you request my house, I get your turn".
ghost use Rattle.std.specs.Prelude.{◌≡◌, ◌+◌, ◌≤◌, ◌<◌, ◌^◌, Some};
ghost use Rattle.std.specs.List.{range_with_len};
ghost use Rattle.trade_line.specs.Looks.{all_needed, all_listed};
ghost use Rattle.trade_line.specs.Size.{size_of};
ghost use Rattle.trade_line.specs.Market.{tenant_count};
ghost use Rattle.trade_line.specs.TopTradingCycles.{wish, ttc};
ghost use Rattle.trade_line.specs.Line.{front_of};
ghost use Rattle.trade_line.specs.Assignment.{IsAssignment, IsIndividuallyRational, IsEfficient, given_in};
ghost use Rattle.trade_line.specs.TradeApart.{HasNoBetterTradeApart};
ghost use Rattle.trade_line.specs.Inner.State.{state_of, stage_at};
ghost use Rattle.trade_line.specs.Inner.Turn.{IsConsistent, Asks, Onward};
ghost use Rattle.trade_line.specs.Inner.Loop.{Ring, Closed};
ghost use Rattle.trade_line.specs.Inner.Looks.{AreCursors, KeepsCursors, TurnReads};

use crate::bench::Bench;
use crate::line::Line;
use crate::outcome::Outcome;
use crate::problem::Problem;
use crate::progress::Progress;
use crate::reading::read_on;

// Closes a loop: the people from the front of the line up to `tenant` leave. The first of them gets `room`, the home
// of the last; each other one gets the home of the person before them in the line.
fn close_loop<L: Line>(
    problem: &Problem,
    tenant: usize,
    room: usize,
    line: &mut L,
    progress: &mut Progress,
)
    requires { Ring problem.now tenant room (state_of (L.people line.old) progress.old) }
    ensures { Closed problem.now tenant room (state_of (L.people line.old) progress.old)
        (state_of (L.people line.new) progress.new) }
{
    let mut next = Some(room);
    while let Some(person) = line.front() {
        progress.grant(person, next);
        line.drop_front();
        if person == tenant {
            break;
        }
        next = problem.home_of(person);
    }
}

// Serves the person at the front, who asks for `room`. If the tenant of the room still waits and has asked, closes a
// loop. If the tenant still waits and has not asked, moves the tenant to the front. Otherwise grants the room.
fn serve<L: Line>(
    problem: &Problem,
    person: usize,
    room: usize,
    line: &mut L,
    progress: &mut Progress,
)
    requires asks { Asks problem.now person (state_of (L.people line.old) progress.old) }
    requires wish { wish problem.now (stage_at (state_of (L.people line.old) progress.old)) person
        ≡ Some room }
    ensures onward { Onward problem.now (state_of (L.people line.old) progress.old)
        (state_of (L.people line.new) progress.new) }
    ensures keeps { KeepsCursors problem.now person room
        (state_of (L.people line.old) progress.old) (state_of (L.people line.new) progress.new) }
{
    match problem.tenant_of(room) {
        Some(tenant) if line.holds(tenant) => {
            if progress.asked[tenant] {
                close_loop(problem, tenant, room, line, progress);
            } else {
                progress.mark(tenant);
                line.bring_to_front(tenant);
            }
        }
        _ => {
            progress.grant(person, Some(room));
            line.drop_front();
        }
    }
}

// Carries out one turn of `person`, who is at the front, and returns the number of list entries that the turn reads.
// Moves the person's cursor to the entry that they ask for, or to the end of the list if no room on it remains.
fn turn<L: Line>(
    problem: &Problem,
    person: usize,
    line: &mut L,
    progress: &mut Progress,
    cursors: &mut Vec<usize>,
) -> usize
    requires front { front_of (L.people line.old) ≡ Some person }
    requires consistent { IsConsistent problem.now (state_of (L.people line.old) progress.old) }
    requires cursors { AreCursors problem.now (state_of (L.people line.old) progress.old)
        cursors.old.items }
    ensures onward { Onward problem.now (state_of (L.people line.old) progress.old)
        (state_of (L.people line.new) progress.new) }
    ensures reads { TurnReads problem.now
        (state_of (L.people line.old) progress.old) cursors.old.items
        (state_of (L.people line.new) progress.new) cursors.new.items result }
    ensures few { result < 2 ^ 63 }
{
    progress.mark(person);
    let found = read_on(problem.list(person), cursors[person], &progress.remaining);
    cursors[person] = found.place;
    match found.room {
        Some(room) => serve(problem, person, room, line, progress),
        None => {
            progress.grant(person, problem.home_of(person));
            line.drop_front();
        }
    }
    found.looks
}

/// Carries out the exchange by "you request my house, I get your turn" (Abdulkadiroglu and Sönmez 1999). Each person
/// gets what top trading cycles give them.
///
/// On each turn, the person at the front of the line asks for the best remaining room on their list. If no listed
/// room remains, they take their floor: their home, or nothing for a newcomer. If the tenant of the room still waits
/// and has not asked, the tenant moves to the front and asks first. If the tenant still waits and has asked, the
/// people from the front up to the tenant form a loop and leave: the first gets the home of the last, and each other
/// one gets the home of the person before them in the line. In all other cases the person gets the room, or the
/// floor, and leaves.
///
/// Each person has a cursor on their list, which never moves back. An ask reads on from the cursor, skips the rooms
/// that are gone, and leaves the cursor at the entry that the person asks for, or at the end of the list if no room
/// on it remains.
///
/// `line` must hold all people in priority order, and `bench` must be made for the problem's numbers of people and
/// rooms. A run does not allocate. Over a `LinkedLine`, a run takes time linear in its asks and looks. Over a
/// `VecLine`, the calls of the line add time quadratic in the number of people.
pub fn run<L: Line>(problem: &Problem, line: L, bench: Bench) -> Outcome
    requires line { L.people line ≡ range_with_len 0 problem.now.people }
    requires bench { bench ≡ size_of problem.now }
    ensures rooms { result.rooms ≡ ttc problem.now }
    ensures assignment { IsAssignment problem.now (given_in result.rooms) }
    ensures rational { IsIndividuallyRational problem.now (given_in result.rooms) }
    ensures efficient { IsEfficient problem.now (given_in result.rooms) }
    ensures apart { HasNoBetterTradeApart problem.now (given_in result.rooms) }
    ensures asks_least { problem.now.people ≤ result.asks }
    ensures asks_most { result.asks ≤ problem.now.people + tenant_count problem.now }
    ensures looks { result.looks + problem.now.people
        ≡ result.asks + all_needed problem.now (given_in result.rooms) }
    ensures looks_least { all_needed problem.now (given_in result.rooms) ≤ result.looks }
    ensures looks_most { result.looks ≤ result.asks + all_listed problem.now }
{
    // The proof needs this call: its contract states that the problem is well formed.
    let _people = problem.people();
    let mut line = line;
    let (progress, cursors) = bench.into_progress();
    let mut progress = progress;
    let mut cursors = cursors;
    let mut asks: u128 = 0;
    let mut looks: u128 = 0;
    while let Some(person) = line.front() {
        let read = turn(problem, person, &mut line, &mut progress, &mut cursors);
        asks += 1;
        looks += read as u128;
    }
    Outcome::new(progress.given, asks, looks)
}
