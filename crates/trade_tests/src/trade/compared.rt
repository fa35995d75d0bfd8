//! Compares the rooms that `run` gives over each of the two lines with the rooms that the plain program gives.
ghost use Rattle.std.specs.Prelude.{◌<◌};

use super::{outcome_over, problem_of, rooms_of};
use crate::asserting::assert_same;
use std::alloc::Global;
use std::test::Fail;
use trade_line::plain::top_trading_cycles;
use trade_line::{LinkedLine, Problem, TradeFault, VecLine};

// All lists of distinct rooms out of three rooms.
const LISTS: [&[usize]; 16] = [
    &[],
    &[0],
    &[1],
    &[0, 1],
    &[1, 0],
    &[2],
    &[0, 2],
    &[2, 0],
    &[1, 2],
    &[2, 1],
    &[0, 1, 2],
    &[0, 2, 1],
    &[1, 0, 2],
    &[1, 2, 0],
    &[2, 0, 1],
    &[2, 1, 0],
];

const HOMES: [Option<usize>; 4] = [None, Some(0), Some(1), Some(2)];

// The number of combinations of a home and a list for one person.
const CHOICES: usize = HOMES.len() * LISTS.len();

// The number of problems with at most three people and at most three rooms.
const SMALL_PROBLEMS: u64 = 25_148;

// How many problems with at most twelve people are drawn, and then how many with thirty people.
const DRAWN_PROBLEMS: usize = 10_000;

const DRAWN_LARGE_PROBLEMS: usize = 200;

// Whether runs over both lines give the rooms of the plain program, and both take the same numbers of asks and of
// looks.
fn agree(alloc: Global, problem: &Problem) -> Result<bool, TradeFault> {
    let outcome = outcome_over::<VecLine>(alloc, problem)?;
    let linked = outcome_over::<LinkedLine>(alloc, problem)?;
    let rooms = rooms_of(alloc, problem, &outcome)?;
    let plain = top_trading_cycles(alloc, problem)?;
    Ok(
        rooms.as_slice() == plain.as_slice()
            && rooms_of(alloc, problem, &linked)?.as_slice() == plain.as_slice()
            && linked.asks() == outcome.asks()
            && linked.looks() == outcome.looks(),
    )
}

// Returns the problem with this number. Each digit of the number, in base `CHOICES`, is the home and the list of one
// person.
fn numbered(
    alloc: Global,
    people: usize,
    rooms: usize,
    number: usize,
) -> Result<Problem, TradeFault> {
    let mut homes = Vec::new(alloc);
    let mut lists = Vec::new(alloc);
    let mut rest = number;
    for _ in 0..people {
        let choice = rest % CHOICES;
        rest /= CHOICES;
        homes.push(HOMES[choice % HOMES.len()])?;
        lists.push(Vec::from_slice(alloc, LISTS[choice / HOMES.len()])?)?;
    }
    Problem::new(alloc, people, rooms, homes, lists)
}

#[test]
fn agrees_on_every_problem_of_up_to_three_people_and_rooms(rt: HostRuntime) -> Result<(), Fail> {
    let alloc = rt.alloc();
    let mut problems: u64 = 0;
    for (people, numbers) in [1, CHOICES, CHOICES * CHOICES, CHOICES * CHOICES * CHOICES]
        .into_iter()
        .enumerate()
    {
        for rooms in 0..4 {
            for number in 0..numbers {
                if let Ok(problem) = numbered(alloc, people, rooms, number) {
                    assert!(rt;
                        agree(alloc, &problem)?,
                        "{people} people, {rooms} rooms, number {number}"
                    );
                    problems = problems.saturating_add(1);
                }
            }
        }
    }
    assert_same!(rt; problems, SMALL_PROBLEMS);
    Ok(())
}

// Knuth's linear congruential generator. Only its high bits are used.
#[derive(Drop)]
struct Generator(u64);

impl Generator {
    fn below(&mut self, bound: usize) -> usize
        requires { 0 < bound }
    {
        self.0 = self
            .0
            .wrapping_mul(6364136223846793005)
            .wrapping_add(1442695040888963407);
        (self.0 >> 33) as usize % bound
    }
}

// Draws a problem. It draws a room for each person, who lives in the room with probability 2/3, unless somebody else
// lives there.
fn drawn(
    alloc: Global,
    generator: &mut Generator,
    people: usize,
    rooms: usize,
) -> Result<Problem, TradeFault>
    requires { 0 < rooms }
{
    let mut homes: Vec<Option<usize>> = Vec::new(alloc);
    let mut lists = Vec::new(alloc);
    for _ in 0..people {
        let room = generator.below(rooms);
        let home = if generator.below(3) > 0 && !homes.contains(&Some(room)) {
            Some(room)
        } else {
            None
        };
        let mut list = Vec::new(alloc);
        for _ in 0..generator.below(12) {
            let listed = generator.below(rooms);
            if home != Some(listed) && !list.contains(&listed) {
                list.push(listed)?;
            }
        }
        homes.push(home)?;
        lists.push(list)?;
    }
    Problem::new(alloc, people, rooms, homes, lists)
}

#[test]
fn agrees_on_drawn_problems_of_up_to_twelve_people(rt: HostRuntime) -> Result<(), Fail> {
    let alloc = rt.alloc();
    let mut generator = Generator(1999);
    for turn in 0..DRAWN_PROBLEMS {
        let people = generator.below(13);
        let rooms = generator.below(15).saturating_add(1);
        let problem = drawn(alloc, &mut generator, people, rooms)?;
        assert!(rt; agree(alloc, &problem)?, "drawn problem {turn}");
    }
    Ok(())
}

#[test]
fn agrees_on_drawn_problems_of_thirty_people(rt: HostRuntime) -> Result<(), Fail> {
    let alloc = rt.alloc();
    let mut generator = Generator(1974);
    for turn in 0..DRAWN_LARGE_PROBLEMS {
        let problem = drawn(alloc, &mut generator, 30, 36)?;
        assert!(rt; agree(alloc, &problem)?, "drawn problem {turn}");
    }
    Ok(())
}
