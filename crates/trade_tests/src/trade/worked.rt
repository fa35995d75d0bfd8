//! Worked examples: the rooms, asks and looks of runs over both lines, and the rooms that the plain program gives.
use super::{outcome_over, problem_of, rooms_of};
use crate::asserting::assert_same;
use std::alloc::Global;
use std::process::Abort;
use std::test::Fail;
use trade_line::plain::top_trading_cycles;
use trade_line::{Line, LinkedLine, Problem, TradeFault, VecLine, run_with_list};

struct Worked<'a> {
    story: &'a str,
    rooms: usize,
    homes: &'a [Option<usize>],
    lists: &'a [&'a [usize]],
    gets: &'a [Option<usize>],
    asks: u128,
    looks: u128,
}

// A problem, and the room that one of its people would get with another list.
struct OtherList<'a> {
    rooms: usize,
    homes: &'a [Option<usize>],
    lists: &'a [&'a [usize]],
    person: usize,
    list: &'a [usize],
    gets: Option<usize>,
}

const OTHER_LISTS: [OtherList<'static>; 4] = [
    OtherList {
        rooms: 3,
        homes: &[None, Some(0), Some(1)],
        lists: &[&[0, 2], &[1], &[0]],
        person: 0,
        list: &[2],
        gets: Some(2),
    },
    OtherList {
        rooms: 3,
        homes: &[None, Some(0), Some(1)],
        lists: &[&[0, 2], &[1], &[0]],
        person: 1,
        list: &[2, 1],
        gets: Some(2),
    },
    OtherList {
        rooms: 2,
        homes: &[Some(0), None, None],
        lists: &[&[1], &[0], &[0]],
        person: 2,
        list: &[1, 0],
        gets: None,
    },
    OtherList {
        rooms: 3,
        homes: &[Some(0), Some(1)],
        lists: &[&[1], &[2]],
        person: 0,
        list: &[],
        gets: Some(0),
    },
];

const WORKED: [Worked<'static>; 12] = [
    Worked {
        story: "nobody",
        rooms: 0,
        homes: &[],
        lists: &[],
        gets: &[],
        asks: 0,
        looks: 0,
    },
    Worked {
        story: "chain into a vacant room",
        rooms: 3,
        homes: &[Some(0), Some(1)],
        lists: &[&[1], &[2]],
        gets: &[Some(1), Some(2)],
        asks: 3,
        looks: 3,
    },
    Worked {
        story: "swap with a newcomer behind",
        rooms: 3,
        homes: &[Some(0), Some(1), None],
        lists: &[&[1], &[0], &[0, 2]],
        gets: &[Some(1), Some(0), Some(2)],
        asks: 3,
        looks: 4,
    },
    Worked {
        story: "newcomer asks first",
        rooms: 3,
        homes: &[None, Some(0), Some(1)],
        lists: &[&[0, 2], &[1], &[0]],
        gets: &[Some(2), Some(1), Some(0)],
        asks: 4,
        looks: 5,
    },
    Worked {
        story: "two pairs swap",
        rooms: 5,
        homes: &[None, Some(0), Some(1), Some(2), Some(3)],
        lists: &[&[0, 4], &[1], &[0], &[3], &[2]],
        gets: &[Some(4), Some(1), Some(0), Some(3), Some(2)],
        asks: 6,
        looks: 7,
    },
    Worked {
        story: "newcomers alone",
        rooms: 2,
        homes: &[None, None, None],
        lists: &[&[0], &[0, 1], &[1]],
        gets: &[Some(0), Some(1), None],
        asks: 3,
        looks: 4,
    },
    Worked {
        story: "vacated room goes by priority",
        rooms: 2,
        homes: &[Some(0), None, None],
        lists: &[&[1], &[0], &[0]],
        gets: &[Some(1), Some(0), None],
        asks: 3,
        looks: 3,
    },
    Worked {
        story: "three in a ring",
        rooms: 3,
        homes: &[Some(0), Some(1), Some(2)],
        lists: &[&[1], &[2], &[0]],
        gets: &[Some(1), Some(2), Some(0)],
        asks: 3,
        looks: 3,
    },
    Worked {
        story: "two swap and the first finds a vacant room",
        rooms: 4,
        homes: &[Some(0), Some(1), Some(2)],
        lists: &[&[1, 3], &[2], &[1]],
        gets: &[Some(3), Some(2), Some(1)],
        asks: 4,
        looks: 5,
    },
    Worked {
        story: "two swap and the first stays",
        rooms: 3,
        homes: &[Some(0), Some(1), Some(2)],
        lists: &[&[1], &[2], &[1]],
        gets: &[Some(0), Some(2), Some(1)],
        asks: 4,
        looks: 4,
    },
    Worked {
        story: "a better trade apart",
        rooms: 3,
        homes: &[Some(2), Some(0), Some(1)],
        lists: &[&[0], &[1, 2], &[0]],
        gets: &[Some(2), Some(1), Some(0)],
        asks: 4,
        looks: 4,
    },
    Worked {
        story: "cursors, where reading again would take nine looks",
        rooms: 3,
        homes: &[None, Some(0), Some(1), Some(2)],
        lists: &[&[0, 1, 2], &[], &[], &[]],
        gets: &[None, Some(0), Some(1), Some(2)],
        asks: 7,
        looks: 6,
    },
];

fn gives_the_rooms<L: Line>(rt: &impl Abort, alloc: Global, worked: &Worked) -> Result<(), Fail> {
    let problem = problem_of(alloc, worked.rooms, worked.homes, worked.lists)?;
    let outcome = outcome_over::<L>(alloc, &problem)?;
    let story = worked.story;
    assert_same!(rt;
        rooms_of(alloc, &problem, &outcome)?.as_slice(),
        worked.gets,
        story);
    assert_same!(rt; outcome.asks(), worked.asks, story);
    assert_same!(rt; outcome.looks(), worked.looks, story);
    assert_same!(rt; outcome.room_of(problem.people()), None, story);
    let plain = top_trading_cycles(alloc, &problem)?;
    assert_same!(rt; plain.as_slice(), worked.gets, story);
    Ok(())
}

fn gives_the_worked_rooms<L: Line>(rt: &impl Abort, alloc: Global) -> Result<(), Fail> {
    for worked in &WORKED {
        gives_the_rooms::<L>(rt, alloc, worked)?;
    }
    Ok(())
}

#[test]
fn line_and_plain_program_give_the_worked_rooms(rt: HostRuntime) -> Result<(), Fail> {
    gives_the_worked_rooms::<VecLine>(&rt, rt.alloc())?;
    gives_the_worked_rooms::<LinkedLine>(&rt, rt.alloc())
}

fn would_get(alloc: Global, other: &OtherList) -> Result<Option<usize>, TradeFault> {
    let problem = problem_of(alloc, other.rooms, other.homes, other.lists)?;
    let list = Vec::from_slice(alloc, other.list)?;
    run_with_list(alloc, &problem, other.person, list)
}

#[test]
fn another_list_gives_the_worked_rooms(rt: HostRuntime) -> Result<(), TradeFault> {
    let alloc = rt.alloc();
    for other in &OTHER_LISTS {
        assert_same!(rt; would_get(alloc, other)?, other.gets);
    }
    Ok(())
}
