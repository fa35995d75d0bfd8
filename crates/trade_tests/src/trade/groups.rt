//! Small markets that show what the theorems on other lists and on the strict core do not say.
use super::problem_of;
use crate::asserting::assert_same;
use std::alloc::Global;
use std::process::Abort;
use trade_line::TradeFault;
use trade_line::plain::top_trading_cycles;

struct Twice {
    story: &'static str,
    rooms: usize,
    homes: &'static [Option<usize>],
    lists: &'static [&'static [usize]],
    gets: &'static [Option<usize>],
    other_lists: &'static [&'static [usize]],
    other_gets: &'static [Option<usize>],
}

const TWICE: [Twice; 3] = [
    // the theorem says nothing about a group in which somebody loses: then some people may gain and others lose
    Twice {
        story: "a friend accepts a loss",
        rooms: 2,
        homes: &[None, None, None],
        lists: &[&[0, 1], &[0], &[1]],
        gets: &[Some(0), None, Some(1)],
        other_lists: &[&[1, 0], &[0], &[1]],
        other_gets: &[Some(1), Some(0), None],
    },
    // a person who gets something else by handing in another list may change what others get
    Twice {
        story: "one of two who swap stays",
        rooms: 2,
        homes: &[Some(0), Some(1)],
        lists: &[&[1], &[0]],
        gets: &[Some(1), Some(0)],
        other_lists: &[&[], &[0]],
        other_gets: &[Some(0), Some(1)],
    },
    // staying is in the strict core too: without the others, the only tenant can just keep the home
    Twice {
        story: "a room is vacant",
        rooms: 2,
        homes: &[Some(0)],
        lists: &[&[1]],
        gets: &[Some(1)],
        other_lists: &[&[]],
        other_gets: &[Some(0)],
    },
];

fn rooms_are(
    rt: &impl Abort,
    alloc: Global,
    twice: &Twice,
    lists: &[&[usize]],
    gets: &[Option<usize>],
) -> Result<(), TradeFault> {
    let problem = problem_of(alloc, twice.rooms, twice.homes, lists)?;
    let plain = top_trading_cycles(alloc, &problem)?;
    assert_same!(rt; plain.as_slice(), gets, twice.story);
    Ok(())
}

#[test]
fn other_lists_give_other_rooms(rt: HostRuntime) -> Result<(), TradeFault> {
    let alloc = rt.alloc();
    for twice in &TWICE {
        rooms_are(&rt, alloc, twice, twice.lists, twice.gets)?;
        rooms_are(&rt, alloc, twice, twice.other_lists, twice.other_gets)?;
    }
    Ok(())
}
