//! Large runs, with the numbers of asks and looks that they take.
use super::outcome_over;
use crate::asserting::assert_same;
use std::alloc::Global;
use std::process::Abort;
use std::test::Fail;
use trade_line::{Line, LinkedLine, Problem, TradeFault, VecLine};

const TENANTS: usize = 2000;

// Each tenant lists the room of the next tenant, and the last tenant lists a vacant room.
fn one_room_on(alloc: Global) -> Result<Problem, TradeFault> {
    let mut homes = Vec::new(alloc);
    let mut lists = Vec::new(alloc);
    for person in 0..TENANTS {
        homes.push(Some(person))?;
        lists.push(vec![in alloc; person + 1]?)?;
    }
    Problem::new(alloc, TENANTS, TENANTS + 1, homes, lists)
}

fn moves_one_room_on<L: Line>(rt: &impl Abort, alloc: Global) -> Result<(), Fail> {
    let problem = one_room_on(alloc)?;
    let outcome = outcome_over::<L>(alloc, &problem)?;
    for person in 0..TENANTS {
        assert_same!(rt; outcome.room_of(person), Some(person + 1));
    }
    assert_same!(rt; outcome.asks(), 3999);
    assert_same!(rt; outcome.looks(), 3999);
    Ok(())
}

#[test]
fn everybody_moves_one_room_on(rt: HostRuntime) -> Result<(), Fail> {
    moves_one_room_on::<VecLine>(&rt, rt.alloc())?;
    moves_one_room_on::<LinkedLine>(&rt, rt.alloc())
}

const VACANT: usize = 40;

// There is one newcomer more than there are rooms, and all newcomers have the same list.
fn same_lists(alloc: Global) -> Result<Problem, TradeFault> {
    let mut homes = Vec::new(alloc);
    let mut lists = Vec::new(alloc);
    for _ in 0..VACANT + 1 {
        let mut list = Vec::new(alloc);
        for room in 0..VACANT {
            list.push(room)?;
        }
        homes.push(None)?;
        lists.push(list)?;
    }
    Problem::new(alloc, VACANT + 1, VACANT, homes, lists)
}

fn goes_by_priority<L: Line>(rt: &impl Abort, alloc: Global) -> Result<(), Fail> {
    let problem = same_lists(alloc)?;
    let outcome = outcome_over::<L>(alloc, &problem)?;
    for person in 0..VACANT {
        assert_same!(rt; outcome.room_of(person), Some(person));
    }
    assert_same!(rt; outcome.room_of(VACANT), None);
    assert_same!(rt; outcome.asks(), 41);
    assert_same!(rt; outcome.looks(), 860);
    Ok(())
}

#[test]
fn newcomers_with_one_list_go_by_priority(rt: HostRuntime) -> Result<(), Fail> {
    goes_by_priority::<VecLine>(&rt, rt.alloc())?;
    goes_by_priority::<LinkedLine>(&rt, rt.alloc())
}
