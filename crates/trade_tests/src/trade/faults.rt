//! Tests of the faults of problems and lists.
use super::{outcome_over, problem_of, rooms_of};
use crate::asserting::assert_same;
use std::alloc::Global;
use std::test::Fail;
use trade_line::{OutOfMemory, TradeFault, VecLine, run_with_list};

// Homes and lists for two rooms, each with the first fault in them.
const BAD: [(&[Option<usize>], &[&[usize]], TradeFault); 7] = [
    (&[None, None], &[&[2], &[]], TradeFault::BadIndex),
    (&[Some(2), None], &[&[], &[]], TradeFault::BadIndex),
    (&[None, None], &[&[]], TradeFault::BadIndex),
    (&[Some(0), Some(0)], &[&[1, 1], &[]], TradeFault::HomeShared),
    (&[Some(1), None], &[&[1], &[0, 0]], TradeFault::ListRepeats),
    (&[None, None], &[&[1, 1], &[]], TradeFault::ListRepeats),
    (&[Some(0), None], &[&[0], &[]], TradeFault::OwnRoomListed),
];

fn fault_of(
    alloc: Global,
    rooms: usize,
    homes: &[Option<usize>],
    lists: &[&[usize]],
) -> Option<TradeFault> {
    problem_of(alloc, rooms, homes, lists).err()
}

#[test]
fn returns_the_first_fault_of_a_problem(rt: HostRuntime) -> Result<(), Fail> {
    let alloc = rt.alloc();
    for (homes, lists, fault) in BAD {
        assert_same!(rt; fault_of(alloc, 2, homes, lists), Some(fault));
    }
    let swap = problem_of(alloc, 2, &[Some(0), Some(1)], &[&[1], &[0]])?;
    let outcome = outcome_over::<VecLine>(alloc, &swap)?;
    assert_same!(rt;
        rooms_of(alloc, &swap, &outcome)?.as_slice(),
        [Some(1), Some(0)].as_slice()
    );
    Ok(())
}

#[test]
fn returns_the_first_fault_of_a_list(rt: HostRuntime) -> Result<(), Fail> {
    let alloc = rt.alloc();
    let problem = problem_of(alloc, 2, &[Some(0), Some(1)], &[&[1], &[0]])?;
    let faults: [(usize, &[usize], TradeFault); 4] = [
        (2, &[], TradeFault::BadIndex),
        (0, &[2, 2], TradeFault::BadIndex),
        (0, &[1, 0, 1], TradeFault::ListRepeats),
        (0, &[1, 0], TradeFault::OwnRoomListed),
    ];
    for (person, list, fault) in faults {
        assert_same!(rt;
            run_with_list(alloc, &problem, person, Vec::from_slice(alloc, list)?),
            Err(fault)
        );
    }
    Ok(())
}

#[test]
fn prints_faults_in_words(rt: HostRuntime) -> Result<(), Fail> {
    let alloc = rt.alloc();
    let faults = [
        (
            TradeFault::BadIndex,
            "there is not one home entry and one list for each person, or a number is out of range",
        ),
        (TradeFault::HomeShared, "two people have the same home"),
        (TradeFault::ListRepeats, "a list has a room twice"),
        (TradeFault::OwnRoomListed, "a person lists their own home"),
        (TradeFault::OutOfMemory, "memory was refused"),
    ];
    for (fault, words) in faults {
        assert_same!(rt; format!(in alloc; "{fault}")?.as_str(), words);
    }
    assert_same!(rt;
        format!(in alloc; "{}", OutOfMemory)?.as_str(),
        "memory was refused"
    );
    Ok(())
}
