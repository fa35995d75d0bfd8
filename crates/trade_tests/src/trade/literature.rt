//! Examples in the manner of the literature, solved by hand. Each has its rooms and its numbers of asks and looks.
use super::{outcome_over, problem_of, rooms_of};
use crate::asserting::assert_same;
use std::alloc::Global;
use std::process::Abort;
use std::test::Fail;
use trade_line::plain::top_trading_cycles;
use trade_line::{Line, LinkedLine, Problem, VecLine};

// What a solution by hand gives.
#[derive(Clone, Copy)]
struct Solution<'a> {
    gets: &'a [Option<usize>],
    asks: u128,
    looks: u128,
}

fn is_found_by<L: Line>(
    rt: &impl Abort,
    alloc: Global,
    problem: &Problem,
    solution: &Solution,
) -> Result<(), Fail> {
    let outcome = outcome_over::<L>(alloc, problem)?;
    assert_same!(rt;
        rooms_of(alloc, problem, &outcome)?.as_slice(),
        solution.gets
    );
    assert_same!(rt; outcome.asks(), solution.asks);
    assert_same!(rt; outcome.looks(), solution.looks);
    Ok(())
}

fn is_found(
    rt: &impl Abort,
    alloc: Global,
    problem: &Problem,
    solution: &Solution,
) -> Result<(), Fail> {
    is_found_by::<VecLine>(rt, alloc, problem, solution)?;
    is_found_by::<LinkedLine>(rt, alloc, problem, solution)?;
    let plain = top_trading_cycles(alloc, problem)?;
    assert_same!(rt; plain.as_slice(), solution.gets);
    Ok(())
}

// Four tenants and a newcomer rank all rooms. Here person 1 is the first in the order and lives in room 1. The test
// counts from 0, and its lists have only the rooms that a person ranks above the home.
//
//     1: room 2, 6, 5        2: room 7, 1, 6, 5, 4, 3        3: room 2, 1, 4, 7        4: room 2
//     5 (a newcomer): room 4, 3, 7, 1, 2, 5, 6
//
// 1 asks for room 2, so 2 goes first and asks for room 7. Room 7 is vacant, and 2 gets it. 1 asks again and gets room
// 2. Room 2 is gone for 3, who gets room 1, which 1 has left. Room 2 is gone for 4 as well, who stays in room 4. Room
// 4 is gone for 5, who gets room 3. By steps of the definition: 1 and 2 leave by the cycle 1, room 2, 2, room 7. Then
// 3 leaves with room 1, and 4 with room 4. Then 5 leaves. The askers are 1, 2, 1, 3, 4, 5, and their looks are 1, 1,
// 1, 2, 1, 2.
#[test]
fn solves_four_tenants_and_a_newcomer(rt: HostRuntime) -> Result<(), Fail> {
    let alloc = rt.alloc();
    let problem = problem_of(
        alloc,
        7,
        &[Some(0), Some(1), Some(2), Some(3), None],
        &[
            &[1, 5, 4],
            &[6, 0, 5, 4, 3, 2],
            &[1, 0, 3, 6],
            &[1],
            &[3, 2, 6, 0, 1, 4, 5],
        ],
    )?;
    let solution = Solution {
        gets: &[Some(1), Some(6), Some(0), Some(3), Some(2)],
        asks: 6,
        looks: 8,
    };
    is_found(&rt, alloc, &problem, &solution)
}

// Nine tenants, 1 to 9, each live in the room of the same number, and 10 to 16 are newcomers. The rooms are 1 to 16.
// The order is 13, 15, 11, 14, 12, 16, 10, and then 1 to 9. These are the turns, with the number of looks of each:
//
//     13 asks for 6 (1); 6 lists nothing and stays (0); 13 gets 13 (2)
//     15 asks for 1 (1); 1 gets 15 (1); 15 gets 1 (1)
//     11 asks for 2 (1); 2 asks for 3 (1); 1 is gone for 3, who stays (1); 2 asks for 4 (2);
//        4 asks for 2 (1), who has asked, so 4 gets 2 and 2 gets 4; 11 gets 16 (3)
//     14 asks for 8 (1); 8 gets 12 (2); 14 gets 8 (1)
//     12 gets 14 (2)
//     16 asks for 5 (1); 5 asks for 9 (1); 9 gets 11 (1); 5 gets 9 (1); 16 gets 5 (1)
//     10 asks for 7 (1); 7 lists nothing and stays (0); 10 gets 10 (4)
#[test]
fn solves_nine_tenants_and_seven_newcomers(rt: HostRuntime) -> Result<(), Fail> {
    let alloc = rt.alloc();
    let mut homes = vec![in alloc; None; 7]?;
    for room in 0..9 {
        homes.push(Some(room))?;
    }
    let newcomers: [&[usize]; 7] = [
        &[5, 12],
        &[0],
        &[1, 3, 15],
        &[7],
        &[3, 13],
        &[4],
        &[6, 2, 11, 9],
    ];
    let tenants: [&[usize]; 9] = [&[14], &[2, 3], &[0], &[1], &[8], &[], &[], &[5, 11], &[10]];
    let mut lists = Vec::from_slice(alloc, &newcomers)?;
    lists.extend_from_slice(&tenants)?;
    let problem = problem_of(alloc, 16, &homes, &lists)?;
    let gets = [12, 0, 15, 7, 13, 4, 9, 14, 3, 2, 1, 8, 5, 6, 11, 10].map(Some);
    let solution = Solution {
        gets: &gets,
        asks: 24,
        looks: 31,
    };
    is_found(&rt, alloc, &problem, &solution)
}

// Six tenants, 1 to 6 in the order, live in rooms 6, 4, 5, 1, 2, 3. By steps of the definition: 4, 5 and 6 point at
// one another in a cycle and move. Then 2 and 3, whose first choices are gone, swap. Then nothing is left for 1 but
// the home. These are the turns, with the number of looks of each: 1 asks for room 3 (1), 6 for room 1 (1), 4 for
// room 2 (1), 5 for room 3 (1), which closes the cycle. 1 asks for room 5 (2), 3 for room 4 (2), 2 for room 5 (2),
// which closes the swap. 1 stays (1).
#[test]
fn solves_six_tenants_without_newcomers(rt: HostRuntime) -> Result<(), Fail> {
    let alloc = rt.alloc();
    let problem = problem_of(
        alloc,
        6,
        &[Some(5), Some(3), Some(4), Some(0), Some(1), Some(2)],
        &[&[2, 4], &[0, 4], &[1, 3], &[1], &[2], &[0]],
    )?;
    let solution = Solution {
        gets: &[Some(5), Some(4), Some(3), Some(1), Some(2), Some(0)],
        asks: 8,
        looks: 11,
    };
    is_found(&rt, alloc, &problem, &solution)
}
