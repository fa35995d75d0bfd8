//! Tests of the calls of a line through the trait `Line`.
use crate::asserting::assert_same;
use std::alloc::Global;
use std::process::Abort;
use trade_line::{Line, LinkedLine, OutOfMemory, VecLine};

const PEOPLE: usize = 5;

// Empties the line from the front and returns the people in this order.
fn left<L: Line>(alloc: Global, mut line: L) -> Result<Vec<usize>, OutOfMemory> {
    let mut people = Vec::new(alloc);
    for _ in 0..PEOPLE {
        if let Some(person) = line.front() {
            people.push(person)?;
            line.drop_front();
        }
    }
    Ok(people)
}

// Returns a line of all people after `front` was brought to its front and `gone` was dropped from it. A person who is
// not in the line is neither brought nor dropped.
fn moved<L: Line>(alloc: Global, front: usize, gone: usize) -> Result<L, OutOfMemory> {
    let mut line = L::whole(alloc, PEOPLE)?;
    if line.holds(front) {
        line.bring_to_front(front);
    }
    if line.holds(gone) {
        line.drop_member(gone);
    }
    Ok(line)
}

// Whether 3 is at the front of the line, 4 is in the line, and 1 is not.
fn is_moved<L: Line>(line: &L) -> bool {
    let holds = line.holds(4) && !line.holds(1) && !line.holds(usize::MAX);
    holds && line.front() == Some(3) && !line.is_empty()
}

// The person to bring to the front, the person to drop, and the people who are left in the line, in order.
const MOVED: [(usize, usize, &[usize]); 4] = [
    (3, 1, &[3, 0, 2, 4]),
    (4, 0, &[4, 1, 2, 3]),
    (0, 4, &[0, 1, 2, 3]),
    (PEOPLE, PEOPLE, &[0, 1, 2, 3, 4]),
];

fn is_a_list_without_repeats<L: Line>(rt: &impl Abort, alloc: Global) -> Result<(), OutOfMemory> {
    let line: L = moved(alloc, 3, 1)?;
    assert!(rt; is_moved(&line));
    for (front, gone, wanted) in MOVED {
        let line: L = moved(alloc, front, gone)?;
        assert_same!(rt; left(alloc, line)?.as_slice(), wanted);
    }
    let nobody = L::whole(alloc, 0)?;
    assert!(rt; nobody.is_empty() && nobody.front().is_none());
    assert!(rt; L::whole(alloc, usize::MAX).is_err());
    Ok(())
}

#[test]
fn a_line_is_a_list_without_repeats(rt: HostRuntime) -> Result<(), OutOfMemory> {
    is_a_list_without_repeats::<VecLine>(&rt, rt.alloc())?;
    is_a_list_without_repeats::<LinkedLine>(&rt, rt.alloc())
}
