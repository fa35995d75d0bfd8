//! Tests of lists of rooms up to the limit and beyond it.
use super::{drop_desk, handle_lines, is_answered, open_round};
use crate::requests::{fault_text, listed};
use office_store::Desk;
use sqlite::MemStore;
use std::alloc::Global;
use std::process::Abort;

// Forty-one rooms.
const MORE_ROOMS: &str = "\
room A0\nroom A1\nroom A2\nroom A3\nroom A4\nroom A5\nroom A6\nroom A7\nroom A8\nroom A9\n\
room A10\nroom A11\nroom A12\nroom A13\nroom A14\nroom A15\nroom A16\nroom A17\nroom A18\nroom A19\n\
room A20\nroom A21\nroom A22\nroom A23\nroom A24\nroom A25\nroom A26\nroom A27\nroom A28\nroom A29\n\
room A30\nroom A31\nroom A32\nroom A33\nroom A34\nroom A35\nroom A36\nroom A37\nroom A38\nroom A39\n\
room A40\n";

const TOO_MANY: Option<(&str, &str)> = Some(("422 Unprocessable Entity", "TooManyChoices"));

// Lines that the office handles, and the number of rooms that T1 then lists. Then the status and the name of the
// error, or `None` if the list is recorded.
const LISTS: [(&str, usize, Option<(&str, &str)>); 6] = [
    ("", 40, Some(("422 Unprocessable Entity", "UnknownRoom"))),
    ("", 41, TOO_MANY),
    (MORE_ROOMS, 40, None),
    ("", 41, TOO_MANY),
    ("close\n", 40, Some(("409 Conflict", "BadPhase"))),
    ("", 41, TOO_MANY),
];

// A list may have forty rooms. A longer list is refused for its length, before the phase and the rooms are checked.
#[test]
fn accepts_lists_up_to_the_limit(rt: HostRuntime) {
    let alloc = rt.alloc();
    let mut desk = open_round(&rt, alloc);
    for (lines, count, fault) in LISTS {
        handle_lines(&rt, alloc, &mut desk, lines);
        list_is_answered(&rt, alloc, &mut desk, count, fault);
    }
    drop_desk(desk);
}

// Asserts that a list of this number of rooms gets this error, or that it is recorded if there is no error.
fn list_is_answered(
    rt: &impl Abort,
    alloc: Global,
    desk: &mut Desk<MemStore>,
    count: usize,
    fault: Option<(&str, &str)>,
) {
    let list = listed(rt, alloc, count, "]");
    let request = request_with(rt, alloc, list.as_str());
    let answer = match fault {
        Some((status, name)) => fault_text(rt, alloc, status, name),
        None => recorded_text(rt, alloc, list.as_str()),
    };
    is_answered(rt, alloc, desk, request.as_str(), answer.as_str());
}

// The request in which T1 hands in this list.
fn request_with(rt: &impl Abort, alloc: Global, list: &str) -> String {
    let length = list.len();
    format!(in alloc;
        "PUT /me/choices HTTP/1.1\r\nHost: a\r\nRoom-Key: key00000000000t1\r\nContent-Length: {length}\r\n\r\n{list}"
    ).expect(rt, "memory")
}

// The response that says that this list is recorded.
fn recorded_text(rt: &impl Abort, alloc: Global, list: &str) -> String {
    let length = list.len() + 12;
    format!(in alloc;
        "HTTP/1.1 200 OK\r\nContent-Type: application/json\r\nContent-Length: {length}\r\nConnection: close\r\n\r\n{{\"choices\":{list}}}"
    ).expect(rt, "memory")
}
