//! A test of an import at a desk in memory, with enough memory. It compares the printed answers.
use crate::asserting::assert_same;
use crate::building::{new_desk, text};
use office_core::{Command, Query};
use office_lines::render::{Response, text_of};
use office_store::{Desk, Handler, Request};
use room_types::{ListKind, Listing};
use sqlite::MemStore;
use std::alloc::Global;
use std::process::Abort;

// The request to import this list of rooms.
fn import(rt: &impl Abort, alloc: Global, label: &str, list: &[u8]) -> Request {
    Request::Office(Command::Import {
        label: text(rt, alloc, label),
        kind: ListKind::Rooms,
        bytes: Listing::new(Vec::from_slice(alloc, list).expect(rt, "memory")),
    })
}

// Appends the desk's printed answer to this request.
fn push_answer(
    rt: &impl Abort,
    alloc: Global,
    desk: &mut Desk<MemStore>,
    request: &Request,
    text: &mut String,
) {
    let answer = Response::Answered(desk.handle(alloc, request));
    let printed = text_of(alloc, &answer).expect(rt, "memory");
    text.push_str(printed.as_str()).expect(rt, "memory");
}

// Asserts that these are the desk's printed answers to the requests.
pub(super) fn responds(
    rt: &impl Abort,
    alloc: Global,
    desk: &mut Desk<MemStore>,
    requests: &[Request],
    expected: &str,
) {
    let mut text = String::new(alloc);
    for request in requests {
        push_answer(rt, alloc, desk, request, &mut text);
    }
    assert_same!(rt; text.as_str(), expected);
}

// A known list gets its first answer again, and another list under its label is refused.
#[test]
fn imports_a_list_once(rt: HostRuntime) {
    let alloc = rt.alloc();
    let mut desk = new_desk(&rt, alloc);
    let list = b"room\nH1\nH2\n".as_slice();
    let requests = [
        import(&rt, alloc, "r-1", list),
        import(&rt, alloc, "r-1", list),
        import(&rt, alloc, "r-1", b"room\nH3\n"),
        Request::Ask(Query::Rooms),
    ];
    let expected = "added 2\nadded 2\nrefused 14 ListDiffers\nroom      state     tenant\n\
        H1        free      none\nH2        free      none\n";
    responds(&rt, alloc, &mut desk, &requests, expected);
}
