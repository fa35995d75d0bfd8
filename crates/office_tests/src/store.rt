//! Tests of desks with enough memory.
mod adopting;
mod exporting;
mod importing;
mod migrating;

use crate::asserting::assert_same;
use crate::building::{add_room, answers, is_bare, new_desk};
use office_core::{Command, Query, Refusal, Reply};
use office_store::{
    Answer, Back, Desk, DeskFault, Handler, Request, handle_all, handle_all_in_memory,
};
use room_types::State;
use sqlite::{Connection, MemStore};
use std::alloc::Global;
use std::process::Abort;

// Requests that add a room twice and query the rooms.
fn about_one_room(rt: &impl Abort, alloc: Global) -> Vec<Request> {
    vec![in alloc;
        add_room(rt, alloc, "H1"),
        add_room(rt, alloc, "H1"),
        Request::Ask(Query::Rooms),
    ]
    .expect(rt, "memory")
}

#[test]
fn handles_requests_in_turn(rt: HostRuntime) {
    let alloc = rt.alloc();
    let requests = about_one_room(&rt, alloc);
    let mut desk = new_desk(&rt, alloc);
    let answers = handle_all(alloc, &mut desk, &requests).expect(&rt, "memory");
    assert!(rt; are_of_one_room(&answers));
}

// Whether the first answer accepts the room, the second refuses it as a duplicate, and the third shows it as the only
// room.
fn are_of_one_room(answers: &[Answer]) -> bool {
    match answers {
        [
            Answer::Reply(Reply::Done),
            Answer::Refused(Refusal::DuplicateRoom),
            rooms,
        ] => is_one_room(rooms),
        _ => false,
    }
}

// Whether the answer shows H1 as the only room, which is free.
fn is_one_room(answer: &Answer) -> bool {
    match answer {
        Answer::Reply(Reply::Rooms(rows)) => matches!(rows.as_slice(), [row]
            if row.room.as_str() == "H1" && row.state == State::Free && row.tenant.is_none()),
        _ => false,
    }
}

#[test]
fn stores_an_office_in_tables(rt: HostRuntime) {
    let alloc = rt.alloc();
    let requests = vec![in alloc;
        add_room(&rt, alloc, "H1"),
        Request::Office(Command::OpenRound),
    ]
    .expect(&rt, "memory");
    let mut desk = created(&rt, alloc);
    assert!(rt; shows_empty_office(&rt, alloc, &mut desk));
    let answers = answers(&rt, alloc, &mut desk, &requests);
    assert!(rt; are_of_an_open_round(&answers));
    assert!(rt; round_number(&rt, alloc, &mut desk) == 1);
}

// A desk that has created its tables in a new database.
fn created(rt: &impl Abort, alloc: Global) -> Desk<MemStore> {
    let conn = Connection::open_in_memory(alloc).expect(rt, "memory");
    match Desk::create(alloc, conn) {
        Ok(desk) => desk,
        Err(_) => panic!(rt; "no desk makes its tables"),
    }
}

// Whether the desk's tables hold the empty office.
fn shows_empty_office(rt: &impl Abort, alloc: Global, desk: &mut Desk<MemStore>) -> bool {
    let office = desk.load(alloc).expect(rt, "an office in the tables");
    office.rooms.len() == 0 && is_bare(&office)
}

// Whether the answers say that a room was added and the first round is open.
fn are_of_an_open_round(answers: &[Answer]) -> bool {
    matches!(
        answers,
        [
            Answer::Reply(Reply::Done),
            Answer::Reply(Reply::Opened { round: 1 })
        ]
    )
}

// The number of the round that the desk loads from its tables.
fn round_number(rt: &impl Abort, alloc: Global, desk: &mut Desk<MemStore>) -> u16 {
    desk.load(alloc)
        .expect(rt, "an office in the tables")
        .number
}

// A second attempt to create the tables fails, and the connection that it returns still holds the office.
#[test]
fn returns_the_connection_if_tables_exist(rt: HostRuntime) {
    let alloc = rt.alloc();
    let requests = about_one_room(&rt, alloc);
    let mut desk = new_desk(&rt, alloc);
    let answers = handle_all_in_memory(&mut desk, alloc, &requests).expect(&rt, "memory");
    assert!(rt; are_of_one_room(&answers));
    let (fault, conn) = made(alloc, desk);
    assert_same!(rt; fault, Some(DeskFault::AlreadyThere));
    assert!(rt; holds_one_room(alloc, conn));
}

// Tries to create a new office over the desk's database. Returns the fault, if any, and the connection.
fn made(alloc: Global, desk: Desk<MemStore>) -> (Option<DeskFault>, Connection<MemStore>) {
    match Desk::create(alloc, desk.release()) {
        Ok(desk) => (None, desk.release()),
        Err(Back { fault, connection }) => (Some(fault), connection),
    }
}

// Whether a desk adopts the database and shows one room.
fn holds_one_room(alloc: Global, conn: Connection<MemStore>) -> bool {
    let outside = conn.is_autocommit();
    if !outside {
        return false;
    }
    match Desk::adopt(alloc, conn) {
        Ok(mut desk) => is_one_room(&desk.handle(alloc, &Request::Ask(Query::Rooms))),
        Err(_) => false,
    }
}
