//! Tests of desks over existing databases, with enough memory.
use crate::asserting::assert_same;
use crate::building::{add_person, add_room, answers, choices, new_desk, text};
use office_core::{Command, Office, Query, Reply};
use office_store::{Answer, Back, Desk, DeskFault, Handler, Request};
use room_types::{Listing, Phase, ResultRow, Word};
use sqlite::{Connection, MemStore};
use std::alloc::Global;
use std::process::Abort;

// Statements that break the tables that `desk_after_run` leaves, so that these hold no office. Each has a statement
// that undoes the break.
const BREAKS: [(&str, &str); 12] = [
    (
        "UPDATE result SET room = NULL WHERE person = 'N'",
        "UPDATE result SET room = 'V' WHERE person = 'N'",
    ),
    (
        "UPDATE word SET hex = '000000000000000A' WHERE person = 'N'",
        "UPDATE word SET hex = '0000000000000003' WHERE person = 'N'",
    ),
    (
        "DELETE FROM word WHERE person = 'N'",
        "INSERT INTO word VALUES ('N', '0000000000000003')",
    ),
    (
        "UPDATE person SET passkey = 'short' WHERE id = 'N'",
        "UPDATE person SET passkey = 'key000000000000n' WHERE id = 'N'",
    ),
    (
        "UPDATE person SET withdrawn = 1 WHERE id = 'N'",
        "UPDATE person SET withdrawn = 0 WHERE id = 'N'",
    ),
    (
        "UPDATE choice SET place = 7 WHERE person = 'N' AND place = 1",
        "UPDATE choice SET place = 1 WHERE person = 'N' AND place = 7",
    ),
    (
        "UPDATE room SET shut = 1 WHERE code = 'H1'",
        "UPDATE room SET shut = 0 WHERE code = 'H1'",
    ),
    ("UPDATE round SET number = 0", "UPDATE round SET number = 1"),
    (
        "INSERT INTO going VALUES ('N')",
        "DELETE FROM going WHERE person = 'N'",
    ),
    (
        "UPDATE round SET number = 2; INSERT INTO move VALUES (1, 'X', 'H1', NULL, 1)",
        "DELETE FROM move; UPDATE round SET number = 1",
    ),
    (
        "UPDATE round SET phase = 'drawn'",
        "UPDATE round SET phase = 'ran'",
    ),
    (
        "INSERT INTO move VALUES (1, 'N', NULL, 'V', 1)",
        "DELETE FROM move",
    ),
];

// Statements to run in turn over the tables of a desk. Each has the fault with which adopting the database then
// fails, or `None` if it succeeds.
const DECLARED: [(&str, Option<DeskFault>); 12] = [
    (
        "UPDATE round SET version = 9",
        Some(DeskFault::OtherVersion(9)),
    ),
    (
        "CREATE TABLE more(text TEXT)",
        Some(DeskFault::OtherVersion(9)),
    ),
    (
        "DROP TABLE more; UPDATE round SET version = 1",
        Some(DeskFault::OtherVersion(1)),
    ),
    (
        "UPDATE round SET version = 2",
        Some(DeskFault::OtherVersion(2)),
    ),
    ("UPDATE round SET version = 3", None),
    ("DROP TABLE going", Some(DeskFault::NotAnOffice)),
    (
        "CREATE TABLE going(person TEXT PRIMARY KEY NOT NULL REFERENCES person(id), note TEXT) STRICT",
        Some(DeskFault::NotAnOffice),
    ),
    (
        "DROP TABLE going;
CREATE TABLE going(person TEXT PRIMARY KEY NOT NULL REFERENCES person(id)) STRICT",
        None,
    ),
    ("DELETE FROM round", Some(DeskFault::NotAnOffice)),
    ("CREATE TABLE note(text TEXT)", Some(DeskFault::Unavailable)),
    (
        "DROP TABLE note; DROP TABLE round",
        Some(DeskFault::NotAnOffice),
    ),
    (
        "CREATE VIEW Round AS SELECT 1 AS one",
        Some(DeskFault::Unavailable),
    ),
];

#[test]
fn finds_no_office_in_an_empty_database(rt: HostRuntime) {
    let alloc = rt.alloc();
    let conn = Connection::open_in_memory(alloc).expect(&rt, "memory");
    let (fault, _) = tried(alloc, conn);
    assert_same!(rt; fault, Some(DeskFault::NotAnOffice));
}

#[test]
fn adopts_only_tables_of_its_version(rt: HostRuntime) {
    let alloc = rt.alloc();
    let mut conn = new_desk(&rt, alloc).release();
    for (statements, wanted) in DECLARED {
        conn = tried_after(&rt, alloc, conn, statements, wanted);
    }
}

#[test]
fn adopts_the_office_of_another_desk(rt: HostRuntime) {
    let alloc = rt.alloc();
    let mut desk = adopted(&rt, alloc, desk_after_run(&rt, alloc));
    assert!(rt; has_run(&desk.load(alloc).expect(&rt, "an office in the tables")));
    assert!(rt; are_results(&desk.handle(alloc, &Request::Ask(Query::Results))));
}

#[test]
fn adopts_only_rows_of_an_office(rt: HostRuntime) {
    let alloc = rt.alloc();
    let mut conn = desk_after_run(&rt, alloc).release();
    for (breaks, mends) in BREAKS {
        conn = tried_after(&rt, alloc, conn, breaks, Some(DeskFault::NotAnOffice));
        conn = tried_after(&rt, alloc, conn, mends, None);
    }
}

// Returns a desk that adopts the database of this desk.
fn adopted(rt: &impl Abort, alloc: Global, desk: Desk<MemStore>) -> Desk<MemStore> {
    match Desk::adopt(alloc, desk.release()) {
        Ok(desk) => desk,
        Err(_) => panic!(rt; "no desk takes the database"),
    }
}

// Runs the statements and tries to adopt the database. Asserts that this fails with the fault `wanted`, or succeeds
// if that is `None`. Returns the connection.
fn tried_after(
    rt: &impl Abort,
    alloc: Global,
    mut conn: Connection<MemStore>,
    statements: &str,
    wanted: Option<DeskFault>,
) -> Connection<MemStore> {
    conn.execute_batch(statements).expect(rt, statements);
    let (fault, conn) = tried(alloc, conn);
    assert_same!(rt; fault, wanted, statements);
    conn
}

// Tries to adopt the database. Returns the fault, if any, and the connection.
fn tried(alloc: Global, conn: Connection<MemStore>) -> (Option<DeskFault>, Connection<MemStore>) {
    let outside = conn.is_autocommit();
    if !outside {
        return (Some(DeskFault::Unavailable), conn);
    }
    match Desk::adopt(alloc, conn) {
        Ok(desk) => (None, desk.release()),
        Err(Back { fault, connection }) => (Some(fault), connection),
    }
}

fn has_run(office: &Office) -> bool {
    let of_first_run = office.number == 1 && office.phase == Phase::Ran;
    of_first_run && office.rooms.len() == 3 && office.people.len() == 3
}

fn are_results(answer: &Answer) -> bool {
    match answer {
        Answer::Reply(Reply::Results(rows)) => matches!(rows.as_slice(), [n, t1, t2]
            if is_row(n, "N", "V") && is_row(t1, "T1", "H2") && is_row(t2, "T2", "H1")),
        _ => false,
    }
}

fn is_row(row: &ResultRow, person: &str, room: &str) -> bool {
    match &row.room {
        Some(code) => row.person.as_str() == person && code.as_str() == room,
        None => false,
    }
}

// A desk after a run. T1 and T2 live in H1 and H2 and list each other's room. N is last in the order and lists H1 and
// V.
fn desk_after_run(rt: &impl Abort, alloc: Global) -> Desk<MemStore> {
    let mut desk = new_desk(rt, alloc);
    for requests in [entered(rt, alloc), held(rt, alloc)] {
        let _answers = answers(rt, alloc, &mut desk, &requests);
    }
    desk
}

fn entered(rt: &impl Abort, alloc: Global) -> Vec<Request> {
    vec![in alloc;
        add_room(rt, alloc, "H1"),
        add_room(rt, alloc, "H2"),
        add_room(rt, alloc, "V"),
        add_person(rt, alloc, "T1", "Tim Tan", "key00000000000t1", Some("H1")),
        add_person(rt, alloc, "T2", "Tim Tan", "key00000000000t2", Some("H2")),
        add_person(rt, alloc, "N", "Tim Tan", "key000000000000n", None),
    ]
    .expect(rt, "memory")
}

fn held(rt: &impl Abort, alloc: Global) -> Vec<Request> {
    let words = vec![in alloc; Word::new(3), Word::new(1), Word::new(2)].expect(rt, "memory");
    vec![in alloc;
        Request::Office(Command::OpenRound),
        choose(rt, alloc, "T1", &["H2"]),
        choose(rt, alloc, "T2", &["H1"]),
        choose(rt, alloc, "N", &["H1", "V"]),
        Request::Office(Command::CloseRound),
        Request::Office(Command::Draw {
            words: Listing::new(words),
        }),
        Request::Office(Command::Run),
    ]
    .expect(rt, "memory")
}

fn choose(rt: &impl Abort, alloc: Global, id: &str, codes: &[&str]) -> Request {
    Request::Office(Command::SetChoices {
        person: text(rt, alloc, id),
        choices: choices(rt, alloc, codes),
    })
}
