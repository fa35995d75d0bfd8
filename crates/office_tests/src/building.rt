//! Values and requests from texts. A text that does not parse ends the test.
use office_core::{Command, Office};
use office_lines::{ParsedLine, parse_line};
use office_store::{Answer, Desk, Request};
use room_types::{Choices, Grammar, Phase, RoomCode, Text};
use sqlite::MemStore;
use std::alloc::Global;
use std::process::Abort;

/// Parses the text. Ends the test if the text does not parse.
pub fn text<G: Grammar>(rt: &impl Abort, alloc: Global, text: &str) -> Text<G> {
    Text::read(alloc, text).expect(rt, text)
}

/// Parses the text, if there is one. Ends the test if that text does not parse.
pub fn optional<G: Grammar>(
    rt: &impl Abort,
    alloc: Global,
    value: Option<&str>,
) -> Option<Text<G>> {
    match value {
        Some(value) => Some(text(rt, alloc, value)),
        None => None,
    }
}

/// A preference list of these rooms.
pub fn choices(rt: &impl Abort, alloc: Global, codes: &[&str]) -> Choices {
    let mut rooms: Vec<RoomCode> = Vec::new(alloc);
    for code in codes {
        rooms.push(text(rt, alloc, code)).expect(rt, "memory");
    }
    Choices::read(rooms).expect(rt, "a list of rooms")
}

pub fn add_room(rt: &impl Abort, alloc: Global, code: &str) -> Request {
    Request::Office(Command::AddRoom {
        room: text(rt, alloc, code),
    })
}

pub fn add_person(
    rt: &impl Abort,
    alloc: Global,
    id: &str,
    name: &str,
    key: &str,
    home: Option<&str>,
) -> Request {
    Request::Office(Command::AddPerson {
        person: text(rt, alloc, id),
        name: text(rt, alloc, name),
        key: text(rt, alloc, key),
        home: optional(rt, alloc, home),
    })
}

/// A desk in memory with an empty office.
pub fn new_desk(rt: &impl Abort, alloc: Global) -> Desk<MemStore> {
    Desk::in_memory(alloc).expect(rt, "a desk in memory")
}

/// Whether the office has nothing but rooms, and no round yet.
pub fn is_bare(office: &Office) -> bool {
    let people = office.people.len() == 0 && office.withdrawn.len() == 0;
    let lists = office.choices.len() == 0 && office.lists.len() == 0;
    let others = office.grades.len() == 0 && office.going.len() == 0;
    let draw = office.words.len() == 0 && office.results.len() == 0;
    let moves = office.moves.iter().next().is_none();
    let rounds = office.number == 0 && office.phase == Phase::Idle;
    people && lists && others && draw && moves && rounds
}

/// Parses each of these lines and returns the requests. Ends the test at a line that is no request.
pub fn parse_requests(rt: &impl Abort, alloc: Global, lines: &str) -> Vec<Request> {
    let mut requests = Vec::new(alloc);
    for line in lines.lines() {
        requests
            .push(parse_request(rt, alloc, line))
            .expect(rt, "memory");
    }
    requests
}

fn parse_request(rt: &impl Abort, alloc: Global, line: &str) -> Request {
    match parse_line(alloc, line.as_bytes()).expect(rt, "memory") {
        ParsedLine::Valid(request) => request,
        _ => panic!(rt; "no request: {line}"),
    }
}

/// The desk's answers to these requests.
pub fn answers(
    rt: &impl Abort,
    alloc: Global,
    desk: &mut Desk<MemStore>,
    requests: &[Request],
) -> Vec<Answer> {
    desk.handle_all(alloc, requests).expect(rt, "memory")
}
