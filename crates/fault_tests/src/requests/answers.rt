//! Tests of the bytes of responses, and of the bodies of requests.

use crate::asserting::{assert_same, same};
use http::StatusCode;
use office_core::Standing;
use resident_http::{HttpAnswer, answer_bytes};
use resident_requests::bodies::{choices_body, rooms_body, standing_body, withdrawn_body};
use resident_requests::choices::choices_of_body;
use resident_requests::error_response::ErrorResponse;
use resident_requests::method::Method;
use room_types::{
    Choices, Grammar, Listing, OutOfMemory, Phase, RoomCode, RoomRow, State, Text, TypeFault,
};
use std::alloc::Global;
use std::process::Abort;

// The error responses, each with its status line and its error name. Status 405 has a test of its own.
const ERRORS: [(ErrorResponse, &str, &str); 14] = [
    (ErrorResponse::BadRequest, "400 Bad Request", "BadRequest"),
    (ErrorResponse::Forbidden, "403 Forbidden", "Forbidden"),
    (ErrorResponse::NotFound, "404 Not Found", "NotFound"),
    (ErrorResponse::BadPhase, "409 Conflict", "BadPhase"),
    (ErrorResponse::Withdrawn, "409 Conflict", "Withdrawn"),
    (ErrorResponse::Going, "409 Conflict", "Going"),
    (
        ErrorResponse::ContentTooLarge,
        "413 Payload Too Large",
        "ContentTooLarge",
    ),
    (
        ErrorResponse::ExpectationFailed,
        "417 Expectation Failed",
        "ExpectationFailed",
    ),
    (
        ErrorResponse::TooManyChoices,
        "422 Unprocessable Entity",
        "TooManyChoices",
    ),
    (
        ErrorResponse::RoomRepeated,
        "422 Unprocessable Entity",
        "RoomRepeated",
    ),
    (
        ErrorResponse::UnknownRoom,
        "422 Unprocessable Entity",
        "UnknownRoom",
    ),
    (
        ErrorResponse::RoomShut,
        "422 Unprocessable Entity",
        "RoomShut",
    ),
    (
        ErrorResponse::NotImplemented,
        "501 Not Implemented",
        "NotImplemented",
    ),
    (
        ErrorResponse::Unavailable,
        "503 Service Unavailable",
        "Unavailable",
    ),
];

// Parses the text.
fn text<G: Grammar>(rt: &impl Abort, alloc: Global, text: &str) -> Text<G> {
    Text::read(alloc, text).expect(rt, text)
}

fn rooms(rt: &impl Abort, alloc: Global, codes: &[&str]) -> Vec<RoomCode> {
    let mut all = Vec::new(alloc);
    for code in codes {
        all.push(text(rt, alloc, code)).expect(rt, "memory");
    }
    all
}

// The standing of Tim Tan, who lives in H1 and lists H2.
fn standing(
    rt: &impl Abort,
    alloc: Global,
    phase: Phase,
    shown: bool,
    got: Option<RoomCode>,
) -> Standing {
    Standing {
        person: text(rt, alloc, "T1"),
        name: text(rt, alloc, "Tim Tan"),
        home: Some(text(rt, alloc, "H1")),
        round: 1,
        phase,
        choices: Choices::read(rooms(rt, alloc, &["H2"])).expect(rt, "a list of rooms"),
        withdrawn: false,
        going: false,
        shown,
        result: got,
    }
}

const SUCCESS: &[u8] = b"HTTP/1.1 200 OK\r\nContent-Type: application/json\r\n\
    Content-Length: 18\r\nConnection: close\r\n\r\n{\"choices\":[\"H2\"]}";

const WRONG_METHOD: &[u8] = b"HTTP/1.1 405 Method Not Allowed\r\n\
    Content-Type: application/json\r\nContent-Length: 28\r\nAllow: PUT\r\n\
    Connection: close\r\n\r\n{\"error\":\"MethodNotAllowed\"}";

// Asserts that the response has these bytes.
fn is_written(rt: &impl Abort, alloc: Global, answer: &HttpAnswer, wanted: &[u8]) {
    let bytes = answer_bytes(alloc, answer).expect(rt, "memory");
    assert_same!(rt; bytes.as_slice(), wanted);
}

#[test]
fn writes_a_success_to_the_byte(rt: HostRuntime) {
    let alloc = rt.alloc();
    let rooms = rooms(&rt, alloc, &["H2"]);
    let body = choices_body(alloc, &rooms).expect(&rt, "memory");
    is_written(&rt, alloc, &HttpAnswer::success(body), SUCCESS);
}

#[test]
fn writes_a_wrong_method_to_the_byte(rt: HostRuntime) {
    let alloc = rt.alloc();
    assert_same!(rt; ErrorResponse::WrongMethod(Method::Put).bytes(), WRONG_METHOD);
    let body = b"{\"error\":\"MethodNotAllowed\"}".as_slice();
    let answer = HttpAnswer {
        status: StatusCode::METHOD_NOT_ALLOWED,
        allow: Some(Method::Put),
        body: Listing::new(Vec::from_slice(alloc, body).expect(&rt, "memory")),
    };
    is_written(&rt, alloc, &answer, WRONG_METHOD);
}

#[test]
fn writes_errors_with_their_statuses_and_names(rt: HostRuntime) {
    let alloc = rt.alloc();
    for (error, line, name) in ERRORS {
        let wanted = fault_text(&rt, alloc, line, name);
        assert_same!(rt; error.bytes(), wanted.as_bytes());
        let status = format!(in alloc; "{} ", error.status().as_u16()).expect(&rt, "memory");
        assert_same!(rt; line.starts_with(status.as_str()), true);
    }
}

/// The text of an error response without the field `Allow`.
pub fn fault_text(rt: &impl Abort, alloc: Global, line: &str, name: &str) -> String {
    let length = name.len() + 12;
    format!(in alloc;
        "HTTP/1.1 {line}\r\nContent-Type: application/json\r\nContent-Length: {length}\r\nConnection: close\r\n\r\n{{\"error\":\"{name}\"}}"
    ).expect(rt, "memory")
}

// The body with Tim Tan's standing after the run.
const RAN: &[u8] = b"{\"choices\":[\"H2\"],\"going\":false,\"home\":\"H1\",\"name\":\"Tim Tan\",\
    \"person\":\"T1\",\"phase\":\"ran\",\"result\":null,\"round\":1,\"shown\":false,\
    \"withdrawn\":false}";

// The body with Tim Tan's standing after the results are published.
const PUBLISHED: &[u8] =
    b"{\"choices\":[\"H2\"],\"going\":false,\"home\":\"H1\",\"name\":\"Tim Tan\",\
    \"person\":\"T1\",\"phase\":\"published\",\"result\":\"H2\",\"round\":1,\"shown\":true,\
    \"withdrawn\":false}";

const ROOMS: &[u8] = b"[{\"room\":\"H1\",\"state\":\"occupied\"},\
    {\"room\":\"H2\",\"state\":\"occupied\"},{\"room\":\"V\",\"state\":\"free\"}]";

// Asserts that there is a body and that it has these bytes.
fn is_body(rt: &impl Abort, body: Result<Listing<u8>, OutOfMemory>, wanted: &[u8]) {
    let body = body.expect(rt, "memory");
    assert_same!(rt; body.as_slice(), wanted);
}

#[test]
fn writes_bodies_to_the_byte(rt: HostRuntime) {
    let alloc = rt.alloc();
    is_ran_body(&rt, alloc);
    is_published_body(&rt, alloc);
    is_body(&rt, withdrawn_body(alloc), b"{\"withdrawn\":true}");
    is_body(&rt, choices_body(alloc, &[]), b"{\"choices\":[]}");
}

fn is_ran_body(rt: &impl Abort, alloc: Global) {
    let ran = standing(rt, alloc, Phase::Ran, false, None);
    is_body(rt, standing_body(alloc, &ran), RAN);
}

fn is_published_body(rt: &impl Abort, alloc: Global) {
    let got = Some(text(rt, alloc, "H2"));
    let published = standing(rt, alloc, Phase::Published, true, got);
    is_body(rt, standing_body(alloc, &published), PUBLISHED);
}

fn row(rt: &impl Abort, alloc: Global, code: &str, state: State) -> RoomRow {
    RoomRow {
        room: text(rt, alloc, code),
        state,
        tenant: None,
    }
}

#[test]
fn writes_rooms_to_the_byte(rt: HostRuntime) {
    let alloc = rt.alloc();
    let rows = vec![in alloc;
        row(&rt, alloc, "H1", State::Occupied),
        row(&rt, alloc, "H2", State::Occupied),
        row(&rt, alloc, "V", State::Free),
    ]
    .expect(&rt, "memory");
    is_body(&rt, rooms_body(alloc, &rows), ROOMS);
}

// Bodies that are not an array of room codes.
const BAD_BODIES: [&[u8]; 12] = [
    b"",
    b"[",
    b"[1]",
    b"{\"a\":1}",
    b"[\"h2\"]",
    b"\"H2\"",
    b"[\"H2\",]",
    b"[\"H2\"] x",
    b"[\"H2\",null]",
    b"[[\"H2\"]]",
    b"[\"H2\xff\"]",
    b"[\"H2\" \"H1\"]",
];

// Bodies that list H2 twice.
const REPEATED: [&[u8]; 2] = [b"[\"H2\",\"H2\"]", b"[\"H2\",\"V\",\"H2\"]"];

#[test]
fn reads_lists_of_rooms(rt: HostRuntime) {
    let alloc = rt.alloc();
    is_list(&rt, alloc, b"[\"H2\"]", &["H2"]);
    let spaced = b" [ \"H2\" , \"\\u0056\" ]\r\n\t ";
    is_list(&rt, alloc, spaced, &["H2", "V"]);
    is_list(&rt, alloc, b"[]", &[]);
    assert_same!(rt; longest_list(&rt, alloc), 40);
}

// Asserts that a body lists these rooms.
fn is_list(rt: &impl Abort, alloc: Global, body: &[u8], codes: &[&str]) {
    let found = choices_of_body(alloc, body).expect(rt, "a list of rooms");
    let wanted = rooms(rt, alloc, codes);
    assert_same!(rt; found.as_slice(), wanted.as_slice());
}

// The number of rooms read from a list of forty.
fn longest_list(rt: &impl Abort, alloc: Global) -> usize {
    let body = listed(rt, alloc, 40, "]");
    let found = choices_of_body(alloc, body.as_bytes()).expect(rt, "a list of rooms");
    found.as_slice().len()
}

#[test]
fn refuses_other_bodies(rt: HostRuntime) {
    let alloc = rt.alloc();
    let bad = TypeFault::BadValue;
    for body in BAD_BODIES {
        is_refused(&rt, alloc, body, &bad);
    }
    is_refused_with_rooms(&rt, alloc, ",1]", &bad);
    is_refused_with_rooms(&rt, alloc, "]", &TypeFault::TooManyChoices);
}

#[test]
fn refuses_repeated_rooms(rt: HostRuntime) {
    let alloc = rt.alloc();
    let repeated = TypeFault::RoomRepeated(text(&rt, alloc, "H2"));
    for body in REPEATED {
        is_refused(&rt, alloc, body, &repeated);
    }
}

// Asserts that a body is refused with this fault.
fn is_refused(rt: &impl Abort, alloc: Global, body: &[u8], wanted: &TypeFault) {
    match choices_of_body(alloc, body) {
        Err(fault) => same(rt, &fault, wanted, "fault"),
        Ok(_) => panic!(rt; "a body is read"),
    }
}

// Asserts that a body of 41 rooms followed by this end is refused with this fault.
fn is_refused_with_rooms(rt: &impl Abort, alloc: Global, end: &str, wanted: &TypeFault) {
    let body = listed(rt, alloc, 41, end);
    is_refused(rt, alloc, body.as_bytes(), wanted);
}

/// The body of a request, which begins with a list of `count` distinct rooms and ends with `end`.
pub fn listed(rt: &impl Abort, alloc: Global, count: usize, end: &str) -> String {
    let mut body = String::from_str(alloc, "[\"A0\"").expect(rt, "memory");
    for i in 1..count {
        write!(body, ",\"A{i}\"").expect(rt, "memory");
    }
    body.push_str(end).expect(rt, "memory");
    body
}
