//! Tests of worked requests of residents. Between the requests, the office handles lines of its own.
use super::whole_office::{LISTS_H2, is_as_expected};
use super::{
    ANSWER, Exchange, REQUEST, WELL, drop_desk, handle_lines, is_answered, open_round, served,
};
use crate::asserting::{assert_same, holds, same_at};
use office_store::Desk;
use resident_http::{Served, serve_one_in_memory};
use room_types::Watched;
use room_types::stream::Pair;
use sqlite::MemStore;
use std::alloc::Global;
use std::process::Abort;

// Lines that the office handles, or a resident's request with the status and the body of the response.
enum Step {
    Office(&'static str),
    Exchange(&'static str, u16, &'static str),
}

const BAD_REQUEST: &str = "{\"error\":\"BadRequest\"}";

const BAD_PHASE: &str = "{\"error\":\"BadPhase\"}";

// A year of two residents.
const STORY: [Step; 38] = [
    Step::Exchange(REQUEST, 200, "{\"choices\":[\"H2\"]}"),
    Step::Exchange(REQUEST, 200, "{\"choices\":[\"H2\"]}"),
    Step::Exchange(
        "PUT /me/choices HTTP/1.1\r\nHost: a\r\nRoom-Key: key00000000000t1\r\nContent-Length: 0006\r\n\r\n[\"H2\"]after",
        200,
        "{\"choices\":[\"H2\"]}",
    ),
    Step::Exchange(
        "PUT /me/choices HTTP/1.1\r\nHost: a\r\nRoom-Key: key00000000000t1\r\nContent-Length: 1025\r\n\r\n[\"H2\"]",
        413,
        "{\"error\":\"ContentTooLarge\"}",
    ),
    Step::Exchange(
        "PUT /me/choices HTTP/1.1\r\nHost: a\r\nRoom-Key: key00000000000t1\r\nContent-Length: 999999999999999999999999999999\r\n\r\n",
        413,
        "{\"error\":\"ContentTooLarge\"}",
    ),
    Step::Exchange(
        "PUT /me/choices HTTP/1.1\r\nHost: a\r\nRoom-Key: key00000000000t1\r\nContent-Length: 11\r\n\r\n[\"H2\",\"H2\"]",
        422,
        "{\"error\":\"RoomRepeated\"}",
    ),
    Step::Exchange(
        "PUT /me/choices HTTP/1.1\r\nHost: a\r\nRoom-Key: key00000000000t1\r\nContent-Length: 6\r\n\r\n[\"H9\"]",
        422,
        "{\"error\":\"UnknownRoom\"}",
    ),
    Step::Exchange(
        "PUT /me/choices HTTP/1.1\r\nHost: a\r\nRoom-Key: key00000000000t9\r\nContent-Length: 6\r\n\r\n[\"H2\"]",
        403,
        "{\"error\":\"Forbidden\"}",
    ),
    Step::Exchange(
        "DELETE /me/choices HTTP/1.1\r\nHost: a\r\nRoom-Key: key00000000000t1\r\n\r\n",
        405,
        "{\"error\":\"MethodNotAllowed\"}",
    ),
    Step::Exchange(
        "GET /rooms HTTP/1.1\r\nHost: a\r\nRoom-Key: key00000000000t1\r\nContent-Length: 1\r\n\r\n[",
        200,
        "[{\"room\":\"H1\",\"state\":\"occupied\"},{\"room\":\"H2\",\"state\":\"occupied\"},{\"room\":\"V\",\"state\":\"free\"}]",
    ),
    Step::Exchange(
        "GET /me HTTP/1.1\r\nExpect: 100-continue\r\n\r\n",
        400,
        BAD_REQUEST,
    ),
    Step::Exchange(
        "GET /me HTTP/1.1\r\nHost: a\r\nExpect: 100-continue\r\nTransfer-Encoding: chunked\r\n\r\n",
        417,
        "{\"error\":\"ExpectationFailed\"}",
    ),
    Step::Exchange(
        "GET /me HTTP/1.1\r\nHost: a\r\nTransfer-Encoding: chunked\r\nContent-Length: 1025\r\n\r\n",
        501,
        "{\"error\":\"NotImplemented\"}",
    ),
    Step::Exchange(
        "PUT /me/choices HTTP/1.1\r\nHost: a\r\nRoom-Key: key00000000000t1\r\nContent-Length: +6\r\n\r\n[\"H2\"]",
        400,
        BAD_REQUEST,
    ),
    Step::Exchange(
        "GET /none HTTP/1.1\r\nHost: a\r\nContent-Length: 1025\r\n\r\n",
        413,
        "{\"error\":\"ContentTooLarge\"}",
    ),
    Step::Exchange(
        "GET /none HTTP/1.1\r\nHost: a\r\nRoom-Key: key00000000000t9\r\n\r\n",
        404,
        "{\"error\":\"NotFound\"}",
    ),
    Step::Exchange(
        "PUT /me HTTP/1.1\r\nHost: a\r\nRoom-Key: key00000000000t9\r\n\r\n",
        405,
        "{\"error\":\"MethodNotAllowed\"}",
    ),
    Step::Exchange(
        "PUT /me/choices HTTP/1.1\r\nHost: a\r\nRoom-Key: key00000000000t9\r\nContent-Length: 1\r\n\r\n[",
        403,
        "{\"error\":\"Forbidden\"}",
    ),
    Step::Exchange(
        "PUT /me/choices HTTP/1.1\r\nHost: a\r\nContent-Length: 6\r\n\r\n[\"H2\"]",
        403,
        "{\"error\":\"Forbidden\"}",
    ),
    Step::Exchange(
        "PUT /me/choices HTTP/1.1\r\nHost: a\r\nRoom-Key: key00000000000t1\r\nContent-Length: 3\r\n\r\n[1]",
        400,
        BAD_REQUEST,
    ),
    Step::Exchange(
        "PUT /me/choices HTTP/1.1\r\nHost: a\r\nRoom-Key: key00000000000t1\r\nContent-Length: 7\r\n\r\n{\"a\":1}",
        400,
        BAD_REQUEST,
    ),
    Step::Exchange(
        "PUT /me/choices HTTP/1.1\r\nHost: a\r\nRoom-Key: key00000000000t1\r\nContent-Length: 6\r\n\r\n[\"h2\"]",
        400,
        BAD_REQUEST,
    ),
    Step::Exchange(
        "PUT /me/choices HTTP/1.1\r\nHost: a\r\nRoom-Key: key00000000000t1\r\nContent-Length: 1\r\n\r\n[",
        400,
        BAD_REQUEST,
    ),
    Step::Office("shut V\n"),
    Step::Exchange(
        "PUT /me/choices HTTP/1.1\r\nHost: a\r\nRoom-Key: key00000000000t1\r\nContent-Length: 5\r\n\r\n[\"V\"]",
        422,
        "{\"error\":\"RoomShut\"}",
    ),
    Step::Office("reopen V\n"),
    Step::Office("close\n"),
    Step::Exchange(
        "PUT /me/choices HTTP/1.1\r\nHost: a\r\nRoom-Key: key00000000000t1\r\nContent-Length: 1\r\n\r\n[",
        400,
        BAD_REQUEST,
    ),
    Step::Exchange(REQUEST, 409, BAD_PHASE),
    Step::Exchange(
        "POST /me/withdraw HTTP/1.1\r\nHost: a\r\nRoom-Key: key00000000000t1\r\n\r\n",
        409,
        BAD_PHASE,
    ),
    Step::Office("draw 0000000000000001 0000000000000002\nrun\n"),
    Step::Exchange(
        "GET /me HTTP/1.1\r\nHost: a\r\nRoom-Key: key00000000000t1\r\n\r\n",
        200,
        "{\"choices\":[\"H2\"],\"going\":false,\"home\":\"H1\",\"name\":\"Tim Tan\",\"person\":\"T1\",\"phase\":\"ran\",\"result\":null,\"round\":1,\"shown\":false,\"withdrawn\":false}",
    ),
    Step::Office("publish\n"),
    Step::Exchange(
        "GET /me HTTP/1.1\r\nHost: a\r\nRoom-Key: key00000000000t1\r\n\r\n",
        200,
        "{\"choices\":[\"H2\"],\"going\":false,\"home\":\"H1\",\"name\":\"Tim Tan\",\"person\":\"T1\",\"phase\":\"published\",\"result\":\"H2\",\"round\":1,\"shown\":true,\"withdrawn\":false}",
    ),
    Step::Office("settle\nopen\n"),
    Step::Exchange(
        "POST /me/withdraw HTTP/1.1\r\nHost: a\r\nRoom-Key: key00000000000t2\r\n\r\n",
        200,
        "{\"withdrawn\":true}",
    ),
    Step::Exchange(
        "POST /me/withdraw HTTP/1.0\r\nRoom-Key: key00000000000t2\r\n\r\n",
        200,
        "{\"withdrawn\":true}",
    ),
    Step::Exchange(
        "PUT /me/choices HTTP/1.1\r\nHost: a\r\nRoom-Key: key00000000000t2\r\nContent-Length: 5\r\n\r\n[\"V\"]",
        409,
        "{\"error\":\"Withdrawn\"}",
    ),
];

// In the first round T2 withdraws twice, and then hands in a list, which is refused because T2 has withdrawn.
const WITHDRAWALS: [Step; 3] = [
    Step::Exchange(
        "POST /me/withdraw HTTP/1.1\r\nHost: a\r\nRoom-Key: key00000000000t2\r\n\r\n",
        200,
        "{\"withdrawn\":true}",
    ),
    Step::Exchange(
        "POST /me/withdraw HTTP/1.1\r\nHost: a\r\nRoom-Key: key00000000000t2\r\n\r\n",
        200,
        "{\"withdrawn\":true}",
    ),
    Step::Exchange(
        "PUT /me/choices HTTP/1.1\r\nHost: a\r\nRoom-Key: key00000000000t2\r\nContent-Length: 5\r\n\r\n[\"V\"]",
        409,
        "{\"error\":\"Withdrawn\"}",
    ),
];

// While the round is open, the office records that T2, who has a home, leaves the college. T2 has no request for this.
// After that T2 can neither hand in a list nor withdraw. T2 still sees the recorded list, but no result.
const LEAVING: [Step; 10] = [
    Step::Exchange(
        "POST /me/going HTTP/1.1\r\nHost: a\r\nRoom-Key: key00000000000t2\r\n\r\n",
        404,
        "{\"error\":\"NotFound\"}",
    ),
    Step::Office("going T2\n"),
    Step::Exchange(
        "PUT /me/choices HTTP/1.1\r\nHost: a\r\nRoom-Key: key00000000000t2\r\nContent-Length: 5\r\n\r\n[\"V\"]",
        409,
        "{\"error\":\"Going\"}",
    ),
    Step::Exchange(
        "POST /me/withdraw HTTP/1.1\r\nHost: a\r\nRoom-Key: key00000000000t2\r\n\r\n",
        409,
        "{\"error\":\"Going\"}",
    ),
    Step::Exchange(
        "GET /me HTTP/1.1\r\nHost: a\r\nRoom-Key: key00000000000t2\r\n\r\n",
        200,
        "{\"choices\":[\"H1\"],\"going\":true,\"home\":\"H2\",\"name\":\"Tom Tao\",\"person\":\"T2\",\"phase\":\"open\",\"result\":null,\"round\":1,\"shown\":false,\"withdrawn\":false}",
    ),
    Step::Exchange(REQUEST, 200, "{\"choices\":[\"H2\"]}"),
    Step::Office("close\ndraw 0000000000000001\nrun\npublish\n"),
    Step::Exchange(
        "GET /me HTTP/1.1\r\nHost: a\r\nRoom-Key: key00000000000t1\r\n\r\n",
        200,
        "{\"choices\":[\"H2\"],\"going\":false,\"home\":\"H1\",\"name\":\"Tim Tan\",\"person\":\"T1\",\"phase\":\"published\",\"result\":\"H2\",\"round\":1,\"shown\":true,\"withdrawn\":false}",
    ),
    Step::Exchange(
        "GET /me HTTP/1.1\r\nHost: a\r\nRoom-Key: key00000000000t2\r\n\r\n",
        200,
        "{\"choices\":[\"H1\"],\"going\":true,\"home\":\"H2\",\"name\":\"Tom Tao\",\"person\":\"T2\",\"phase\":\"published\",\"result\":null,\"round\":1,\"shown\":false,\"withdrawn\":false}",
    ),
    Step::Exchange(
        "POST /me/withdraw HTTP/1.1\r\nHost: a\r\nRoom-Key: key00000000000t2\r\n\r\n",
        409,
        BAD_PHASE,
    ),
];

// The response to a request with a wrong method.
const WRONG_METHOD: &str = "HTTP/1.1 405 Method Not Allowed\r\n\
    Content-Type: application/json\r\n\
    Content-Length: 28\r\n\
    Allow: PUT\r\n\
    Connection: close\r\n\
    \r\n\
    {\"error\":\"MethodNotAllowed\"}";

// The status of the response, or `None` if serving the connection ended without one.
fn answered_status(how: &Served) -> Option<u16> {
    match how {
        Served::Answered { status } => Some(status.as_u16()),
        Served::Silent | Served::ReadFault | Served::WriteFault { .. } => None,
    }
}

// Each story begins at a new desk.
#[test]
fn answers_residents_through_rounds(rt: HostRuntime) {
    for story in [STORY.as_slice(), WITHDRAWALS.as_slice(), LEAVING.as_slice()] {
        run_story(&rt, rt.alloc(), story);
    }
}

fn run_story(rt: &impl Abort, alloc: Global, story: &[Step]) {
    let mut desk = open_round(rt, alloc);
    for step in story {
        take_step(rt, alloc, &mut desk, step);
    }
    drop_desk(desk);
}

fn take_step(rt: &impl Abort, alloc: Global, desk: &mut Desk<MemStore>, step: &Step) {
    match step {
        Step::Office(lines) => handle_lines(rt, alloc, desk, lines),
        Step::Exchange(request, status, body) => {
            let exchange = served(alloc, desk, request.as_bytes());
            has_status(rt, alloc, &exchange, *status, request);
            holds(rt, has_body(&exchange.written, body), request);
        }
    }
}

// Whether the response ends with an empty line and then this body.
fn has_body(written: &[u8], body: &str) -> bool {
    match written.strip_suffix(body.as_bytes()) {
        Some(head) => head.ends_with(b"\r\n\r\n"),
        None => false,
    }
}

// Asserts that serving ended with this status and that the response begins with the status. The request is the note.
fn has_status(rt: &impl Abort, alloc: Global, exchange: &Exchange, status: u16, request: &str) {
    let prefix = format!(in alloc; "HTTP/1.1 {status} ").expect(rt, "memory");
    assert_same!(rt; answered_status(&exchange.how), Some(status), request);
    let begins = exchange.written.as_slice().starts_with(prefix.as_bytes());
    holds(rt, begins && !exchange.failed, request);
}

// Compares the exact bytes of the response to a list and of the response to a wrong method. `serve_one_in_memory`,
// which serves desks in memory, also has to give the response to the list.
#[test]
fn answers_to_the_byte(rt: HostRuntime) {
    let alloc = rt.alloc();
    let mut desk = open_round(&rt, alloc);
    is_answered(&rt, alloc, &mut desk, REQUEST, ANSWER);
    let wrong = "DELETE /me/choices HTTP/1.1\r\nHost: a\r\n\r\n";
    is_answered(&rt, alloc, &mut desk, wrong, WRONG_METHOD);
    drop_desk(desk);
    is_answered_in_memory(&rt, alloc);
}

// Asserts that `serve_one_in_memory` gives the response to the request, and records the list.
fn is_answered_in_memory(rt: &impl Abort, alloc: Global) {
    let mut desk = open_round(rt, alloc);
    let mut stream = Watched::new(Pair {
        reader: REQUEST.as_bytes(),
        writer: Vec::new(alloc),
    });
    let how = serve_one_in_memory(alloc, &mut desk, &mut stream);
    assert_same!(rt; (how, stream.failed()), (WELL, false));
    let written = stream.into_inner().writer;
    assert_same!(rt; written.as_slice(), ANSWER.as_bytes());
    is_as_expected(rt, alloc, &mut desk, LISTS_H2, 0);
    drop_desk(desk);
}

// A body of 1,024 bytes is read completely. A head may have 64 fields, but not 65.
#[test]
fn accepts_requests_up_to_the_limits(rt: HostRuntime) {
    let alloc = rt.alloc();
    let mut desk = open_round(&rt, alloc);
    is_answered_at_length(&rt, alloc, &mut desk);
    for (others, status) in [(61, 200), (62, 400)] {
        has_status_with(&rt, alloc, &mut desk, others, status);
    }
    drop_desk(desk);
}

// The part of `REQUEST` before the length of the body.
fn request_prefix() -> &'static str {
    REQUEST.strip_suffix("6\r\n\r\n[\"H2\"]").unwrap_or("")
}

// Asserts that `REQUEST`, lengthened by spaces to a body of 1,024 bytes, gets the response `ANSWER`.
fn is_answered_at_length(rt: &impl Abort, alloc: Global, desk: &mut Desk<MemStore>) {
    let prefix = request_prefix();
    let spaces = " ".repeat(alloc, 1_018).expect(rt, "memory");
    let longest = format!(in alloc; "{prefix}1024\r\n\r\n[\"H2\"]{spaces}").expect(rt, "memory");
    is_answered(rt, alloc, desk, longest.as_str(), ANSWER);
}

// Asserts that the request with this number of additional fields gets this status.
fn has_status_with(
    rt: &impl Abort,
    alloc: Global,
    desk: &mut Desk<MemStore>,
    others: usize,
    status: u16,
) {
    let prefix = request_prefix();
    let fields = "X: y\r\n".repeat(alloc, others).expect(rt, "memory");
    let request = format!(in alloc; "{prefix}6\r\n{fields}\r\n[\"H2\"]").expect(rt, "memory");
    let exchange = served(alloc, desk, request.as_bytes());
    same_at(rt, &answered_status(&exchange.how), &Some(status), others);
}
