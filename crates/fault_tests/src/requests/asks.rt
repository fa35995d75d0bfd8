//! Tests of parsing bytes into complete requests, and of the first fault in other bytes.
use crate::asserting::{assert_same, same_at};
use resident_http::{AskState, read_ask};
use resident_requests::ask::HEAD_LIMIT;
use resident_requests::choices::choices_of_body;
use std::alloc::Global;
use std::process::Abort;

// A request to record a list of rooms.
const REQUEST: &[u8] = b"PUT /me/choices HTTP/1.1\r\n\
    Host: a\r\n\
    Room-Key: key00000000000t1\r\n\
    Content-Length: 6\r\n\
    \r\n\
    [\"H2\"]";

// Heads without a body, each with the status with which it is refused.
const FAULTS: [(&[u8], u16); 25] = [
    (b"GET /me HTTP/1.1\r\nExpect: 100-continue\r\n\r\n", 400),
    (b"GET /me HTTP/1.1\r\nHost: a\r\nHost: a\r\n\r\n", 400),
    (b"GET /me HTTP/1.0\r\nHost: a\r\nhost: b\r\n\r\n", 400),
    (
        b"GET /me HTTP/1.1\r\nHost: a\r\nExpect: 100-continue\r\nTransfer-Encoding: chunked\r\n\r\n",
        417,
    ),
    (b"GET /me HTTP/1.1\r\nHost: a\r\nEXPECT:\r\n\r\n", 417),
    (
        b"GET /me HTTP/1.1\r\nHost: a\r\nTransfer-Encoding: chunked\r\nContent-Length: 1025\r\n\r\n",
        501,
    ),
    (
        b"PUT /me/choices HTTP/1.1\r\nHost: a\r\nContent-Length: +6\r\n\r\n",
        400,
    ),
    (
        b"PUT /me/choices HTTP/1.1\r\nHost: a\r\nContent-Length: -6\r\n\r\n",
        400,
    ),
    (
        b"PUT /me/choices HTTP/1.1\r\nHost: a\r\nContent-Length: 6 6\r\n\r\n",
        400,
    ),
    (
        b"PUT /me/choices HTTP/1.1\r\nHost: a\r\nContent-Length: 6,6\r\n\r\n",
        400,
    ),
    (
        b"PUT /me/choices HTTP/1.1\r\nHost: a\r\nContent-Length: 0x6\r\n\r\n",
        400,
    ),
    (
        b"PUT /me/choices HTTP/1.1\r\nHost: a\r\nContent-Length:\r\n\r\n",
        400,
    ),
    (
        b"PUT /me/choices HTTP/1.1\r\nHost: a\r\nContent-Length: 6\r\nContent-Length: 6\r\n\r\n",
        400,
    ),
    (
        b"PUT /me/choices HTTP/1.1\r\nHost: a\r\nContent-Length: 6\r\ncontent-length: 1025\r\n\r\n",
        400,
    ),
    (
        b"PUT /none HTTP/1.1\r\nHost: a\r\nContent-Length: 1025\r\n\r\n",
        413,
    ),
    (
        b"PUT /me/choices HTTP/1.1\r\nHost: a\r\nContent-Length: 1025\r\n\r\n",
        413,
    ),
    (
        b"PUT /none HTTP/1.1\r\nHost: a\r\nContent-Length: 999999999999999999999999999999\r\n\r\n",
        413,
    ),
    (b"GET /me HTTP/2.0\r\nHost: a\r\n\r\n", 400),
    (b"GET /me HTTP/1.2\r\nHost: a\r\n\r\n", 400),
    (b"GET /me\r\n\r\n", 400),
    (b"GET  /me HTTP/1.1\r\nHost: a\r\n\r\n", 400),
    (b"G(T /me HTTP/1.1\r\nHost: a\r\n\r\n", 400),
    (b"GET /me HTTP/1.1\r\nHost : a\r\n\r\n", 400),
    (b"GET /me HTTP/1.1\r\nHost: a\r\n b\r\n\r\n", 400),
    (b"GET /\xff HTTP/1.1\r\nHost: a\r\n\r\n", 400),
];

// Heads without a body, each with the request's path and key.
const READ: [(&[u8], &str, Option<&str>); 9] = [
    (b"GET /me HTTP/1.0\r\n\r\n", "/me", None),
    (b"\r\nGET /me HTTP/1.1\r\nHost:\r\n\r\n", "/me", None),
    (b"GET /me?a=1?b HTTP/1.1\r\nHost: a\r\n\r\n", "/me", None),
    (b"GET /m%65 HTTP/1.1\r\nHost: a\r\n\r\n", "/m%65", None),
    (b"OPTIONS * HTTP/1.1\nHost: a\n\n", "*", None),
    (
        b"GET /me HTTP/1.1\r\nHOST: a\r\nroom-key: \t key00000000000t1 \t\r\n\r\n",
        "/me",
        Some("key00000000000t1"),
    ),
    (
        b"GET /me HTTP/1.1\r\nHost: a\r\nRoom-Key: KEY00000000000T1\r\n\r\n",
        "/me",
        None,
    ),
    (
        b"GET /me HTTP/1.1\r\nHost: a\r\nRoom-Key: key00000000000\xff1\r\n\r\n",
        "/me",
        None,
    ),
    (
        b"GET /me HTTP/1.1\r\nHost: a\r\nRoom-Key: key00000000000t1\r\nRoom-Key: key00000000000t1\r\n\r\n",
        "/me",
        None,
    ),
];

// The result of parsing bytes. For a complete request it has only the length of the body.
#[derive(Clone, Copy, PartialEq, Eq, Debug)]
enum Asked {
    // More bytes are needed.
    More,
    // A complete request, whose body has this number of bytes.
    Whole(usize),
    // The bytes are refused with this status.
    Refused(u16),
}

fn in_short(bytes: &[u8]) -> Asked {
    match read_ask(bytes) {
        AskState::More => Asked::More,
        AskState::Ask { body, .. } => Asked::Whole(body.len()),
        AskState::Fault(status) => Asked::Refused(status.as_u16()),
    }
}

// The body of the request, or `None` if the bytes are no complete request.
fn body_of(bytes: &[u8]) -> Option<&[u8]> {
    match read_ask(bytes) {
        AskState::Ask { body, .. } => Some(body),
        AskState::More | AskState::Fault(_) => None,
    }
}

// The path and the key of the request, or `None` if the bytes are no complete request.
fn path_and_key(bytes: &[u8]) -> Option<(&str, Option<&str>)> {
    match read_ask(bytes) {
        AskState::Ask { path, key, .. } => Some((path, key)),
        AskState::More | AskState::Fault(_) => None,
    }
}

#[test]
fn parses_a_complete_request(rt: HostRuntime) {
    match read_ask(REQUEST) {
        AskState::Ask {
            method,
            path,
            key,
            body,
            used,
        } => {
            assert_same!(rt; method, b"PUT".as_slice());
            assert_same!(rt; path, "/me/choices");
            assert_same!(rt; key, Some("key00000000000t1"));
            assert_same!(rt; body, b"[\"H2\"]".as_slice());
            assert_same!(rt; used, REQUEST.len());
        }
        AskState::More | AskState::Fault(_) => panic!(rt; "the request is not read"),
    }
}

#[test]
fn needs_more_after_each_prefix(rt: HostRuntime) {
    for length in 0..REQUEST.len() {
        same_at(&rt, &in_short(&REQUEST[..length]), &Asked::More, length);
    }
}

#[test]
fn returns_the_first_fault(rt: HostRuntime) {
    for (bytes, status) in FAULTS {
        assert_same!(rt; in_short(bytes), Asked::Refused(status));
    }
}

#[test]
fn parses_paths_and_keys(rt: HostRuntime) {
    for (bytes, path, key) in READ {
        assert_same!(rt; path_and_key(bytes), Some((path, key)));
    }
}

// Requests, each with its body. Bytes after the body are ignored, and the number in `Content-Length` may begin with
// zeros.
const BODIES: [(&[u8], &[u8]); 3] = [
    (
        b"PUT / HTTP/1.1\r\nHost: a\r\nContent-Length: 0006\r\n\r\n[\"H2\"]",
        b"[\"H2\"]",
    ),
    (
        b"PUT / HTTP/1.1\r\nHost: a\r\nContent-Length: 2\r\n\r\n[]GET /",
        b"[]",
    ),
    (b"PUT / HTTP/1.1\r\nHost: a\r\n\r\n[]", b""),
];

#[test]
fn parses_bodies_by_their_length(rt: HostRuntime) {
    for (bytes, body) in BODIES {
        assert_same!(rt; body_of(bytes), Some(body));
    }
}

// The prefix, followed by the byte `times` times.
fn padded(rt: &impl Abort, alloc: Global, prefix: &[u8], byte: u8, times: usize) -> Vec<u8> {
    let mut bytes = Vec::from_slice(alloc, prefix).expect(rt, "memory");
    for _ in 0..times {
        bytes.push(byte).expect(rt, "memory");
    }
    bytes
}

// A request whose body is a list and this number of spaces. Its `Content-Length` is 1,024.
fn spaced_list(rt: &impl Abort, alloc: Global, spaces: usize) -> Vec<u8> {
    let prefix = b"PUT /me/choices HTTP/1.1\r\nHost: a\r\nContent-Length: 1024\r\n\r\n[\"H2\"]";
    padded(rt, alloc, prefix, b' ', spaces)
}

#[test]
fn parses_the_longest_body(rt: HostRuntime) {
    let alloc = rt.alloc();
    let short = spaced_list(&rt, alloc, 1_017);
    assert_same!(rt; in_short(&short), Asked::More);
    let whole = spaced_list(&rt, alloc, 1_018);
    assert_same!(rt; in_short(&whole), Asked::Whole(1_024));
    assert_same!(rt; rooms_listed(&rt, alloc, &whole), 1);
}

// The number of rooms that the body of a request lists.
fn rooms_listed(rt: &impl Abort, alloc: Global, bytes: &[u8]) -> usize {
    let body = body_of(bytes).expect(rt, "a whole request");
    let choices = choices_of_body(alloc, body).expect(rt, "a list of rooms");
    choices.as_slice().len()
}

// Heads up to the limit and beyond it. Each has the number of bytes before the end of the head, that end, and the
// result of parsing.
const HEADS: [(usize, &[u8], Asked); 6] = [
    (HEAD_LIMIT - 4, b"", Asked::More),
    (HEAD_LIMIT - 4, b"\r\n\r\n", Asked::Whole(0)),
    (HEAD_LIMIT - 3, b"\r\n\r\n", Asked::Refused(400)),
    (HEAD_LIMIT - 1, b"", Asked::More),
    (HEAD_LIMIT, b"", Asked::Refused(400)),
    (HEAD_LIMIT, b"\r\n\r\n", Asked::Refused(400)),
];

#[test]
fn parses_heads_up_to_the_limit(rt: HostRuntime) {
    for (length, end, wanted) in HEADS {
        same_at(
            &rt,
            &asked_by_head(&rt, rt.alloc(), length, end),
            &wanted,
            length,
        );
    }
}

// The result of parsing a head of `length` bytes with `end` after them.
fn asked_by_head(rt: &impl Abort, alloc: Global, length: usize, end: &[u8]) -> Asked {
    let prefix = b"GET / HTTP/1.1\r\nHost: ".as_slice();
    let letters = length.saturating_sub(prefix.len());
    let mut head = padded(rt, alloc, prefix, b'a', letters);
    head.extend_from_slice(end).expect(rt, "memory");
    in_short(&head)
}

// A head with a field `Host` and this number of other fields.
fn head_of_fields(rt: &impl Abort, alloc: Global, others: usize) -> Vec<u8> {
    let mut head = Vec::from_slice(alloc, b"GET / HTTP/1.1\r\nHost: a\r\n").expect(rt, "memory");
    for _ in 0..others {
        head.extend_from_slice(b"A: b\r\n").expect(rt, "memory");
    }
    head.extend_from_slice(b"\r\n").expect(rt, "memory");
    head
}

#[test]
fn parses_fields_up_to_the_limit(rt: HostRuntime) {
    let most = head_of_fields(&rt, rt.alloc(), 63);
    assert_same!(rt; in_short(&most), Asked::Whole(0));
    let more = head_of_fields(&rt, rt.alloc(), 64);
    assert_same!(rt; in_short(&more), Asked::Refused(400));
}

// Whether the bytes are refused with 400, and no prefix of them is a complete request. Once a prefix is refused, all
// longer prefixes have to be refused too.
fn is_refused_from_some_prefix(bytes: &[u8]) -> bool {
    let mut refused = false;
    for length in 0..bytes.len() + 1 {
        let asked = in_short(&bytes[..length]);
        if !may_follow(refused, asked) {
            return false;
        }
        refused = asked == Asked::Refused(400);
    }
    refused
}

// Whether a prefix may have this result. `refused` says whether the prefix one byte shorter was refused.
fn may_follow(refused: bool, asked: Asked) -> bool {
    match asked {
        Asked::More => !refused,
        Asked::Whole(_) => false,
        Asked::Refused(status) => status == 400,
    }
}

#[test]
fn refuses_all_that_begins_with_a_refused_prefix(rt: HostRuntime) {
    let head = head_of_fields(&rt, rt.alloc(), 64);
    assert_same!(rt; is_refused_from_some_prefix(&head), true);
    let bad_path = b"GET /\xff HTTP/1.1\r\nHost: a\r\n\r\n";
    assert_same!(rt; is_refused_from_some_prefix(bad_path), true);
    assert_same!(rt; is_refused_from_some_prefix(REQUEST), false);
}
