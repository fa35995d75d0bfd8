//! Tests of serving single connections over a desk in memory.
mod exchanges;
mod failing;
mod faults;
mod lists;
mod sockets;
mod whole_office;

use crate::asserting::{assert_same, holds};
use crate::desk::failing::NarrowWriter;
use http::StatusCode;
use office_lines::{ParsedLine, parse_line};
use office_store::{Desk, Handler};
use resident_http::{Served, serve_one};
use room_types::Watched;
use room_types::stream::Pair;
use sqlite::MemStore;
use std::alloc::Global;
use std::io::Read;
use std::process::Abort;

// The round is open. T1 lives in H1 and T2 in H2, V is vacant, and T2 lists H1.
const OPEN_ROUND: &str = "\
room H1\n\
room H2\n\
room V\n\
person T1 key00000000000t1 Tim Tan\n\
person T2 key00000000000t2 Tom Tao\n\
home T1 H1\n\
home T2 H2\n\
open\n\
choose T2 H1\n";

// T1 hands in the list H2.
const REQUEST: &str = "PUT /me/choices HTTP/1.1\r\n\
    Host: a\r\n\
    Room-Key: key00000000000t1\r\n\
    Content-Length: 6\r\n\
    \r\n\
    [\"H2\"]";

// The response to `REQUEST`.
const ANSWER: &str = "HTTP/1.1 200 OK\r\n\
    Content-Type: application/json\r\n\
    Content-Length: 18\r\n\
    Connection: close\r\n\
    \r\n\
    {\"choices\":[\"H2\"]}";

// How serving a connection ends after a success.
const WELL: Served = Served::Answered {
    status: StatusCode::OK,
};

// How serving a connection ended, whether the stream failed, how often it was read and flushed, and the bytes written
// to it.
#[derive(Drop)]
struct Exchange {
    how: Served,
    failed: bool,
    reads: u64,
    flushes: u64,
    written: Vec<u8>,
}

// A desk with an open round.
fn open_round(rt: &impl Abort, alloc: Global) -> Desk<MemStore> {
    let mut desk = Desk::in_memory(alloc).expect(rt, "a desk in memory");
    handle_lines(rt, alloc, &mut desk, OPEN_ROUND);
    desk
}

/// Drops the desk. All tests drop their desks here, so that one proof covers every drop.
pub fn drop_desk(desk: Desk<MemStore>) {
    drop(desk);
}

// Handles these lines of the office at the desk.
fn handle_lines(rt: &impl Abort, alloc: Global, desk: &mut Desk<MemStore>, lines: &str) {
    for line in lines.lines() {
        let parsed = parse_line(alloc, line.as_bytes()).expect(rt, "memory");
        handle_parsed(alloc, desk, parsed);
    }
}

fn handle_parsed(alloc: Global, desk: &mut Desk<MemStore>, parsed: ParsedLine) {
    if let ParsedLine::Valid(request) = parsed {
        let _answer = desk.handle(alloc, &request);
    }
}

// Serves a connection with this reader and a writer that takes everything.
fn served<R: Read + Drop>(alloc: Global, desk: &mut Desk<MemStore>, reader: R) -> Exchange {
    served_on(alloc, desk, reader, NarrowWriter::wide(alloc))
}

// Serves a connection with this reader and this writer.
fn served_on<R: Read + Drop>(
    alloc: Global,
    desk: &mut Desk<MemStore>,
    reader: R,
    writer: NarrowWriter,
) -> Exchange {
    let mut stream = Watched::new(Pair { reader, writer });
    let how = serve_one(alloc, desk, &mut stream);
    Exchange {
        how,
        failed: stream.failed(),
        reads: stream.reads(),
        flushes: stream.flushes(),
        written: stream.into_inner().writer.written,
    }
}

// Serves a connection with this request. Asserts that exactly these bytes are the response.
fn is_answered(
    rt: &impl Abort,
    alloc: Global,
    desk: &mut Desk<MemStore>,
    request: &str,
    answer: &str,
) {
    let exchange = served(alloc, desk, request.as_bytes());
    holds(rt, !exchange.failed, request);
    assert_same!(rt; exchange.written.as_slice(), answer.as_bytes(), request);
}

/// Reads everything up to the end.
pub fn read_whole(rt: &impl Abort, alloc: Global, reader: &mut impl Read) -> Vec<u8> {
    let mut bytes = Vec::new(alloc);
    reader.read_to_end(&mut bytes).expect(rt, "bytes");
    bytes
}
