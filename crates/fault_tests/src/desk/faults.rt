//! Tests of streams that pass bytes in chunks, that end early, and that fail.
use super::failing::{ChunkedReader, NarrowWriter};
use super::whole_office::{LISTS_H2, NO_LIST, is_as_expected};
use super::{ANSWER, Exchange, REQUEST, WELL, drop_desk, open_round, served, served_on};
use crate::asserting::{same, same_at};
use http::StatusCode;
use office_store::Desk;
use resident_http::Served;
use sqlite::MemStore;
use std::alloc::Global;
use std::io;
use std::process::Abort;

const REFUSED: Served = Served::Answered {
    status: StatusCode::BAD_REQUEST,
};

// The response to an incomplete request.
const BAD_REQUEST: &str = "HTTP/1.1 400 Bad Request\r\n\
    Content-Type: application/json\r\n\
    Content-Length: 22\r\n\
    Connection: close\r\n\
    \r\n\
    {\"error\":\"BadRequest\"}";

// Whether a device refuses a write by failing (`true`) or by taking no byte, and how many bytes it takes afterwards.
const REFUSALS: [(bool, usize); 4] = [
    (true, 0),
    (true, usize::MAX),
    (false, 0),
    (false, usize::MAX),
];

// Asserts how serving a connection ended and what was written. Asserts that the stream failed if serving ended with a
// read or write fault, and not otherwise.
fn is_exchange(rt: &impl Abort, exchange: &Exchange, how: Served, written: &[u8], case: usize) {
    same_at(rt, &exchange.how, &how, case);
    same_at(rt, &exchange.failed, &is_fault(how), case);
    same_at(rt, &exchange.written.as_slice(), &written, case);
}

fn is_fault(how: Served) -> bool {
    matches!(how, Served::ReadFault | Served::WriteFault { .. })
}

// The response is the same wherever the request is cut into two chunks, and also if each read gives one byte.
#[test]
fn answers_the_same_however_a_request_is_cut(rt: HostRuntime) -> io::Result<()> {
    for cut in 0..REQUEST.len() {
        same_answer_at_cut(&rt, rt.alloc(), cut);
    }
    println!(rt;
        "a request in two pieces, or a byte a read: {} cuts",
        REQUEST.len()
    )
}

fn same_answer_at_cut(rt: &impl Abort, alloc: Global, cut: usize) {
    let mut desk = open_round(rt, alloc);
    let exchange = served(alloc, &mut desk, reader_cut_at(cut));
    is_exchange(rt, &exchange, WELL, ANSWER.as_bytes(), cut);
    is_as_expected(rt, alloc, &mut desk, LISTS_H2, cut);
    drop_desk(desk);
}

// A reader that gives the request in two chunks, cut after `cut` bytes. If `cut` is 0, each read gives one byte.
fn reader_cut_at(cut: usize) -> ChunkedReader<'static> {
    ChunkedReader {
        unread: REQUEST.as_bytes(),
        chunk: cut.max(1),
        later: if cut == 0 { 1 } else { usize::MAX },
        reads: usize::MAX,
    }
}

// A request that ends too early is refused and changes nothing. If no byte arrives, nothing is written.
#[test]
fn refuses_each_incomplete_request(rt: HostRuntime) -> io::Result<()> {
    let mut desk = open_round(&rt, rt.alloc());
    is_as_expected(&rt, rt.alloc(), &mut desk, NO_LIST, 0);
    for len in 0..REQUEST.len() {
        prefix_is_refused(&rt, rt.alloc(), &mut desk, &REQUEST.as_bytes()[..len]);
    }
    drop_desk(desk);
    println!(rt; "a request that ends too early: {} cuts", REQUEST.len())
}

fn prefix_is_refused(rt: &impl Abort, alloc: Global, desk: &mut Desk<MemStore>, prefix: &[u8]) {
    let (how, written) = if prefix.is_empty() {
        (Served::Silent, "")
    } else {
        (REFUSED, BAD_REQUEST)
    };
    let exchange = served(alloc, desk, prefix);
    is_exchange(rt, &exchange, how, written.as_bytes(), prefix.len());
    is_as_expected(rt, alloc, desk, NO_LIST, prefix.len());
}

// If a read fails, nothing is written, and nothing changes.
#[test]
fn stops_where_a_read_fails(rt: HostRuntime) -> io::Result<()> {
    let mut desk = open_round(&rt, rt.alloc());
    is_as_expected(&rt, rt.alloc(), &mut desk, NO_LIST, 0);
    for passed in 0..REQUEST.len() {
        stops_at_read(&rt, rt.alloc(), &mut desk, passed);
    }
    drop_desk(desk);
    println!(rt; "a request whose reads fail: {} faults", REQUEST.len())
}

fn stops_at_read(rt: &impl Abort, alloc: Global, desk: &mut Desk<MemStore>, passed: usize) {
    let reader = ChunkedReader {
        unread: REQUEST.as_bytes(),
        chunk: 1,
        later: 1,
        reads: passed,
    };
    let exchange = served(alloc, desk, reader);
    is_exchange(rt, &exchange, Served::ReadFault, b"", passed);
    is_as_expected(rt, alloc, desk, NO_LIST, passed);
}

// A write fails or takes no byte, or the flush fails. Then a prefix of the response has been written, and the list
// stays recorded. This holds even if the device works again afterwards.
#[test]
fn stops_where_a_write_fails(rt: HostRuntime) -> io::Result<()> {
    for sent in 0..ANSWER.len() + 1 {
        stops_after(&rt, rt.alloc(), &ANSWER.as_bytes()[..sent]);
    }
    println!(rt;
        "an answer whose writes or flush fail, on {} devices: {} faults",
        REFUSALS.len(),
        REFUSALS.len().saturating_mul(ANSWER.len() + 1)
    )
}

// Asserts that exactly this prefix is written if the writer has room for no more. The writer refuses a write in each
// of the ways in `REFUSALS`.
fn stops_after(rt: &impl Abort, alloc: Global, prefix: &[u8]) {
    for (fails, later) in REFUSALS {
        let writer = NarrowWriter {
            written: Vec::new(alloc),
            chunk: 7,
            room: prefix.len(),
            fails,
            later,
            flushes: false,
        };
        stops_on(rt, alloc, writer, prefix);
    }
}

// Asserts that this writer takes exactly this prefix of the response, and that the list is recorded.
fn stops_on(rt: &impl Abort, alloc: Global, writer: NarrowWriter, prefix: &[u8]) {
    let sent = prefix.len();
    let mut desk = open_round(rt, alloc);
    let exchange = served_on(alloc, &mut desk, REQUEST.as_bytes(), writer);
    is_exchange(rt, &exchange, Served::WriteFault { sent }, prefix, sent);
    is_as_expected(rt, alloc, &mut desk, LISTS_H2, sent);
    drop_desk(desk);
}

// A head of 8,192 bytes without an end is refused by the read that brings its last byte. The longest request, read
// one byte at a time, takes as many reads as it has bytes.
#[test]
fn reads_up_to_the_limits_of_head_and_body(rt: HostRuntime) {
    let mut desk = open_round(&rt, rt.alloc());
    head_is_refused(&rt, rt.alloc(), &mut desk);
    longest_is_answered(&rt, rt.alloc(), &mut desk);
    drop_desk(desk);
}

fn head_is_refused(rt: &impl Abort, alloc: Global, desk: &mut Desk<MemStore>) {
    let prefix = "GET /me HTTP/1.1\r\nHost: a\r\nX: ";
    let rest = "x".repeat(alloc, 9_216).expect(rt, "memory");
    let head = format!(in alloc; "{prefix}{rest}").expect(rt, "memory");
    let reader = ChunkedReader {
        unread: head.as_bytes(),
        chunk: 8_191,
        later: 1,
        reads: usize::MAX,
    };
    let exchange = served(alloc, desk, reader);
    is_exchange(rt, &exchange, REFUSED, BAD_REQUEST.as_bytes(), 8_192);
    same(
        rt,
        &(exchange.reads, exchange.flushes),
        &(2, 1),
        "reads, flushes",
    );
}

fn longest_is_answered(rt: &impl Abort, alloc: Global, desk: &mut Desk<MemStore>) {
    let request = longest_request(rt, alloc);
    let reader = ChunkedReader {
        unread: request.as_bytes(),
        chunk: 1,
        later: 1,
        reads: usize::MAX,
    };
    let exchange = served(alloc, desk, reader);
    is_exchange(rt, &exchange, WELL, ANSWER.as_bytes(), 9_216);
    let counts = (request.len(), exchange.reads, exchange.flushes);
    same(rt, &counts, &(9_216, 9_216, 1), "bytes, reads, flushes");
}

// A request in which T1 hands in a list, with a head of 8,192 bytes and a body of 1,024.
fn longest_request(rt: &impl Abort, alloc: Global) -> String {
    let prefix = "PUT /me/choices HTTP/1.1\r\nHost: a\r\nRoom-Key: key00000000000t1\r\n\
        Content-Length: 1024\r\nX: ";
    let letters = "x"
        .repeat(alloc, 8_188usize.saturating_sub(prefix.len()))
        .expect(rt, "memory");
    let spaces = " ".repeat(alloc, 1_018).expect(rt, "memory");
    format!(in alloc; "{prefix}{letters}\r\n\r\n[\"H2\"]{spaces}").expect(rt, "memory")
}
