//! Tests of serving a connection over a real socket, with both ends in this process.
use super::{ANSWER, REQUEST, WELL, drop_desk, open_round, read_whole};
use crate::asserting::assert_same;
use office_store::Desk;
use resident_http::{Served, serve_one};
use room_types::{Stream, Watched};
use sqlite::MemStore;
use std::alloc::Global;
use std::io::Write;
use std::net::{TcpListener, TcpStream};
use std::process::Abort;

#[test]
fn answers_over_a_socket(rt: HostRuntime) {
    let listener = TcpListener::bind(&rt, "127.0.0.1:0").expect(&rt, "a port");
    let address = listener.local_addr().expect(&rt, "an address");
    let mut resident = TcpStream::connect(&rt, address).expect(&rt, "a connection");
    let mut desk = open_round(&rt, rt.alloc());
    is_answered(&rt, rt.alloc(), &mut desk, &listener, &mut resident);
    drop_desk(desk);
}

// Serves the resident whose connection waits at the listener. Asserts that the resident gets the response.
fn is_answered(
    rt: &impl Abort,
    alloc: Global,
    desk: &mut Desk<MemStore>,
    listener: &TcpListener,
    resident: &mut TcpStream,
) {
    resident
        .write_all(REQUEST.as_bytes())
        .expect(rt, "a request");
    let (socket, _) = listener.accept().expect(rt, "a connection");
    assert_same!(rt; served_on(alloc, desk, socket), WELL);
    let answer = read_whole(rt, alloc, resident);
    assert_same!(rt; answer.as_slice(), ANSWER.as_bytes());
}

// Serves a connection on this stream and drops the stream. Returns how serving ended.
fn served_on<T: Stream + Drop>(alloc: Global, desk: &mut Desk<MemStore>, stream: T) -> Served {
    let mut stream = Watched::new(stream);
    let how = serve_one(alloc, desk, &mut stream);
    drop(stream.into_inner());
    how
}
