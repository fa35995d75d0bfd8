//! Tests of serving residents over scripted connections, and over a socket.
ghost use Rattle.std.specs.Prelude.{⊤};

use crate::asserting::assert_same;
use crate::desk::{drop_desk, read_whole};
use office_lines::do_line::do_line;
use office_store::Desk;
use resident_http::server::{Listener, serve_listener};
use room_types::Watched;
use room_types::stream::Pair;
use sqlite::{Alter, MemStore};
use std::alloc::Global;
use std::io::Write;
use std::net::{Ipv4Addr, Shutdown, SocketAddr, TcpListener, TcpStream};
use std::process::Abort;

// A script of connections. Each has the bytes to read from it, or is `None` if accepting it fails. The script keeps
// what was written to the closed connections.
#[derive(Drop)]
struct Script<'a> {
    coming: &'a [Option<&'a [u8]>],
    alloc: Global,
    written: Vec<Vec<u8>>,
}

impl<'a> Script<'a> {
    fn new(alloc: Global, coming: &'a [Option<&'a [u8]>]) -> Self {
        Script {
            coming,
            alloc,
            written: Vec::new(alloc),
        }
    }
}

impl<'a> Listener for Script<'a> {
    type Stream = Pair<&'a [u8], Vec<u8>>;

    fn accept<W: Write, S: Alter>(
        &mut self,
        _printed: &Watched<W>,
        _desk: &Desk<S>,
    ) -> Option<Watched<Pair<&'a [u8], Vec<u8>>>> {
        match self.coming {
            [Some(text), rest @ ..] => {
                self.coming = rest;
                Some(Watched::new(Pair {
                    reader: *text,
                    writer: Vec::new(self.alloc),
                }))
            }
            [None, rest @ ..] => {
                self.coming = rest;
                None
            }
            [] => None,
        }
    }

    fn close<W: Write, S: Alter>(
        &mut self,
        connection: Watched<Pair<&'a [u8], Vec<u8>>>,
        _printed: &Watched<W>,
        _desk: &Desk<S>,
    )
        ensures { ⊤ }
    {
        let _ = self.written.push(connection.into_inner().writer);
    }
}

const HANDS_IN_H2: &[u8] =
    b"PUT /me/choices HTTP/1.1\r\nHost: a\r\nRoom-Key: key00000000000t1\r\nContent-Length: 6\r\n\r\n[\"H2\"]";

const H2_IS_RECORDED: &[u8] = b"HTTP/1.1 200 OK\r\nContent-Type: application/json\r\n\
    Content-Length: 18\r\nConnection: close\r\n\r\n{\"choices\":[\"H2\"]}";

const WITHDRAWS: &[u8] =
    b"POST /me/withdraw HTTP/1.1\r\nHost: a\r\nRoom-Key: key00000000000t1\r\n\r\n";

const COMING: [Option<&[u8]>; 5] = [
    Some(HANDS_IN_H2),
    None,
    Some(b""),
    Some(WITHDRAWS),
    Some(HANDS_IN_H2),
];

const TIM_TAN: &[u8] =
    b"person T1\nname Tim Tan\nhome H1\nround 1 open\nchoices H2\nwithdrawn yes\ngoing no\nresult hidden\n";

// The printed answer of the office to this line.
fn printed(alloc: Global, desk: &mut Desk<MemStore>, line: &str) -> Vec<u8> {
    let mut output = Watched::new(Vec::new(alloc));
    do_line(alloc, desk, line.as_bytes(), &mut output);
    output.into_inner()
}

// Asserts that this is the printed answer of the office to the line.
fn is_printed(
    rt: &impl Abort,
    alloc: Global,
    desk: &mut Desk<MemStore>,
    line: &str,
    wanted: &[u8],
) {
    let printed = printed(alloc, desk, line);
    assert_same!(rt; printed.as_slice(), wanted, line);
}

// A desk with an open round, in whose register Tim Tan is the only person.
fn open_desk(rt: &impl Abort, alloc: Global) -> Desk<MemStore> {
    let mut desk = Desk::in_memory(alloc).expect(rt, "a desk in memory");
    for line in [
        "room H1",
        "room H2",
        "person T1 key00000000000t1 Tim Tan",
        "home T1 H1",
        "open",
    ] {
        let _printed = printed(alloc, &mut desk, line);
    }
    desk
}

// How a server ended: its exit status, the number of times that it flushed its output, and the output.
#[derive(Drop)]
struct Ended {
    status: u8,
    flushes: u64,
    printed: Vec<u8>,
}

fn served<L: Listener>(
    alloc: Global,
    desk: &mut Desk<MemStore>,
    listener: &mut L,
    port: u16,
    count: u32,
) -> Ended {
    let mut output = Watched::new(Vec::new(alloc));
    let status = serve_listener(alloc, desk, listener, port, count, &mut output);
    let flushes = output.flushes();
    Ended {
        status,
        flushes,
        printed: output.into_inner(),
    }
}

#[test]
fn serves_each_connection_in_turn(rt: HostRuntime) {
    let alloc = rt.alloc();
    let mut desk = open_desk(&rt, alloc);
    let mut listener = Script::new(alloc, &COMING);
    let ended = served(alloc, &mut desk, &mut listener, 8080, 4);
    served_four(&rt, &ended);
    are_written(&rt, &listener.written);
    is_printed(&rt, alloc, &mut desk, "me key00000000000t1", TIM_TAN);
    drop_desk(desk);
}

fn served_four(rt: &impl Abort, ended: &Ended) {
    assert_same!(rt; ended.status, 0);
    assert_same!(rt; ended.flushes, 2);
    assert_same!(rt;
        ended.printed.as_slice(),
        b"listening on 127.0.0.1:8080\nserved 4\n".as_slice()
    );
}

// Asserts that three connections were closed. The first has to have got the response that H2 is recorded, and the
// second nothing.
fn are_written(rt: &impl Abort, written: &[Vec<u8>]) {
    assert_same!(rt; written.len(), 3);
    assert_same!(rt;
        written.first().map(|bytes| bytes.as_slice()),
        Some(H2_IS_RECORDED)
    );
    assert_same!(rt; written.get(1).map(|bytes| bytes.len()), Some(0));
}

// If the server cannot print that it listens, it accepts no connection.
#[test]
fn serves_nobody_if_output_fails(rt: HostRuntime) {
    let alloc = rt.alloc();
    let mut desk = open_desk(&rt, alloc);
    let mut listener = Script::new(alloc, &[Some(WITHDRAWS)]);
    assert_same!(rt;
        served_without_output(alloc, &mut desk, &mut listener),
        (3, true)
    );
    assert_same!(rt; listener.coming.len(), 1);
    is_printed(
        &rt,
        alloc,
        &mut desk,
        "round",
        b"round 1 open people 1 withdrawn 0\n",
    );
    drop_desk(desk);
}

// Serves with an output that takes no bytes. Returns the exit status, and whether the output failed.
fn served_without_output<L: Listener>(
    alloc: Global,
    desk: &mut Desk<MemStore>,
    listener: &mut L,
) -> (u8, bool) {
    let mut closed = [0; 0];
    let mut output = Watched::new(closed.as_mut_slice());
    let status = serve_listener(alloc, desk, listener, 8080, 1, &mut output);
    (status, output.failed())
}

// The server accepts a connection that already waits in the system's queue.
#[test]
fn serves_over_a_socket(rt: HostRuntime) {
    let place = SocketAddr::from((Ipv4Addr::LOCALHOST, 0));
    let mut listener = TcpListener::bind(&rt, place).expect(&rt, "a port");
    let address = listener.local_addr().expect(&rt, "an address");
    let mut resident = TcpStream::connect(&rt, address).expect(&rt, "a connection");
    let mut desk = open_desk(&rt, rt.alloc());
    hands_in(&rt, &mut resident);
    let ended = served(rt.alloc(), &mut desk, &mut listener, 1, 1);
    assert_same!(rt; ended.status, 0);
    is_recorded(&rt, rt.alloc(), &mut resident);
    drop_desk(desk);
}

// The resident sends a list and then shuts down the sending side.
fn hands_in(rt: &impl Abort, resident: &mut TcpStream) {
    resident.write_all(HANDS_IN_H2).expect(rt, "a request");
    resident.shutdown(Shutdown::Write).expect(rt, "an end");
}

// Asserts that the response to the resident says that the list is recorded.
fn is_recorded(rt: &impl Abort, alloc: Global, resident: &mut TcpStream) {
    let answer = read_whole(rt, alloc, resident);
    assert_same!(rt; answer.as_slice(), H2_IS_RECORDED);
}
