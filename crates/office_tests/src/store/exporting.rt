//! Tests of exports by desks in memory.
use crate::asserting::assert_same;
use crate::building::{add_person, add_room, answers, new_desk};
use office_lists::ExportKind;
use office_store::{Answer, Desk, ExportEnd, Request};
use room_types::Watched;
use sqlite::MemStore;
use std::alloc::Global;
use std::io;
use std::io::{Error, ErrorKind, Write};
use std::process::Abort;

// A writer that takes `room` bytes and then fails.
#[derive(Drop)]
struct Narrow {
    written: Vec<u8>,
    room: usize,
}

impl Write for Narrow {
    fn write(&mut self, buf: &[u8]) -> io::Result<usize> {
        if self.room == 0 {
            return Err(Error::from(ErrorKind::Other));
        }
        let len = self.room.min(buf.len());
        self.room -= len;
        self.written.extend_from_slice(&buf[..len])?;
        Ok(len)
    }

    fn flush(&mut self) -> io::Result<()> {
        Ok(())
    }
}

// Requests that add H1 and H2 and three people. E1 lives in H1. E2 and E3 have no home, and E2 has a name that needs
// quotes.
fn requests(rt: &impl Abort, alloc: Global) -> Vec<Request> {
    vec![in alloc;
        add_room(rt, alloc, "H2"),
        add_room(rt, alloc, "H1"),
        add_person(rt, alloc, "E2", "Bo, B.", "key00000000000e2", None),
        add_person(rt, alloc, "E3", "Cy Coy", "key00000000000e3", None),
        add_person(rt, alloc, "E1", "Ann Ash", "key00000000000e1", Some("H1")),
    ]
    .expect(rt, "memory")
}

// A desk that has accepted the requests of `requests`.
fn furnished(rt: &impl Abort, alloc: Global) -> Desk<MemStore> {
    let requests = requests(rt, alloc);
    let mut desk = new_desk(rt, alloc);
    for answer in &answers(rt, alloc, &mut desk, &requests) {
        assert!(rt; matches!(answer, Answer::Reply(_)));
    }
    desk
}

// Asserts that the desk exports these bytes and does not flush.
fn exports(
    rt: &impl Abort,
    alloc: Global,
    desk: &mut Desk<MemStore>,
    kind: ExportKind,
    bytes: &[u8],
) {
    let mut output = Watched::new(Vec::new(alloc));
    assert!(rt; desk.export(alloc, kind, &mut output).is_ok());
    assert_same!(rt; output.flushes(), 0);
    assert_same!(rt; output.into_inner().as_slice(), bytes);
}

#[test]
fn exports_rooms_and_people(rt: HostRuntime) {
    let alloc = rt.alloc();
    let mut desk = furnished(&rt, alloc);
    for (kind, bytes) in [
        (
            ExportKind::Rooms,
            b"room,state,tenant\nH1,occupied,E1\nH2,free,\n".as_slice(),
        ),
        (
            ExportKind::People,
            b"person,name,home\nE1,Ann Ash,H1\nE2,\"Bo, B.\",\nE3,Cy Coy,\n".as_slice(),
        ),
        (ExportKind::Moves, b"round,wave,person,from,to\n".as_slice()),
        (
            ExportKind::Grades,
            b"person,grade\nE1,0\nE2,0\nE3,0\n".as_slice(),
        ),
    ] {
        exports(&rt, alloc, &mut desk, kind, bytes);
    }
}

// The exports of the moves and the grades of an empty office consist only of the header.
#[test]
fn exports_an_empty_office(rt: HostRuntime) {
    let alloc = rt.alloc();
    let mut desk = new_desk(&rt, alloc);
    let header = b"round,wave,person,from,to\n";
    exports(&rt, alloc, &mut desk, ExportKind::Moves, header);
    let header = b"person,grade\n";
    exports(&rt, alloc, &mut desk, ExportKind::Grades, header);
}

// Exports the rooms to a writer that takes 20 bytes. Asserts that the export fails and reports 20 bytes.
fn fills_a_writer(rt: &impl Abort, alloc: Global, desk: &mut Desk<MemStore>) {
    let mut output = Watched::new(Narrow {
        written: Vec::new(alloc),
        room: 20,
    });
    let end = desk.export(alloc, ExportKind::Rooms, &mut output);
    assert!(rt; end == Err(ExportEnd::Fault { sent: 20 }) && output.failed());
    assert_same!(rt;
        output.into_inner().written.as_slice(),
        b"room,state,tenant\nH1".as_slice()
    );
}

// The writer fails after 20 bytes, and the desk still works afterwards.
#[test]
fn reports_how_much_was_sent(rt: HostRuntime) {
    let alloc = rt.alloc();
    let mut desk = furnished(&rt, alloc);
    fills_a_writer(&rt, alloc, &mut desk);
    let rooms = b"room,state,tenant\nH1,occupied,E1\nH2,free,\n";
    exports(&rt, alloc, &mut desk, ExportKind::Rooms, rooms);
}
