//! Tests of how often the program opens, reads and closes an office file, a list and a port. The file is a database
//! in memory. The list and the port are stand-ins that count calls.
ghost use Rattle.std.specs.Prelude.{◌≡◌, false, IfOk, ⊤};

use crate::asserting::assert_same;
use office_cli::carrying_out::carry_out_from;
use office_cli::lists::Lists;
use office_file::{Closes, Files};
use office_store::{Desk, Unavailable};
use resident_http::server::{Listener, Ports};
use room_types::Watched;
use room_types::stream::Pair;
use sqlite::{Alter, Connection, MemStore};
use std::alloc::Global;
use std::io::Write;
use std::test::Fail;

const OFFICE: &str = "office.db";

const INPUT: &str = "room H1\nroom L1\n";

// One file, which the first call of `open` creates. `connection` is `None` while the file is open. The file counts
// how often it was opened and closed.
#[derive(Drop)]
struct OneFile {
    is_made: bool,
    connection: Option<Connection<MemStore>>,
    opened: u32,
    closed: u32,
}

impl OneFile {
    // Takes the connection. Fails if the path is another one, the file is open already, or its connection is inside a
    // transaction.
    fn take(&mut self, path: &str) -> Result<Connection<MemStore>, Unavailable>
        ensures { IfOk result (λ connection. connection.in_transaction ≡ false) }
    {
        if path != OFFICE {
            return Err(Unavailable);
        }
        let Some(connection) = self.connection.take() else {
            return Err(Unavailable);
        };
        let outside = connection.is_autocommit();
        if !outside {
            return Err(Unavailable);
        }
        self.opened = self.opened.saturating_add(1);
        Ok(connection)
    }
}

impl Files<MemStore> for OneFile {
    fn open(&mut self, path: &str) -> Result<Connection<MemStore>, Unavailable> {
        self.is_made = self.is_made || path == OFFICE;
        self.take(path)
    }

    fn open_present(&mut self, path: &str) -> Result<Connection<MemStore>, Unavailable> {
        if !self.is_made {
            return Err(Unavailable);
        }
        self.take(path)
    }
}

impl Closes<Connection<MemStore>> for OneFile {
    fn close(&mut self, connection: Connection<MemStore>)
        ensures { ⊤ }
    {
        self.closed = self.closed.saturating_add(1);
        self.connection = Some(connection);
    }
}

// A list of two rooms, at one path. Counts the calls of `open` and of `close`, and the reads of the closed lists.
#[derive(Drop)]
struct OneList {
    asked: u32,
    closed: u32,
    reads: u64,
}

impl Lists for OneList {
    type List = &'static [u8];

    fn open(&mut self, path: &str) -> Result<Watched<&'static [u8]>, Unavailable> {
        self.asked = self.asked.saturating_add(1);
        if path == "rooms.csv" {
            Ok(Watched::new(b"room\nH1\nH2\n".as_slice()))
        } else {
            Err(Unavailable)
        }
    }

    fn close(&mut self, list: Watched<&'static [u8]>)
        ensures { ⊤ }
    {
        self.closed = self.closed.saturating_add(1);
        self.reads = self.reads.saturating_add(list.reads());
    }
}

// A port at which no connection can be accepted. Counts the successful calls of `listen` and the calls of `stop`, and
// adds up the calls of `accept` at sockets that were stopped.
#[derive(Drop)]
struct OnePort {
    listened: u32,
    asked: u32,
    stopped: u32,
}

// A socket of the port, which counts the calls of `accept`.
#[derive(Drop)]
struct OneSocket {
    asked: u32,
}

impl Listener for OneSocket {
    type Stream = Pair<&'static [u8], Vec<u8>>;

    fn accept<W: Write, S: Alter>(
        &mut self,
        _printed: &Watched<W>,
        _desk: &Desk<S>,
    ) -> Option<Watched<Pair<&'static [u8], Vec<u8>>>> {
        self.asked = self.asked.saturating_add(1);
        None
    }

    fn close<W: Write, S: Alter>(
        &mut self,
        connection: Watched<Pair<&'static [u8], Vec<u8>>>,
        _printed: &Watched<W>,
        _desk: &Desk<S>,
    )
        ensures { ⊤ }
    {
        drop(connection);
    }
}

impl Ports for OnePort {
    type Socket = OneSocket;

    fn listen(&mut self, port: u16) -> Result<OneSocket, Unavailable> {
        if port != 8080 {
            return Err(Unavailable);
        }
        self.listened = self.listened.saturating_add(1);
        Ok(OneSocket { asked: 0 })
    }

    fn stop(&mut self, socket: OneSocket)
        ensures { ⊤ }
    {
        self.asked = self.asked.saturating_add(socket.asked);
        self.stopped = self.stopped.saturating_add(1);
    }
}

// Runs of the program in turn, each with `INPUT` as its standard input. Each has its status, its output, and how often
// the program opens and closes the file.
const LINES: [(&[&str], u8, &str, u32); 20] = [
    (&["do", "--db", OFFICE, "rooms"], 3, "unavailable\n", 0),
    (&["new", "--db", "other.db"], 3, "unavailable\n", 0),
    (&["export", "--db", OFFICE, "rooms"], 3, "unavailable\n", 0),
    (&["migrate", "--db", OFFICE], 3, "unavailable\n", 0),
    (&["lines", "--db", OFFICE], 3, "unavailable\n", 0),
    (&["new", "--db", OFFICE], 0, "ok\n", 1),
    (&["new", "--db", OFFICE], 1, "refused 23 AlreadyThere\n", 1),
    (
        &["migrate", "--db", OFFICE],
        1,
        "refused 22 OtherVersion 3\n",
        1,
    ),
    (&["do", "--db", OFFICE, "room", "V"], 0, "ok\n", 1),
    (
        &["do", "--db", OFFICE, "room", "V"],
        1,
        "refused 4 DuplicateRoom\n",
        1,
    ),
    (&["do", "--db", OFFICE, "help"], 2, "not understood\n", 1),
    (
        &["import", "--db", OFFICE, "rooms", "r-1", "missing.csv"],
        3,
        "unavailable\n",
        1,
    ),
    (
        &["import", "--db", OFFICE, "rooms", "r-1", "rooms.csv"],
        0,
        "added 2\n",
        1,
    ),
    (
        &["serve", "--db", OFFICE, "--port", "80", "--count", "2"],
        3,
        "unavailable\n",
        1,
    ),
    (
        &["serve", "--db", OFFICE, "--port", "8080", "--count", "2"],
        0,
        "listening on 127.0.0.1:8080\nserved 2\n",
        1,
    ),
    (
        &["export", "--db", OFFICE, "rooms"],
        0,
        "room,state,tenant\nH1,free,\nH2,free,\nV,free,\n",
        1,
    ),
    (
        &["lines", "--db", OFFICE],
        1,
        "refused 4 DuplicateRoom\nok\n",
        1,
    ),
    (
        &["export", "--db", OFFICE, "rooms"],
        0,
        "room,state,tenant\nH1,free,\nH2,free,\nL1,free,\nV,free,\n",
        1,
    ),
    (&["do", "--db", "other.db", "rooms"], 3, "unavailable\n", 0),
    (&["rehearse"], 0, "ok\nok\n", 0),
];

// Runs the program and returns its status and its output.
fn run_program(
    alloc: Global,
    words: &[&str],
    files: &mut OneFile,
    lists: &mut OneList,
    ports: &mut OnePort,
) -> (u8, Vec<u8>) {
    let mut input = Watched::new(INPUT.as_bytes());
    let mut output = Watched::new(Vec::new(alloc));
    let mut error = Watched::new(Vec::new(alloc));
    let status = carry_out_from(
        alloc,
        words,
        files,
        lists,
        ports,
        &mut input,
        &mut output,
        &mut error,
    );
    (status, output.into_inner())
}

#[test]
fn opens_and_closes_the_file_at_most_once_a_run(rt: HostRuntime) -> Result<(), Fail> {
    let mut files = OneFile {
        is_made: false,
        connection: Some(Connection::open_in_memory(rt.alloc())?),
        opened: 0,
        closed: 0,
    };
    let mut lists = OneList {
        asked: 0,
        closed: 0,
        reads: 0,
    };
    let mut ports = OnePort {
        listened: 0,
        asked: 0,
        stopped: 0,
    };
    for (words, status, printed, times) in LINES {
        let before = (files.opened, files.closed);
        let (ended, text) = run_program(rt.alloc(), words, &mut files, &mut lists, &mut ports);
        assert_same!(rt; ended, status, printed);
        assert_same!(rt; text.as_slice(), printed.as_bytes());
        assert_same!(rt; files.opened.saturating_sub(before.0), times, printed);
        assert_same!(rt; files.closed.saturating_sub(before.1), times, printed);
    }
    assert_same!(rt; (lists.asked, lists.closed, lists.reads), (2, 1, 2));
    assert_same!(rt; (ports.listened, ports.asked, ports.stopped), (1, 2, 1));
    Ok(())
}
