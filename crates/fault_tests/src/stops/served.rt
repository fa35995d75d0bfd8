//! Tests of a server whose log stops working at each of its calls in turn, while residents hand in lists. Once a fault
//! has closed the desk's connection, the server accepts no further connection and ends. It never ends as if it had
//! served all while its desk is closed.
ghost use Rattle.std.specs.Prelude.{◌≡◌, false, ⊤};

use crate::asking::parse_requests;
use crate::stops::files::{Calls, Held, StoppingFile, files_of};
use crate::stops::visits::{Opening, Visit, visit_files};
use office_store::{Desk, Unavailable};
use resident_http::server::{Listener, serve_listener};
use room_types::Watched;
use room_types::stream::Pair;
use sqlite::{Alter, Connection, Files, Options};
use std::alloc::Global;
use std::io::Write;
use std::process::Abort;

// The log is not copied into the database file meanwhile.
const OPTIONS: Options = Options {
    cache_pages: 100,
    spill_pages: 100,
    checkpoint_frames: 1_000,
    seed: 7,
};

// More calls than opening the office and storing the lists take.
const MOST_CALLS: u64 = 1_000;

// How many connections the server is to serve.
const COUNT: u32 = 3;

const REGISTER: &str = "room H1\nroom H2\nperson T1 key00000000000t1 Tim Tan\nhome T1 H1\nopen\n";

const HANDS_IN_H2: &[u8] =
    b"PUT /me/choices HTTP/1.1\r\nHost: a\r\nRoom-Key: key00000000000t1\r\nContent-Length: 6\r\n\r\n[\"H2\"]";

const STORED: &[u8] = b"HTTP/1.1 200 OK\r\n";

const UNAVAILABLE: &[u8] = b"HTTP/1.1 503 Service Unavailable\r\n";

// Residents who hand in the same list, one after another, without an end. Keeps what was written to each connection.
#[derive(Drop)]
struct Residents {
    alloc: Global,
    answers: Vec<Vec<u8>>,
}

impl Listener for Residents {
    type Stream = Pair<&'static [u8], Vec<u8>>;

    fn accept<W: Write, S: Alter>(
        &mut self,
        _printed: &Watched<W>,
        _desk: &Desk<S>,
    ) -> Option<Watched<Pair<&'static [u8], Vec<u8>>>> {
        Some(Watched::new(Pair {
            reader: HANDS_IN_H2,
            writer: Vec::new(self.alloc),
        }))
    }

    fn close<W: Write, S: Alter>(
        &mut self,
        connection: Watched<Pair<&'static [u8], Vec<u8>>>,
        _printed: &Watched<W>,
        _desk: &Desk<S>,
    )
        ensures { ⊤ }
    {
        let _ = self.answers.push(connection.into_inner().writer);
    }
}

// How a server ended: its exit status, its output, what it answered, and whether its desk's connection is open then.
#[derive(Drop)]
struct Ended {
    status: u8,
    printed: Vec<u8>,
    answers: Vec<Vec<u8>>,
    is_open: Result<bool, Unavailable>,
}

impl Ended {
    // Whether the server served all connections, and stored each list.
    fn is_whole(&self) -> bool {
        self.is_served() && are_stored(self.answers.as_slice())
    }

    // Whether the server served all connections, and its desk is open.
    fn is_served(&self) -> bool {
        matches!(self.is_open, Ok(true))
            && self.status == 0
            && self.answers.len() == COUNT as usize
            && self.printed.as_slice() == b"listening on 127.0.0.1:8080\nserved 3\n".as_slice()
    }

    // Whether the server ended at a closed desk, after the first list that it could not store.
    fn is_stopped(&self) -> bool {
        matches!(self.is_open, Ok(false))
            && self.status == 3
            && self.printed.as_slice() == b"listening on 127.0.0.1:8080\nunavailable\n".as_slice()
            && is_first_refused(self.answers.as_slice())
    }
}

fn are_stored(answers: &[Vec<u8>]) -> bool {
    answers.iter().all(|answer| answer.starts_with(STORED))
}

// Whether all lists but the last were stored, and the last was refused.
fn is_first_refused(answers: &[Vec<u8>]) -> bool {
    match answers {
        [before @ .., last] => are_stored(before) && last.starts_with(UNAVAILABLE),
        [] => false,
    }
}

// How often the server ended after the first list, after the last, and how often it served on though it refused one.
#[derive(Drop)]
struct Seen {
    after_first: u32,
    after_last: u32,
    goes_on: u32,
}

impl Seen {
    fn count(&mut self, ended: &Ended) {
        if ended.is_served() {
            self.goes_on = self.goes_on.saturating_add(1);
        } else if ended.answers.len() == 1 {
            self.after_first = self.after_first.saturating_add(1);
        } else if ended.answers.len() == COUNT as usize {
            self.after_last = self.after_last.saturating_add(1);
        }
    }

    fn is_each(&self) -> bool {
        self.after_first > 0 && self.after_last > 0 && self.goes_on > 0
    }
}

#[test]
fn a_server_ends_once_its_desk_is_closed(rt: HostRuntime) {
    let held = office_held(rt.alloc()).expect(&rt, "no office is made");
    let mut seen = Seen {
        after_first: 0,
        after_last: 0,
        goes_on: 0,
    };
    for passed in 0..MOST_CALLS {
        let Some(ended) = served_with(rt.alloc(), &held, passed) else {
            continue;
        };
        assert!(rt; ended.is_served() || ended.is_stopped());
        if ended.is_whole() {
            assert!(rt; seen.is_each());
            return;
        }
        seen.count(&ended);
    }
    assert!(rt; false);
}

// The files of an office with an open round.
fn office_held(alloc: Global) -> Option<Held> {
    let files = files_of(alloc, b"", b"", Calls::ALL)?;
    let requests = parse_requests(alloc, &[REGISTER]).ok()?;
    let making = Visit {
        opening: Opening::Made,
        requests: &requests,
        is_read: false,
    };
    let (visited, files) = visit_files(alloc, files, making);
    if visited.answered < requests.len() {
        return None;
    }
    Some(Held {
        log: Vec::from_slice(alloc, files.log.inner().bytes()).ok()?,
        database: Vec::from_slice(alloc, files.db.inner().bytes()).ok()?,
    })
}

// Serves the office in these files, whose log stops after `passed` calls. Returns `None` if there is no desk.
fn served_with(alloc: Global, held: &Held, passed: u64) -> Option<Ended> {
    let calls = Calls {
        log: passed,
        database: u64::MAX,
    };
    let files = files_of(alloc, held.log.as_slice(), held.database.as_slice(), calls)?;
    served_in(alloc, files)
}

fn served_in(alloc: Global, files: Files<StoppingFile>) -> Option<Ended> {
    if !files.may_be_used() {
        return None;
    }
    match Connection::open_files(alloc, files, OPTIONS) {
        Ok(connection) => served_over(alloc, connection),
        Err(_) => None,
    }
}

fn served_over<S: Alter + Drop>(alloc: Global, connection: Connection<S>) -> Option<Ended>
    requires { connection.in_transaction ≡ false }
{
    let Ok(mut desk) = Desk::adopt(alloc, connection) else {
        return None;
    };
    let mut residents = Residents {
        alloc,
        answers: Vec::new(alloc),
    };
    let mut output = Watched::new(Vec::new(alloc));
    let status = serve_listener(alloc, &mut desk, &mut residents, 8_080, COUNT, &mut output);
    let is_open = desk.is_open();
    Some(Ended {
        status,
        printed: output.into_inner(),
        answers: residents.answers,
        is_open,
    })
}
