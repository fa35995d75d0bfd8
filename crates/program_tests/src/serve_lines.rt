//! Tests of the arguments of `rooms serve`, and of runs that end before a connection is served.
use crate::asserting::same_of;
use crate::running::{assert_line, make_folder};
use office_cli::{Program, program};
use std::alloc::Global;
use std::fs;
use std::net::{Ipv4Addr, SocketAddr, TcpListener};
use std::process::Abort;
use std::test::Fail;

// Arguments with the least and the greatest numbers and with the options in different orders, each with its port and
// count.
const LINES: [(&[&str], u16, u32); 2] = [
    (&["serve", "--db", "o", "--port", "1", "--count", "1"], 1, 1),
    (
        &["serve", "--count", "1000000", "--port=65535", "--db=o"],
        65_535,
        1_000_000,
    ),
];

#[test]
fn parses_serve_lines(rt: HostRuntime) {
    for (words, port, count) in LINES {
        same_of(&rt, words, &serves(rt.alloc(), words, port, count), &true);
    }
}

// Whether the program takes these words as a request to serve the office in `o` at this port for this number of
// connections.
fn serves(alloc: Global, words: &[&str], wanted_port: u16, wanted_count: u32) -> bool {
    match &program(alloc, words) {
        Ok(
            Program::Serve {
                database,
                port,
                count,
            },
        ) => *database == "o" && *port == wanted_port && *count == wanted_count,
        _ => false,
    }
}

// Runs the program to serve one connection, for the file at this path, at this port. Asserts the status and the
// output.
fn assert_serves_nobody(
    rt: &HostRuntime,
    test: &impl Abort,
    path: &str,
    port: &str,
    wanted: (u8, &str),
) {
    let (status, printed) = wanted;
    let words = ["serve", "--db", path, "--port", port, "--count", "1"];
    assert_line(test, rt, &words, "", (status, printed, ""));
}

const NONE: &str = "serve_none/office.db";

const MISSING: &str = "serve_none/missing";

const EMPTY: &str = "serve_none/empty";

// Without an office the program serves nobody and creates no file. With an office it serves nobody if the port is in
// use.
#[test]
fn reports_why_it_serves_nobody(rt: HostRuntime) -> Result<(), Fail> {
    make_folder(&rt, "serve_none")?;
    fs::write(&rt, EMPTY, b"".as_slice())?;
    assert_line(&rt, &rt, &["new", "--db", NONE], "", (0, "ok\n", ""));
    let listener = TcpListener::bind(&rt, SocketAddr::from((Ipv4Addr::LOCALHOST, 0)))?;
    let taken = listener.local_addr()?.port().to_string(rt.alloc())?;
    assert_serves_nobody(&rt, &rt, MISSING, taken.as_str(), (3, "unavailable\n"));
    assert_serves_nobody(
        &rt,
        &rt,
        EMPTY,
        taken.as_str(),
        (1, "refused 21 NotAnOffice\n"),
    );
    assert_serves_nobody(&rt, &rt, NONE, taken.as_str(), (3, "unavailable\n"));
    same_of(&rt, &[MISSING], &fs::exists(&rt, MISSING)?, &false);
    fs::remove_dir_all(&rt, "serve_none")?;
    Ok(())
}
