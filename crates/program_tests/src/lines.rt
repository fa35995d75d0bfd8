//! Tests of line ends, comments, words, long lines and long inputs.
use crate::asserting::assert_same;
use crate::scripts::assert_rehearsal;
use crate::streams::{Stopped, rehearsed_by_bytes};
use office_cli::Ending;
use std::alloc::{AllocError, Global};
use std::test::Fail;

// Inputs, each with the status and the output of its rehearsal.
const REHEARSED: [(&[u8], u8, &str); 8] = [
    (b"", 0, ""),
    (
        b"room H1\nrooms\n",
        0,
        "ok\nroom      state     tenant\nH1        free      none\n",
    ),
    (
        b"room A\r\n  room   B  \r\n\n   \n# room C\nrooms",
        0,
        "ok\nok\nroom      state     tenant\nA         free      none\nB         free      none\n",
    ),
    (b"room A\r", 0, "ok\n"),
    (b"room A\r\r\n", 2, "not understood\n"),
    (b" # rooms\n", 2, "not understood\n"),
    (
        b"rooms A\nroom\nroom A B\nRooms\n",
        2,
        "not understood\nnot understood\nnot understood\nnot understood\n",
    ),
    // Bytes that are not UTF-8.
    (b"room \xff\n#\xff\n", 2, "not understood\n"),
];

#[test]
fn parses_line_ends_and_words(rt: HostRuntime) {
    for (input, status, answers) in REHEARSED {
        let wanted = (status, Ending::Ended, answers);
        assert_rehearsal(&rt, rt.alloc(), input, wanted, answers);
    }
}

// Lines that the program does not understand. Each is an input of its own.
const NOT_UNDERSTOOD: [&str; 18] = [
    "person T1 key00000000000t1",
    "person T1 key Tim",
    "person t1 key00000000000t1 Tim",
    "home T1",
    "home T1 H1 H2",
    "leave",
    "leave T1 T2",
    "shut h1",
    "open now",
    "choose",
    "choose T1 H1 H1",
    "choose T1 h1",
    "moves",
    "moves 12345",
    "moves +1",
    "moves 1 2",
    "me key",
    "rooms 1",
];

#[test]
fn rejects_malformed_lines(rt: HostRuntime) {
    for line in NOT_UNDERSTOOD {
        let wanted = (2, Ending::Ended, "not understood\n");
        assert_rehearsal(&rt, rt.alloc(), line.as_bytes(), wanted, line);
    }
}

// A comment of `len` bytes between two texts.
fn comment(alloc: Global, before: &str, len: usize, after: &str) -> Result<String, AllocError> {
    let mut lines = "#".repeat(alloc, len)?;
    lines.insert_str(0, before)?;
    lines.push_str(after)?;
    Ok(lines)
}

// Inputs with one comment: the text before the comment, the length of the comment, and the text after it. Then the
// status, the ending and the output of the rehearsal, which handles nothing after a line over the limit.
const COMMENTS: [(&str, usize, &str, u8, Ending, &str); 4] = [
    ("", 65_536, "", 0, Ending::Ended, ""),
    (
        "",
        65_536,
        "\nrooms\n",
        0,
        Ending::Ended,
        "room      state     tenant\n",
    ),
    ("room A\n", 65_537, "", 3, Ending::ReadFault, "ok\n"),
    (
        "room A\n",
        65_537,
        "\nroom B\n",
        3,
        Ending::ReadFault,
        "ok\n",
    ),
];

#[test]
fn handles_lines_up_to_the_limit(rt: HostRuntime) -> Result<(), Fail> {
    for (before, len, after, status, ending, answers) in COMMENTS {
        let lines = comment(rt.alloc(), before, len, after)?;
        let wanted = (status, ending, answers);
        assert_rehearsal(&rt, rt.alloc(), lines.as_bytes(), wanted, after);
    }
    Ok(())
}

// The rehearsal ends with `ReadFault`, although no read has failed.
#[test]
fn stops_at_a_line_over_the_limit(rt: HostRuntime) -> Result<(), Fail> {
    let lines = comment(rt.alloc(), "room A\n", 65_537, "\nroom B\n")?;
    let stopped = rehearsed_by_bytes(rt.alloc(), lines.as_bytes())?;
    assert_same!(rt; (stopped.status, stopped.ending, stopped.failed), (3, Ending::ReadFault, false));
    Ok(())
}

// The limit counts the reads, including the read that finds the end. At the limit the rehearsal ends with
// `ReadFault`, although no read has failed.
#[test]
fn reads_an_input_up_to_the_limit(rt: HostRuntime) -> Result<(), Fail> {
    let mut lines = "#\n".repeat(rt.alloc(), 524_287)?;
    lines.push_str("#")?;
    assert_same!(rt; rehearsed_by_bytes(rt.alloc(), lines.as_bytes())?, stopped_at_limit(0, Ending::Ended));
    lines.push_str("\n")?;
    assert_same!(rt; rehearsed_by_bytes(rt.alloc(), lines.as_bytes())?, stopped_at_limit(3, Ending::ReadFault));
    Ok(())
}

fn stopped_at_limit(status: u8, ending: Ending) -> Stopped {
    Stopped {
        status,
        ending,
        failed: false,
        reads: 1_048_576,
    }
}
