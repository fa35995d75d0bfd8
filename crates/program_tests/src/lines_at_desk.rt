//! Tests of single lines, which the program gets as its arguments, at a desk in memory.
use crate::asserting::same_of;
use crate::failing::FailingWriter;
use office_cli::desk_faults::refuse_desk;
use office_lines::do_line::{do_line, do_words};
use office_store::{Desk, DeskFault};
use room_types::Watched;
use sqlite::MemStore;
use std::alloc::Global;
use std::process::Abort;
use std::test::Fail;

const H1_ALONE: &str = "room      state     tenant\nH1        free      none\n";

// Words of lines, each with the status and the output. One desk handles the lines in turn.
const LINES: [(&[&str], u8, &str); 16] = [
    (&["room", "H1"], 0, "ok\n"),
    (&["room H1"], 1, "refused 4 DuplicateRoom\n"),
    (&["room", "h1"], 2, "not understood\n"),
    (&["help"], 2, "not understood\n"),
    (&["moves", "2"], 1, "refused 17 NoSuchRound\n"),
    (&["# room", "H2"], 0, ""),
    (&[""], 0, ""),
    (&["", " "], 0, ""),
    (&["room", "H2\n"], 2, "not understood\n"),
    (&["room H2\nroom H3"], 2, "not understood\n"),
    (&["\n"], 2, "not understood\n"),
    (&["rooms"], 0, H1_ALONE),
    (&["rooms\r"], 0, H1_ALONE),
    (&["rooms\r\r"], 2, "not understood\n"),
    (
        &["person", "T1", "key00000000000t1", "Tim ", " Tan"],
        0,
        "ok\n",
    ),
    (
        &["people"],
        0,
        "person        home      name\nT1            none      Tim Tan\n",
    ),
];

// Carries out the line that these words form. Asserts the status and the output.
fn assert_words(
    test: &impl Abort,
    alloc: Global,
    desk: &mut Desk<MemStore>,
    words: &[&str],
    wanted: (u8, &str),
) {
    let mut output = Watched::new(Vec::new(alloc));
    let status = do_words(alloc, desk, words, &mut output);
    let (wanted_status, printed) = wanted;
    same_of(
        test,
        words,
        &(status, output.into_inner().as_slice()),
        &(wanted_status, printed.as_bytes()),
    );
}

#[test]
fn handles_words_as_one_line(rt: HostRuntime) -> Result<(), Fail> {
    let mut desk = Desk::in_memory(rt.alloc())?;
    for (words, status, printed) in LINES {
        assert_words(&rt, rt.alloc(), &mut desk, words, (status, printed));
    }
    Ok(())
}

// A comment of 65,536 bytes is skipped, and a line with one more byte is refused. If that line also has a line feed,
// it is not understood.
#[test]
fn rejects_a_line_over_the_limit(rt: HostRuntime) -> Result<(), Fail> {
    let mut desk = Desk::in_memory(rt.alloc())?;
    let mut line = "#".repeat(rt.alloc(), 65_536)?;
    assert_words(&rt, rt.alloc(), &mut desk, &[line.as_str()], (0, ""));
    line.push_str("a")?;
    assert_words(&rt, rt.alloc(), &mut desk, &[line.as_str()], (3, ""));
    line.push_str("\n")?;
    assert_words(
        &rt,
        rt.alloc(),
        &mut desk,
        &[line.as_str()],
        (2, "not understood\n"),
    );
    Ok(())
}

// Carries out the line with a writer that takes `room` bytes and whose flush fails unless `flushes`. Asserts that the
// status is 3, that the writer failed, and that exactly this text is written.
fn assert_cut_off(
    test: &impl Abort,
    alloc: Global,
    desk: &mut Desk<MemStore>,
    line: &str,
    writer: (usize, bool),
    sent: &str,
) {
    let (room, flushes) = writer;
    let mut output = Watched::new(FailingWriter {
        written: Vec::new(alloc),
        writes: usize::MAX,
        room,
        flushes,
    });
    let status = do_line(alloc, desk, line.as_bytes(), &mut output);
    let failed = output.failed();
    same_of(
        test,
        &[line],
        &(status, failed, output.into_inner().written.as_slice()),
        &(3, true, sent.as_bytes()),
    );
}

// A command takes effect even if its answer cannot be written.
#[test]
fn keeps_changes_if_the_writer_fails(rt: HostRuntime) -> Result<(), Fail> {
    let alloc = rt.alloc();
    let mut desk = Desk::in_memory(alloc)?;
    assert_cut_off(&rt, alloc, &mut desk, "room H1", (2, true), "ok");
    assert_cut_off(&rt, alloc, &mut desk, "rooms", (7, true), "room   ");
    assert_cut_off(
        &rt,
        alloc,
        &mut desk,
        "rooms",
        (usize::MAX, false),
        H1_ALONE,
    );
    assert_words(&rt, alloc, &mut desk, &["rooms"], (0, H1_ALONE));
    Ok(())
}

// Faults of opening a desk, each with the status and the output.
const FAULTS: [(DeskFault, u8, &str); 5] = [
    (DeskFault::Unavailable, 3, "unavailable\n"),
    (DeskFault::NotAnOffice, 1, "refused 21 NotAnOffice\n"),
    (DeskFault::OtherVersion(9), 1, "refused 22 OtherVersion 9\n"),
    (
        DeskFault::OtherVersion(-1),
        1,
        "refused 22 OtherVersion -1\n",
    ),
    (DeskFault::AlreadyThere, 1, "refused 23 AlreadyThere\n"),
];

#[test]
fn reports_why_there_is_no_desk(rt: HostRuntime) {
    for (fault, status, printed) in FAULTS {
        assert_refused(&rt, rt.alloc(), fault, status, printed);
    }
}

fn assert_refused(test: &impl Abort, alloc: Global, fault: DeskFault, status: u8, printed: &str) {
    let mut output = Watched::new(Vec::new(alloc));
    let ended = refuse_desk(alloc, fault, &mut output);
    same_of(
        test,
        &[printed],
        &(ended, output.into_inner().as_slice()),
        &(status, printed.as_bytes()),
    );
}
