//! Tests of `rooms lines`: the lines of standard input at the desk of an office in a file, with readers and writers that
//! fail. What was handled before the failure is in the file.
use crate::asserting::{same, same_at};
use crate::failing::{FailingReader, FailingWriter};
use crate::running::{assert_line, make_folder};
use office_cli::{Program, WordFault, carry_out, program};
use room_types::Watched;
use std::alloc::Global;
use std::fs;
use std::process::Abort;
use std::test::Fail;

// The lines that each test sends to an empty office, eight bytes each, and their answers.
const LINES: &str = "room H1\nroom H2\nroom H3\nroom H4\n";

const ANSWERS: &str = "ok\nok\nok\nok\n";

// What the office lists after the first of these lines, by their number.
const LISTED: [&str; 5] = [
    "room      state     tenant\n",
    "room      state     tenant\nH1        free      none\n",
    "room      state     tenant\nH1        free      none\nH2        free      none\n",
    "room      state     tenant\nH1        free      none\nH2        free      none\nH3        free      none\n",
    "room      state     tenant\nH1        free      none\nH2        free      none\nH3        free      none\nH4        free      none\n",
];

// The numbers of bytes that a read gives at most (a line, and more than a line), each with the number of reads that
// reach the end.
const CHUNKS: [(usize, usize); 2] = [(8, 5), (20, 3)];

fn good_writer(alloc: Global) -> FailingWriter {
    FailingWriter {
        written: Vec::new(alloc),
        writes: usize::MAX,
        room: usize::MAX,
        flushes: true,
    }
}

fn good_reader() -> FailingReader<'static> {
    FailingReader {
        unread: LINES.as_bytes(),
        chunk: 8,
        reads: usize::MAX,
    }
}

// Makes an empty office in the file at this path, in place of any that is there.
fn make_office(test: &impl Abort, rt: &HostRuntime, folder: &str, path: &str) -> Result<(), Fail> {
    make_folder(rt, folder)?;
    assert_line(test, rt, &["new", "--db", path], "", (0, "ok\n", ""));
    Ok(())
}

// Sends the reader's lines to a new office, and the answers to the writer. Asserts the status, the bytes written, and
// that the file then holds the rooms of the first `handled` lines. The number of the case is in the note.
fn assert_sent(
    test: &impl Abort,
    rt: &HostRuntime,
    folder: &str,
    devices: (FailingReader<'static>, FailingWriter),
    wanted: (u8, usize, usize),
    case: usize,
) -> Result<(), Fail> {
    let mut path = String::from_str(rt.alloc(), folder)?;
    path.push_str("/office.db")?;
    make_office(test, rt, folder, path.as_str())?;
    let (reader, writer) = devices;
    let (status, sent, handled) = wanted;
    let mut input = Watched::new(reader);
    let mut output = Watched::new(writer);
    let mut error = Watched::new(Vec::new(rt.alloc()));
    let words = ["lines", "--db", path.as_str()];
    let ended = carry_out(rt, &words, &mut input, &mut output, &mut error);
    let written = output.into_inner().written;
    same_at(test, &ended, &status, case);
    same_at(
        test,
        &written.as_slice(),
        &&ANSWERS.as_bytes()[..sent.min(ANSWERS.len())],
        case,
    );
    let rooms = ["do", "--db", path.as_str(), "rooms"];
    assert_line(test, rt, &rooms, "", (0, LISTED[handled.min(4)], ""));
    Ok(())
}

#[test]
fn answers_the_lines_of_its_input(rt: HostRuntime) -> Result<(), Fail> {
    make_office(&rt, &rt, "lines_answered", "lines_answered/office.db")?;
    let words = ["lines", "--db", "lines_answered/office.db"];
    assert_line(&rt, &rt, &words, "", (0, "", ""));
    let refused = "refused 4 DuplicateRoom\n";
    assert_line(
        &rt,
        &rt,
        &words,
        "room H1\n\n# H2\nroom H2",
        (0, "ok\nok\n", ""),
    );
    assert_line(&rt, &rt, &words, "room H1\n", (1, refused, ""));
    let answers = "not understood\nrefused 4 DuplicateRoom\nok\n";
    assert_line(
        &rt,
        &rt,
        &words,
        "room h1\nroom H2\nroom H3\n",
        (2, answers, ""),
    );
    assert_line(&rt, &rt, &words, "rooms\n", (0, LISTED[3], ""));
    fs::remove_dir_all(&rt, "lines_answered")?;
    Ok(())
}

// Each line that was read whole before the failed read is answered, and in the file.
#[test]
fn keeps_lines_before_a_failed_read(rt: HostRuntime) -> Result<(), Fail> {
    for (chunk, reads) in CHUNKS {
        for passed in 0..reads {
            let mut reader = good_reader();
            reader.chunk = chunk;
            reader.reads = passed;
            let whole = passed.saturating_mul(chunk).min(LINES.len()) / 8;
            let devices = (reader, good_writer(rt.alloc()));
            assert_sent(
                &rt,
                &rt,
                "lines_read",
                devices,
                (3, whole.saturating_mul(3), whole),
                passed,
            )?;
        }
    }
    fs::remove_dir_all(&rt, "lines_read")?;
    Ok(())
}

// The line whose answer could not be written is in the file, and so are those before it, but none after it.
#[test]
fn keeps_lines_before_a_failed_write(rt: HostRuntime) -> Result<(), Fail> {
    for taken in [0, 1, 3, 5, 11] {
        let mut writer = good_writer(rt.alloc());
        writer.room = taken;
        let handled = taken / 3 + 1;
        let devices = (good_reader(), writer);
        assert_sent(
            &rt,
            &rt,
            "lines_written",
            devices,
            (3, taken, handled),
            taken,
        )?;
    }
    let mut writer = good_writer(rt.alloc());
    writer.writes = 2;
    let devices = (good_reader(), writer);
    assert_sent(&rt, &rt, "lines_written", devices, (3, 6, 3), 2)?;
    fs::remove_dir_all(&rt, "lines_written")?;
    Ok(())
}

#[test]
fn keeps_all_lines_if_the_flush_fails(rt: HostRuntime) -> Result<(), Fail> {
    let mut writer = good_writer(rt.alloc());
    writer.flushes = false;
    let devices = (good_reader(), writer);
    assert_sent(&rt, &rt, "lines_flushed", devices, (3, ANSWERS.len(), 4), 0)?;
    fs::remove_dir_all(&rt, "lines_flushed")?;
    Ok(())
}

// Runs `rooms lines` on this path. Asserts the status and the output, and that no byte of the input was read.
fn assert_unread(test: &impl Abort, rt: &HostRuntime, path: &str, wanted: (u8, &str)) {
    let mut input = Watched::new(good_reader());
    let mut output = Watched::new(Vec::new(rt.alloc()));
    let mut error = Watched::new(Vec::new(rt.alloc()));
    let words = ["lines", "--db", path];
    let status = carry_out(rt, &words, &mut input, &mut output, &mut error);
    let reads = input.reads();
    let (wanted_status, printed) = wanted;
    let found = (status, reads, output.into_inner());
    same(test, &(found.0, found.1), &(wanted_status, 0), path);
    same(test, &found.2.as_slice(), &printed.as_bytes(), path);
}

// Without an office in the file, the program reads no line and makes no file.
#[test]
fn reads_nothing_without_an_office(rt: HostRuntime) -> Result<(), Fail> {
    make_folder(&rt, "lines_none")?;
    fs::write(&rt, "lines_none/empty", b"".as_slice())?;
    assert_unread(&rt, &rt, "lines_none/missing", (3, "unavailable\n"));
    assert_unread(
        &rt,
        &rt,
        "lines_none/empty",
        (1, "refused 21 NotAnOffice\n"),
    );
    assert_unread(&rt, &rt, "lines_none", (3, "unavailable\n"));
    same(
        &rt,
        &fs::exists(&rt, "lines_none/missing")?,
        &false,
        "missing",
    );
    fs::remove_dir_all(&rt, "lines_none")?;
    Ok(())
}

#[test]
fn parses_the_arguments_of_lines(rt: HostRuntime) {
    let alloc = rt.alloc();
    same(
        &rt,
        &takes_lines(alloc, &["lines", "--db", "o"]),
        &true,
        "apart",
    );
    same(
        &rt,
        &takes_lines(alloc, &["lines", "--db=o"]),
        &true,
        "joined",
    );
    same(&rt, &is_not_understood(alloc, &["lines"]), &true, "no file");
    same(
        &rt,
        &is_not_understood(alloc, &["lines", "--db", "o", "rooms"]),
        &true,
        "a line",
    );
}

// Whether the program takes these words as a request to handle lines at the office in `o`.
fn takes_lines(alloc: Global, words: &[&str]) -> bool {
    match &program(alloc, words) {
        Ok(Program::Lines { database }) => *database == "o",
        _ => false,
    }
}

fn is_not_understood(alloc: Global, words: &[&str]) -> bool {
    matches!(program(alloc, words), Err(WordFault::NotUnderstood))
}
