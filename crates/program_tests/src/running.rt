//! Runs of the program with some words, and the files that they need.
use crate::asserting::same_of;
use office_cli::carry_out;
use room_types::Watched;
use sqlite::Connection;
use std::process::Abort;
use std::test::Fail;
use std::{fs, io};

/// Creates an empty folder. First removes any folder of this name.
pub fn make_folder(rt: &HostRuntime, folder: &str) -> io::Result<()> {
    let _ = fs::remove_dir_all(rt, folder);
    fs::create_dir(rt, folder)
}

/// Executes these statements on the database in the file at this path.
pub fn execute(rt: &HostRuntime, path: &str, statements: &str) -> Result<(), Fail> {
    let mut connection = Connection::open(rt, path)?;
    connection.execute_batch(statements)?;
    Ok(())
}

/// Runs the program with these words and this standard input. Asserts the status, the output and the text on standard
/// error.
pub fn assert_line(
    test: &impl Abort,
    rt: &HostRuntime,
    words: &[&str],
    input: &str,
    wanted: (u8, &str, &str),
) {
    let (status, printed, reported) = run_program(rt, words, input);
    let (wanted_status, wanted_printed, wanted_report) = wanted;
    same_of(
        test,
        words,
        &(status, printed.as_slice(), reported.as_slice()),
        &(
            wanted_status,
            wanted_printed.as_bytes(),
            wanted_report.as_bytes(),
        ),
    );
}

// Runs the program with these words. Returns the status, the output and the text on standard error.
fn run_program(rt: &HostRuntime, words: &[&str], input: &str) -> (u8, Vec<u8>, Vec<u8>) {
    let mut input = Watched::new(input.as_bytes());
    let mut output = Watched::new(Vec::new(rt.alloc()));
    let mut error = Watched::new(Vec::new(rt.alloc()));
    let status = carry_out(rt, words, &mut input, &mut output, &mut error);
    (status, output.into_inner(), error.into_inner())
}
