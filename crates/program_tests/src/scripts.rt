//! Rehearsals at desks in memory.
use crate::asserting::same;
use office_cli::{Ending, Rehearsed, rehearse};
use office_store::Desk;
use room_types::Watched;
use sqlite::MemStore;
use std::alloc::{AllocError, Global};
use std::process::Abort;

/// The lines of a script, each with a line feed at its end.
pub fn script_lines(alloc: Global, script: &[(&str, &str)]) -> Result<String, AllocError> {
    let mut text = String::new(alloc);
    for (line, _) in script {
        text.push_str(line)?;
        text.push_str("\n")?;
    }
    Ok(text)
}

/// The answers to the first `count` lines of a script.
pub fn script_answers(
    alloc: Global,
    script: &[(&str, &str)],
    count: usize,
) -> Result<String, AllocError> {
    let mut text = String::new(alloc);
    for (_, answer) in script.iter().take(count) {
        text.push_str(answer)?;
    }
    Ok(text)
}

/// Rehearses the input at this desk. Returns how the rehearsal ended, and its output.
pub fn rehearsed_at(
    alloc: Global,
    desk: &mut Desk<MemStore>,
    input: &[u8],
) -> (Rehearsed, Vec<u8>) {
    let mut input = Watched::new(input);
    let mut output = Watched::new(Vec::new(alloc));
    let rehearsal = rehearse(alloc, desk, &mut input, &mut output);
    (rehearsal, output.into_inner())
}

/// Rehearses the input at a new desk in memory. Returns how the rehearsal ended, and its output. If no desk can be
/// made, returns `NoMemory` and no output.
pub fn rehearsed(alloc: Global, input: &[u8]) -> (Rehearsed, Vec<u8>) {
    match Desk::in_memory(alloc) {
        Ok(mut desk) => rehearsed_at(alloc, &mut desk, input),
        Err(_) => (ended(3, Ending::NoMemory { sent: 0 }), Vec::new(alloc)),
    }
}

/// Rehearses the input at a new desk in memory. Asserts the status, the ending and the output. The note of the
/// assertion names the case.
pub fn assert_rehearsal(
    test: &impl Abort,
    alloc: Global,
    input: &[u8],
    wanted: (u8, Ending, &str),
    note: &str,
) {
    let (rehearsal, text) = rehearsed(alloc, input);
    let (status, ending, answers) = wanted;
    same(
        test,
        &(rehearsal, text.as_slice()),
        &(ended(status, ending), answers.as_bytes()),
        note,
    );
}

fn ended(status: u8, ending: Ending) -> Rehearsed {
    Rehearsed { status, ending }
}
