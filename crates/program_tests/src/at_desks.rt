//! Tests of desks that handle the requests of a script in one call: their answers, the office that they leave, and the
//! office that another desk adopts.
use crate::asserting::same;
use crate::exports::YEAR;
use crate::register::REGISTER;
use crate::scripts::{rehearsed, rehearsed_at, script_lines};
use office_lines::render::{refusal_text, reply_text};
use office_lines::{ParsedLine, parse_line};
use office_store::{Answer, Desk, Request};
use room_types::OutOfMemory;
use sqlite::MemStore;
use std::alloc::{AllocError, Global};
use std::test::Fail;

// Lines that show the rooms, the people, the round, the order, the results and the moves of the first round.
const QUERIES: &str = "rooms\npeople\nround\norder\nresults\nmoves 1\n";

// Handles the requests of the lines at a desk in one call. Returns whether the answers are what a rehearsal of the
// lines prints, apart from lines `not understood`, and the desk shows the same office as the rehearsal. A desk that
// adopts the database has to show that office too.
fn agrees_in_batch(alloc: Global, lines: &str) -> Result<bool, Fail> {
    let (_, text) = rehearsed(alloc, lines.as_bytes());
    let requests = parse_requests(alloc, lines)?;
    let mut desk = Desk::in_memory(alloc)?;
    let answers = desk.handle_all(alloc, &requests)?;
    let printed = answers_text(alloc, &answers)?;
    let stored = shown(alloc, &mut desk);
    let whole = answers.len() == requests.len()
        && printed.as_bytes() == without_misunderstood_lines(alloc, &text)?.as_slice()
        && is_shown_after(alloc, lines, &stored)?;
    match Desk::adopt(alloc, desk.release()) {
        Ok(mut found) => Ok(whole && shown(alloc, &mut found).as_slice() == stored.as_slice()),
        Err(_back) => Ok(false),
    }
}

// Parses the lines and returns their requests. Skips lines that are no request.
fn parse_requests(alloc: Global, lines: &str) -> Result<Vec<Request>, Fail> {
    let mut requests = Vec::new(alloc);
    for line in lines.lines() {
        if let ParsedLine::Valid(request) = parse_line(alloc, line.as_bytes())? {
            requests.push(request)?;
        }
    }
    Ok(requests)
}

/// Returns the output of a rehearsal at the desk whose lines query the rooms, the people, the round, the order, the
/// results and the moves of the first round.
pub fn shown(alloc: Global, desk: &mut Desk<MemStore>) -> Vec<u8> {
    let (_, text) = rehearsed_at(alloc, desk, QUERIES.as_bytes());
    text
}

/// Rehearses the lines, and then the queries that `shown` makes. Returns whether the output ends with the text
/// `stored`, and this text is not empty.
pub fn is_shown_after(alloc: Global, lines: &str, stored: &[u8]) -> Result<bool, Fail> {
    let mut all = String::from_str(alloc, lines)?;
    all.push_str(QUERIES)?;
    let (_, text) = rehearsed(alloc, all.as_bytes());
    Ok(!stored.is_empty() && text.as_slice().ends_with(stored))
}

// The printed text of the answers.
fn answers_text(alloc: Global, answers: &[Answer]) -> Result<String, OutOfMemory> {
    let mut text = String::new(alloc);
    for answer in answers {
        let lines = match answer {
            Answer::Reply(reply) => reply_text(alloc, reply)?,
            Answer::Refused(refusal) => refusal_text(alloc, refusal)?,
            Answer::Unavailable => String::from_str(alloc, "unavailable\n")?,
        };
        text.push_str(lines.as_str())?;
    }
    Ok(text)
}

// The text except its lines `not understood`.
fn without_misunderstood_lines(alloc: Global, text: &[u8]) -> Result<Vec<u8>, AllocError> {
    let mut rest = Vec::new(alloc);
    for line in text.split_inclusive(|byte| *byte == b'\n') {
        if line != b"not understood\n".as_slice() {
            rest.extend_from_slice(line)?;
        }
    }
    Ok(rest)
}

#[test]
fn handles_the_requests_of_lines_in_one_call(rt: HostRuntime) -> Result<(), Fail> {
    let alloc = rt.alloc();
    let register = script_lines(alloc, &REGISTER)?;
    for lines in [register.as_str(), YEAR] {
        same(&rt, &agrees_in_batch(alloc, lines)?, &true, lines);
    }
    Ok(())
}
