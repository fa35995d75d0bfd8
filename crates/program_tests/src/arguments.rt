//! Tests of the arguments after the program's name, and of rehearsals.
use crate::asserting::assert_same;
use crate::failing::FailingReader;
use crate::running::assert_line;
use office_cli::{Program, WordFault, carry_out, program, words_to_command};
use office_core::{Command, Query};
use office_store::Request;
use room_types::Watched;
use std::alloc::Global;

// Standard inputs of a rehearsal, each with the status and the output.
const REHEARSALS: [(&str, u8, &str); 4] = [
    ("", 0, ""),
    ("rooms\n", 0, "room      state     tenant\n"),
    ("moves 1\n", 1, "refused 17 NoSuchRound\n"),
    (
        "room h1\nmoves 1\n",
        2,
        "not understood\nrefused 17 NoSuchRound\n",
    ),
];

// The program exits with the status of the rehearsal.
#[test]
fn exits_with_the_status_of_a_rehearsal(rt: HostRuntime) {
    for (input, status, printed) in REHEARSALS {
        assert_line(&rt, &rt, &["rehearse"], input, (status, printed, ""));
    }
}

#[test]
fn fails_if_standard_input_fails(rt: HostRuntime) {
    let mut input = Watched::new(FailingReader {
        unread: b"rooms\nrooms\n".as_slice(),
        chunk: 6,
        reads: 1,
    });
    let mut output = Watched::new(Vec::new(rt.alloc()));
    let mut error = Watched::new(Vec::new(rt.alloc()));
    assert_same!(rt; carry_out(&rt, &[], &mut input, &mut output, &mut error), 3);
    assert_same!(rt; output.into_inner().as_slice(), b"room      state     tenant\n".as_slice());
}

#[test]
fn fails_if_standard_error_fails(rt: HostRuntime) {
    let mut input = Watched::new(b"".as_slice());
    let mut output = Watched::new(Vec::new(rt.alloc()));
    let mut closed = [0; 0];
    let mut error = Watched::new(closed.as_mut_slice());
    assert_same!(rt; carry_out(&rt, &["help"], &mut input, &mut output, &mut error), 3);
    assert!(rt; error.failed());
}

#[test]
fn parses_arguments(rt: HostRuntime) {
    let alloc = rt.alloc();
    assert_same!(rt; matches!(program(alloc, &["rehearse"]), Ok(Program::Rehearse)), true);
    assert_same!(rt; asks_for_rooms(alloc, &["rooms"]), true);
    assert_same!(rt; adds_h1(alloc, &["room", "H1"]), true);
    assert_same!(rt; is_not_understood(alloc, &["room", "-"]), true);
}

fn asks_for_rooms(alloc: Global, words: &[&str]) -> bool {
    matches!(
        words_to_command(alloc, words),
        Ok(Request::Ask(Query::Rooms))
    )
}

fn adds_h1(alloc: Global, words: &[&str]) -> bool {
    match &words_to_command(alloc, words) {
        Ok(Request::Office(Command::AddRoom { room })) => room.as_str() == "H1",
        _ => false,
    }
}

fn is_not_understood(alloc: Global, words: &[&str]) -> bool {
    matches!(
        words_to_command(alloc, words),
        Err(WordFault::NotUnderstood)
    )
}
