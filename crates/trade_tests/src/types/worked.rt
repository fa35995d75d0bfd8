//! Tests of worked values. Each has a text that a type reads, and the printed value or the error.
use crate::asserting::assert_same;
use room_types::grammars::{Keys, Labels, Names, PersonIds, RoomCodes};
use room_types::{
    Choices, Grade, Grammar, ListKind, OutOfMemory, Phase, RoomCode, State, Text, TypeFault, Word,
};
use std::alloc::{AllocError, Global};
use std::process::Abort;

// Each row has a type, a text, and the expected outcome: the printed value, or `!` and the error. One space separates
// the codes of a list.
const WORKED: &str = "\
room|H1|H1\n\
room|A|A\n\
room|Z|Z\n\
room|0|0\n\
room|9|9\n\
room|A-|A-\n\
room|A-1|A-1\n\
room|ABCDEFGH|ABCDEFGH\n\
room||!BadValue\n\
room|ABCDEFGHI|!BadValue\n\
room|-A|!BadValue\n\
room|h1|!BadValue\n\
room|H_1|!BadValue\n\
room|H 1|!BadValue\n\
room|@|!BadValue\n\
room|[|!BadValue\n\
room|/|!BadValue\n\
room|:|!BadValue\n\
room|A,|!BadValue\n\
room|A.|!BadValue\n\
person|T1|T1\n\
person|A|A\n\
person|Z|Z\n\
person|0|0\n\
person|9|9\n\
person|ABCDEFGHIJKL|ABCDEFGHIJKL\n\
person||!BadValue\n\
person|ABCDEFGHIJKLM|!BadValue\n\
person|T-1|!BadValue\n\
person|t1|!BadValue\n\
person|@|!BadValue\n\
person|[|!BadValue\n\
person|/|!BadValue\n\
person|:|!BadValue\n\
key|key00000000000t1|key00000000000t1\n\
key|aaaaaaaaaaaaaaaz|aaaaaaaaaaaaaaaz\n\
key|0000000000000009|0000000000000009\n\
key|kkkkkkkkkkkkkkkkkkkkkkkkkkkkkkkkkkkkkkkkkkkkkkkkkkkkkkkkkkkkkkkk|kkkkkkkkkkkkkkkkkkkkkkkkkkkkkkkkkkkkkkkkkkkkkkkkkkkkkkkkkkkkkkkk\n\
key|key00000000000t|!BadValue\n\
key|kkkkkkkkkkkkkkkkkkkkkkkkkkkkkkkkkkkkkkkkkkkkkkkkkkkkkkkkkkkkkkkkk|!BadValue\n\
key|KEY00000000000T1|!BadValue\n\
key|key-0000000000t1|!BadValue\n\
key|key`0000000000t1|!BadValue\n\
key|key{0000000000t1|!BadValue\n\
key|key/0000000000t1|!BadValue\n\
key|key:0000000000t1|!BadValue\n\
label|p-1|p-1\n\
label|a|a\n\
label|z|z\n\
label|0|0\n\
label|9|9\n\
label|0-|0-\n\
label|llllllllllllllllllllllllllllllll|llllllllllllllllllllllllllllllll\n\
label||!BadValue\n\
label|lllllllllllllllllllllllllllllllll|!BadValue\n\
label|-p|!BadValue\n\
label|P-1|!BadValue\n\
label|p`|!BadValue\n\
label|p{|!BadValue\n\
label|p/|!BadValue\n\
label|p:|!BadValue\n\
label|p,|!BadValue\n\
label|p.|!BadValue\n\
name|Ann Ash|Ann Ash\n\
name|x|x\n\
name|~|~\n\
name|\u{a0}|\u{a0}\n\
name|Zo\u{eb} \u{d8}|Zo\u{eb} \u{d8}\n\
name|nnnnnnnnnnnnnnnnnnnnnnnnnnnnnnnnnnnnnnnnnnnnnnnnnnnnnnnnnnnn|nnnnnnnnnnnnnnnnnnnnnnnnnnnnnnnnnnnnnnnnnnnnnnnnnnnnnnnnnnnn\n\
name||!BadValue\n\
name|nnnnnnnnnnnnnnnnnnnnnnnnnnnnnnnnnnnnnnnnnnnnnnnnnnnnnnnnnnnnn|!BadValue\n\
name|Ann  Ash|!BadValue\n\
name| Ann|!BadValue\n\
name|Ann |!BadValue\n\
name|a\u{0}b|!BadValue\n\
name|a\u{1f}b|!BadValue\n\
name|a\u{7f}|!BadValue\n\
name|a\u{80}|!BadValue\n\
name|a\u{85}b|!BadValue\n\
name|a\u{9f}|!BadValue\n\
word|00000000000000FF|00000000000000ff\n\
word|00000000000000ff|00000000000000ff\n\
word|0123456789abcdef|0123456789abcdef\n\
word|0123456789ABCDEF|0123456789abcdef\n\
word|FFFFFFFFFFFFFFFF|ffffffffffffffff\n\
word|0000000000000000|0000000000000000\n\
word||!BadValue\n\
word|00000000000000F|!BadValue\n\
word|00000000000000f|!BadValue\n\
word|00000000000000FF0|!BadValue\n\
word|00000000000000FG|!BadValue\n\
word|00000000000000f`|!BadValue\n\
word|00000000000000F@|!BadValue\n\
word|00000000000000F/|!BadValue\n\
word|00000000000000F:|!BadValue\n\
word|+0000000000000FF|!BadValue\n\
grade|0|0\n\
grade|9|9\n\
grade||!BadValue\n\
grade|10|!BadValue\n\
grade|00|!BadValue\n\
grade|/|!BadValue\n\
grade|:|!BadValue\n\
grade| 1|!BadValue\n\
grade|+1|!BadValue\n\
grade|\u{661}|!BadValue\n\
list||\n\
list|V H1|V H1\n\
list|R1 R2 R3 R4 R5 R6 R7 R8 R9 R10 R11 R12 R13 R14 R15 R16 R17 R18 R19 R20 R21 R22 R23 R24 R25 R26 R27 R28 R29 R30 R31 R32 R33 R34 R35 R36 R37 R38 R39 R40|R1 R2 R3 R4 R5 R6 R7 R8 R9 R10 R11 R12 R13 R14 R15 R16 R17 R18 R19 R20 R21 R22 R23 R24 R25 R26 R27 R28 R29 R30 R31 R32 R33 R34 R35 R36 R37 R38 R39 R40\n\
list|R1 R2 R3 R4 R5 R6 R7 R8 R9 R10 R11 R12 R13 R14 R15 R16 R17 R18 R19 R20 R21 R22 R23 R24 R25 R26 R27 R28 R29 R30 R31 R32 R33 R34 R35 R36 R37 R38 R39 R40 R41|!TooManyChoices\n\
list|R1 R2 R3 R4 R5 R6 R7 R8 R9 R10 R11 R12 R13 R14 R15 R16 R17 R18 R19 R20 R21 R22 R23 R24 R25 R26 R27 R28 R29 R30 R31 R32 R33 R34 R35 R36 R37 R38 R39 R40 R1|!TooManyChoices\n\
list|H1 V H1|!RoomRepeated H1\n\
list|H1 V X V H1|!RoomRepeated V";

// The outcome if the copy of a value differs from the value.
const OTHER_COPY: &str = "!OtherCopy";

#[test]
fn reads_and_prints_worked_values(rt: HostRuntime) -> Result<(), AllocError> {
    assert_same!(rt; WORKED.lines().count(), 113);
    for row in WORKED.lines() {
        let mut cells = row.split('|');
        let (Some(kind), Some(text), Some(wanted)) = (cells.next(), cells.next(), cells.next())
        else {
            panic!(rt; "{row} is no row");
        };
        let outcome = outcome(rt.alloc(), kind, text)?;
        assert_same!(rt; outcome.as_str(), wanted, row);
    }
    Ok(())
}

#[test]
fn prints_kinds_states_phases_and_out_of_memory(rt: HostRuntime) -> Result<(), AllocError> {
    let alloc = rt.alloc();
    let kinds = format!(in alloc;
        "{} {} {} {}",
        ListKind::Rooms,
        ListKind::People,
        ListKind::Choices,
        ListKind::Grades
    )?;
    assert_same!(rt; kinds.as_str(), "rooms people choices grades");
    let states = format!(in alloc; "{} {} {}", State::Free, State::Occupied, State::Shut)?;
    assert_same!(rt; states.as_str(), "free occupied shut");
    let first = format!(in alloc; "{} {} {}", Phase::Idle, Phase::Opened, Phase::Closed)?;
    assert_same!(rt; first.as_str(), "idle open closed");
    let last = format!(in alloc; "{} {} {}", Phase::Drawn, Phase::Ran, Phase::Published)?;
    assert_same!(rt; last.as_str(), "drawn ran published");
    assert_same!(rt;
        format!(in alloc; "{}", OutOfMemory {})?.as_str(),
        "memory was refused"
    );
    Ok(())
}

// Reads the text as the type `kind`. Returns the printed value, or `!` and the error.
fn outcome(alloc: Global, kind: &str, text: &str) -> Result<String, AllocError> {
    match printed(alloc, kind, text) {
        Ok(value) => Ok(value),
        Err(TypeFault::BadValue) => String::from_str(alloc, "!BadValue"),
        Err(TypeFault::TooManyChoices) => String::from_str(alloc, "!TooManyChoices"),
        Err(TypeFault::RoomRepeated(code)) => format!(in alloc; "!RoomRepeated {code}"),
        Err(TypeFault::OutOfMemory) => Err(AllocError),
    }
}

// Reads the text as the type `kind` and returns the printed value. Checks that a copy of the value is equal to the
// value.
fn printed(alloc: Global, kind: &str, text: &str) -> Result<String, TypeFault> {
    match kind {
        "room" => printed_text::<RoomCodes>(alloc, text),
        "person" => printed_text::<PersonIds>(alloc, text),
        "key" => printed_text::<Keys>(alloc, text),
        "label" => printed_text::<Labels>(alloc, text),
        "name" => printed_text::<Names>(alloc, text),
        "word" => printed_word(alloc, text),
        "grade" => printed_grade(alloc, text),
        _ => printed_list(alloc, text),
    }
}

fn printed_text<G: Grammar>(alloc: Global, text: &str) -> Result<String, TypeFault> {
    let value = Text::<G>::read(alloc, text)?;
    if value.copy()? != value {
        return Ok(String::from_str(alloc, OTHER_COPY)?);
    }
    Ok(format!(in alloc; "{value}")?)
}

fn printed_word(alloc: Global, text: &str) -> Result<String, TypeFault> {
    let word = Word::read(text)?;
    Ok(format!(in alloc; "{word}")?)
}

fn printed_grade(alloc: Global, text: &str) -> Result<String, TypeFault> {
    let grade = Grade::read(text)?;
    Ok(format!(in alloc; "{grade}")?)
}

fn printed_list(alloc: Global, text: &str) -> Result<String, TypeFault> {
    let mut codes = Vec::new(alloc);
    for code in text.split_whitespace() {
        let code = RoomCode::read(alloc, code)?;
        codes.push(code).map_err(|_| TypeFault::OutOfMemory)?;
    }
    let choices = Choices::read(codes)?;
    if choices.copy()?.as_slice() != choices.as_slice() {
        return Ok(String::from_str(alloc, OTHER_COPY)?);
    }
    spaced(alloc, choices.as_slice())
}

fn spaced(alloc: Global, codes: &[RoomCode]) -> Result<String, TypeFault> {
    let mut printed = String::new(alloc);
    for code in codes {
        if !printed.is_empty() {
            printed.push(' ')?;
        }
        printed.push_str(code.as_str())?;
    }
    Ok(printed)
}
