//! Tests of readers and writers that fail during a rehearsal of the register. Lines that were handled before the
//! failure keep their effect.
use crate::asserting::same_at;
use crate::at_desks::{is_shown_after, shown};
use crate::failing::{FailingReader, FailingWriter};
use crate::register::REGISTER;
use crate::scripts::{script_answers, script_lines};
use office_cli::{Ending, Rehearsed, rehearse};
use office_store::Desk;
use room_types::Watched;
use std::alloc::Global;
use std::test::Fail;

// The number of bytes that the reader gives at most in one read.
const CHUNK_SIZE: usize = 7;

// A writer that never fails.
fn good_writer(alloc: Global) -> FailingWriter {
    FailingWriter {
        written: Vec::new(alloc),
        writes: usize::MAX,
        room: usize::MAX,
        flushes: true,
    }
}

fn good_reader<'a>(unread: &'a [u8]) -> FailingReader<'a> {
    FailingReader {
        unread,
        chunk: CHUNK_SIZE,
        reads: usize::MAX,
    }
}

// Rehearses the input at a new desk in memory. Returns how the rehearsal ended, whether the reader failed and whether
// the writer did, the bytes written, and what the desk then shows of its office.
fn rehearsed<'a>(
    alloc: Global,
    reader: FailingReader<'a>,
    writer: FailingWriter,
) -> Result<(Rehearsed, (bool, bool), Vec<u8>, Vec<u8>), Fail> {
    let mut desk = Desk::in_memory(alloc)?;
    let mut input = Watched::new(reader);
    let mut output = Watched::new(writer);
    let rehearsal = rehearse(alloc, &mut desk, &mut input, &mut output);
    let failed = (input.failed(), output.failed());
    let stored = shown(alloc, &mut desk);
    Ok((rehearsal, failed, output.into_inner().written, stored))
}

// Rehearses the register with this writer and a reader that does not fail. Returns whether the rehearsal ends with
// `WriteFault`, has written exactly the first `sent` bytes of the answers, and leaves the office of the first
// `handled` lines.
fn stops_at(
    alloc: Global,
    writer: FailingWriter,
    sent: usize,
    handled: usize,
) -> Result<bool, Fail> {
    let lines = script_lines(alloc, &REGISTER)?;
    let answers = script_answers(alloc, &REGISTER, REGISTER.len())?;
    let (rehearsal, failed, text, stored) = rehearsed(
        alloc,
        good_reader(lines.as_bytes()),
        writer,
    )?;
    let ending = Ending::WriteFault { sent: sent as u128 };
    let stopped = rehearsal.status == 3 && rehearsal.ending == ending && failed == (false, true);
    let answered = text.len() == sent && answers.as_bytes().starts_with(&text);
    Ok(stopped && answered && is_office_after(alloc, handled, &stored)?)
}

// Whether `stored` is what a desk shows of its office after the first `handled` lines of the register.
fn is_office_after(alloc: Global, handled: usize, stored: &[u8]) -> Result<bool, Fail> {
    let lines = script_lines(alloc, &REGISTER[..handled.min(REGISTER.len())])?;
    is_shown_after(alloc, lines.as_str(), stored)
}

// The number of lines that are handled if the writer takes only `taken` bytes: the lines whose answers fit, and the
// next line if there is one.
fn handled_for(taken: usize) -> usize {
    let mut rest = taken;
    for (handled, (_, answer)) in REGISTER.iter().enumerate() {
        if rest < answer.len() {
            return handled.saturating_add(1);
        }
        rest -= answer.len();
    }
    REGISTER.len()
}

// Each line that was read completely before the failed read is answered and takes effect.
#[test]
fn stops_where_a_read_fails(rt: HostRuntime) -> Result<(), Fail> {
    let lines = script_lines(rt.alloc(), &REGISTER)?;
    let reads = lines.len().div_ceil(CHUNK_SIZE);
    for passed in 0..reads + 1 {
        let stops = stops_at_read(rt.alloc(), lines.as_bytes(), passed)?;
        same_at(&rt, &stops, &true, passed);
    }
    println!(rt; "a register whose reads fail: {} faults", reads + 1)?;
    Ok(())
}

// Rehearses the register with a reader that fails after `passed` reads and a writer that does not fail. Returns
// whether the rehearsal ends with `ReadFault`, answers exactly the lines that were read completely, and leaves the
// office of these lines.
fn stops_at_read(alloc: Global, lines: &[u8], passed: usize) -> Result<bool, Fail> {
    let mut reader = good_reader(lines);
    reader.reads = passed;
    let whole = lines_before(lines, passed.saturating_mul(CHUNK_SIZE));
    let answers = script_answers(alloc, &REGISTER, whole)?;
    let (rehearsal, failed, text, stored) = rehearsed(alloc, reader, good_writer(alloc))?;
    let stopped = rehearsal.status == 3
        && rehearsal.ending == Ending::ReadFault
        && failed == (true, false);
    let answered = text.as_slice() == answers.as_bytes();
    Ok(stopped && answered && is_office_after(alloc, whole, &stored)?)
}

/// How a rehearsal ended, whether the reader or the writer failed, and the number of reads of the input.
#[derive(Clone, Copy, Debug, PartialEq, Eq)]
pub struct Stopped {
    pub status: u8,
    pub ending: Ending,
    pub failed: bool,
    pub reads: u64,
}

/// Rehearses these bytes at a new desk in memory. The reader gives one byte a read.
pub fn rehearsed_by_bytes(alloc: Global, input: &[u8]) -> Result<Stopped, Fail> {
    let mut desk = Desk::in_memory(alloc)?;
    let mut input = Watched::new(FailingReader {
        unread: input,
        chunk: 1,
        reads: usize::MAX,
    });
    let mut output = Watched::new(good_writer(alloc));
    let rehearsal = rehearse(alloc, &mut desk, &mut input, &mut output);
    Ok(Stopped {
        status: rehearsal.status,
        ending: rehearsal.ending,
        failed: input.failed() || output.failed(),
        reads: input.reads(),
    })
}

// The number of lines that end in the first `length` bytes of the text.
fn lines_before(text: &[u8], length: usize) -> usize {
    text.iter()
        .take(length)
        .filter(|byte| **byte == b'\n')
        .count()
}

#[test]
fn stops_where_a_write_takes_nothing(rt: HostRuntime) -> Result<(), Fail> {
    let answers = script_answers(rt.alloc(), &REGISTER, REGISTER.len())?;
    for taken in 0..answers.len() {
        let mut writer = good_writer(rt.alloc());
        writer.room = taken;
        let stops = stops_at(rt.alloc(), writer, taken, handled_for(taken))?;
        same_at(&rt, &stops, &true, taken);
    }
    println!(rt; "a register whose writer is full: {} faults", answers.len())?;
    Ok(())
}

#[test]
fn stops_where_a_write_fails(rt: HostRuntime) -> Result<(), Fail> {
    for passed in 0..REGISTER.len() {
        let sent = script_answers(rt.alloc(), &REGISTER, passed)?.len();
        let mut writer = good_writer(rt.alloc());
        writer.writes = passed;
        let stops = stops_at(rt.alloc(), writer, sent, passed + 1)?;
        same_at(&rt, &stops, &true, passed);
    }
    println!(rt; "a register whose writes fail: {} faults", REGISTER.len())?;
    Ok(())
}

#[test]
fn stops_where_the_flush_fails(rt: HostRuntime) -> Result<(), Fail> {
    let sent = script_answers(rt.alloc(), &REGISTER, REGISTER.len())?.len();
    let mut writer = good_writer(rt.alloc());
    writer.flushes = false;
    assert!(rt; stops_at(rt.alloc(), writer, sent, REGISTER.len())?);
    Ok(())
}
