//! Tests of `room_types` with enough memory, and tests of worked values.
use crate::asserting::assert_same;
use room_types::grammars::RoomCodes;
use room_types::rows::copy_optional;
use room_types::{Listing, Move, PersonId, RoomCode, Table, TypeFault, Watched, Wave, Word};
use std::alloc::{AllocError, Global};
use std::io;
use std::io::{Error, ErrorKind, Read, Write};
use std::process::Abort;

mod streams;
mod worked;

#[test]
fn compares_texts_and_words(rt: HostRuntime) -> Result<(), TypeFault> {
    let alloc = rt.alloc();
    let short = RoomCode::read(alloc, "H1")?;
    let long = RoomCode::read(alloc, "H10")?;
    let other = RoomCode::read(alloc, "H2")?;
    assert!(rt; short < long && long < other && short != other);
    assert!(rt; Word::new(1) < Word::new(2));
    Ok(())
}

// The `count` codes R1, R2 and so on.
fn codes(alloc: Global, count: usize) -> Result<Vec<RoomCode>, TypeFault> {
    let mut codes = Vec::new(alloc);
    for number in 1..=count {
        let text = format!(in alloc; "R{number}")?;
        let code = RoomCode::read(alloc, text.as_str())?;
        codes.push(code).map_err(|_| TypeFault::OutOfMemory)?;
    }
    Ok(codes)
}

#[test]
fn copies_moves(rt: HostRuntime) -> Result<(), TypeFault> {
    let alloc = rt.alloc();
    let moved = Move {
        round: 3,
        person: PersonId::read(alloc, "T1")?,
        from: None,
        to: Some(RoomCode::read(alloc, "H1")?),
        wave: Wave::Nth(2),
    };
    let copy = moved.copy()?;
    assert!(rt; copy.round == 3 && copy.person == moved.person && copy.from.is_none());
    assert!(rt; copy.to == moved.to && copy.wave == Wave::Nth(2));
    assert!(rt; copy_optional(&moved.to)? == moved.to);
    Ok(())
}

#[test]
fn inserts_copies_and_removes_table_entries(rt: HostRuntime) -> Result<(), TypeFault> {
    let alloc = rt.alloc();
    let code = RoomCode::read(alloc, "R2")?;
    let mut table = twelve_codes(alloc, &code)?;
    assert!(rt; table.len() == 12 && table.get(&code) == Some(&true));
    let mut copy = table.copy()?;
    table.remove(&code);
    assert!(rt; !table.contains_key(&code) && copy.contains_key(&code));
    assert_same!(rt; ascending(alloc, &table)?.as_str(), "R1R10R11R12R3R4R5R6R7R8R9");
    assert!(rt; copy.take(&code) == Some(true) && copy.take(&code).is_none());
    copy.clear();
    assert_same!(rt; copy.len(), 0);
    Ok(())
}

// A table of the codes R1 to R12. The given code has the value true, and all others have false.
fn twelve_codes(alloc: Global, code: &RoomCode) -> Result<Table<RoomCodes, bool>, TypeFault> {
    let mut table = Table::new(alloc);
    for other in codes(alloc, 12)? {
        table.insert(other, false)?;
    }
    table.insert(code.copy()?, true)?;
    Ok(table)
}

// The keys of the table in its order, joined.
fn ascending(alloc: Global, table: &Table<RoomCodes, bool>) -> Result<String, AllocError> {
    let mut keys = String::new(alloc);
    for (room, _) in table.iter() {
        keys.push_str(room.as_str())?;
    }
    Ok(keys)
}

#[test]
fn counts_the_items_of_listings(rt: HostRuntime) -> Result<(), TypeFault> {
    let alloc = rt.alloc();
    assert_same!(rt; Listing::new(codes(alloc, 3)?).as_slice().len(), 3);
    let mut listing = Listing::empty(alloc);
    listing.push(RoomCode::read(alloc, "R1")?)?;
    assert_same!(rt; listing.len(), 1);
    Ok(())
}

// A device that counts its calls and the bytes of the buffers given to them, and fails only at its second call.
#[derive(Drop)]
struct Faulty {
    calls: u32,
    lent: usize,
}

impl Faulty {
    fn answer(&mut self, lent: usize) -> io::Result<()> {
        self.calls = self.calls.saturating_add(1);
        self.lent = self.lent.saturating_add(lent);
        if self.calls == 2 {
            return Err(Error::from(ErrorKind::Other));
        }
        Ok(())
    }
}

impl Read for Faulty {
    fn read(&mut self, buf: &mut [u8]) -> io::Result<usize> {
        self.answer(buf.len())?;
        Ok(0)
    }
}

impl Write for Faulty {
    fn write(&mut self, buf: &[u8]) -> io::Result<usize> {
        self.answer(buf.len())?;
        Ok(buf.len())
    }

    fn flush(&mut self) -> io::Result<()> {
        self.answer(0)
    }
}

fn new_device() -> Faulty {
    Faulty { calls: 0, lent: 0 }
}

fn watched_faulty() -> Watched<Faulty> {
    Watched::new(new_device())
}

// The kind of the error, if there is one.
fn kind<T: Drop>(answer: io::Result<T>) -> Option<ErrorKind> {
    answer.err().map(|error| error.kind())
}

// The error that the faulty device has to return at this call, or `None` for a success. The first call has number 1.
fn wanted_at(call: u32) -> Option<ErrorKind> {
    if call == 2 {
        return Some(ErrorKind::Other);
    }
    None
}

// Each of ten calls of a `Watched` makes one call of the device with the whole buffer, and returns what the device
// returned. This holds also for the calls after a failure, and `wasted` reports that there were such calls.
#[test]
fn forwards_each_call_to_the_device(rt: HostRuntime) {
    let mut input = watched_faulty();
    let mut output = watched_faulty();
    let mut flushed = watched_faulty();
    for call in 1..=10 {
        let wanted = wanted_at(call);
        assert_same!(rt; kind(input.read(&mut [0u8; 3])), wanted);
        assert_same!(rt; kind(output.write(b"ab")), wanted);
        assert_same!(rt; kind(flushed.flush()), wanted);
    }
    assert!(rt; input.failed() && input.wasted() && input.reads() == 10);
    assert!(rt; output.failed() && output.wasted() && output.taken() == 18);
    assert!(rt; flushed.failed() && flushed.wasted() && flushed.flushes() == 10);
    let (input, output, flushed) = (
        input.into_inner(),
        output.into_inner(),
        flushed.into_inner(),
    );
    assert!(rt; (input.calls, input.lent) == (10, 30) && (output.calls, output.lent) == (10, 20));
    assert_same!(rt; flushed.calls, 10);
}

#[test]
fn counts_reads_and_notices_the_end(rt: HostRuntime) -> io::Result<()> {
    let mut input = Watched::new("ab".as_bytes());
    let mut byte = [0u8; 1];
    for taken in [1, 1, 0] {
        assert_same!(rt; input.read(&mut byte)?, taken);
    }
    assert!(rt; input.reads() == 3 && !input.failed() && input.taken() == 0);
    assert!(rt; input.ended() && !input.wasted());
    Ok(())
}

#[test]
fn notices_a_full_writer(rt: HostRuntime) -> io::Result<()> {
    let mut space = [0u8; 3];
    let mut output = Watched::new(&mut space[..]);
    assert_same!(rt; output.write(b"abcd")?, 3);
    assert!(rt; !output.failed() && output.taken() == 3 && output.pending());
    output.flush()?;
    assert!(rt; output.flushes() == 1 && !output.pending());
    assert!(rt; !output.wasted());
    assert_same!(rt; output.write(b"")?, 0);
    assert!(rt; !output.failed() && output.wasted());
    assert_same!(rt; output.write(b"d")?, 0);
    assert!(rt; output.failed() && output.taken() == 3);
    Ok(())
}
