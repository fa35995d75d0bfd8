//! Tests of a `Pair`, which makes one stream of a reader and a writer.
use super::{Faulty, kind, new_device, wanted_at};
use crate::asserting::assert_same;
use room_types::stream::Pair;
use room_types::watched::sending::send;
use room_types::{Stream, Watched};
use std::io;
use std::io::{Read, Write};

#[test]
fn forwards_reads_writes_and_flushes_of_a_stream(rt: HostRuntime) -> io::Result<()> {
    let mut stream = Watched::new(Pair {
        reader: b"ab".as_slice(),
        writer: Vec::new(rt.alloc()),
    });
    let mut byte = [0u8; 1];
    assert_same!(rt; stream.read_some(&mut byte)?, 1);
    assert_same!(rt; byte[0], b'a');
    assert_same!(rt; stream.write_some(b"xy")?, 2);
    assert!(rt; stream.pending() && !stream.failed());
    stream.flush_all()?;
    assert!(rt; !stream.pending());
    assert_same!(rt;
        (stream.reads(), stream.taken(), stream.flushes()),
        (1, 2, 1)
    );
    assert_same!(rt; stream.into_inner().writer.as_slice(), b"xy".as_slice());
    Ok(())
}

#[test]
fn sends_a_text_or_returns_how_much_was_sent(rt: HostRuntime) -> io::Result<()> {
    let mut output = Watched::new(Vec::new(rt.alloc()));
    assert_same!(rt; send(&mut output, b"room H1"), Ok(()));
    assert!(rt; output.pending());
    output.flush()?;
    assert!(rt; !output.pending());
    let mut space = [0u8; 3];
    let mut full = Watched::new(&mut space[..]);
    assert_same!(rt; send(&mut full, b"room"), Err(3));
    assert_same!(rt; output.into_inner().as_slice(), b"room H1".as_slice());
    Ok(())
}

fn faulty_pair() -> Pair<Faulty, Faulty> {
    Pair {
        reader: new_device(),
        writer: new_device(),
    }
}

// Whether the devices counted ten reads of three bytes each, ten writes of two bytes each, and ten flushes.
fn are_all_passed_on(
    input: Pair<Faulty, Faulty>,
    output: Pair<Faulty, Faulty>,
    flushed: Pair<Faulty, Faulty>,
) -> bool {
    let read = (input.reader.calls, input.reader.lent) == (10, 30) && input.writer.calls == 0;
    let written = (output.writer.calls, output.writer.lent) == (10, 20) && output.reader.calls == 0;
    let cleared = flushed.writer.calls == 10 && flushed.reader.calls == 0;
    read && written && cleared
}

// Each call of a pair makes one call of its reader or of its writer and returns the result of that call, even after a
// failure.
#[test]
fn pairs_forward_each_call(rt: HostRuntime) {
    let mut input = faulty_pair();
    let mut output = faulty_pair();
    let mut flushed = faulty_pair();
    for call in 1..=10 {
        let wanted = wanted_at(call);
        assert_same!(rt; kind(input.read(&mut [0u8; 3])), wanted);
        assert_same!(rt; kind(output.write(b"ab")), wanted);
        assert_same!(rt; kind(flushed.flush()), wanted);
    }
    assert!(rt; are_all_passed_on(input, output, flushed));
}

// Each call of a pair inside a `Watched` also makes one call of the pair's reader or writer, even after a failure.
#[test]
fn watched_pairs_forward_each_call(rt: HostRuntime) {
    let mut input = Watched::new(faulty_pair());
    let mut output = Watched::new(faulty_pair());
    let mut flushed = Watched::new(faulty_pair());
    for call in 1..=10 {
        let wanted = wanted_at(call);
        assert_same!(rt; kind(input.read_some(&mut [0u8; 3])), wanted);
        assert_same!(rt; kind(output.write_some(b"ab")), wanted);
        assert_same!(rt; kind(flushed.flush_all()), wanted);
    }
    assert!(rt; input.failed() && input.reads() == 10);
    assert!(rt; output.failed() && output.taken() == 18);
    assert!(rt; flushed.failed() && flushed.flushes() == 10);
    assert!(rt;
        are_all_passed_on(
            input.into_inner(),
            output.into_inner(),
            flushed.into_inner()
        )
    );
}
