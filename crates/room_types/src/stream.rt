//! Streams: readers that are also writers. A read leaves the bytes written unchanged. A write or a flush leaves the
//! bytes left to read unchanged.
ghost use Rattle.std.specs.Prelude.{◌≡◌, ℕ, List, Result, ⊤};
ghost use Rattle.std.specs.Io.{ReadsAtMost, WritesAtMost};
ghost use Rattle.std.specs.Io.KnownBytes.{Keeps, ReadConsumes, WriteAppends};
ghost use Rattle.std.specs.declared.io.Error.{Error};

use crate::device::{Sink, Source};
use std::io::{Read, Result, Write};
use std::net::TcpStream;

/// A type that is both a reader and a writer. Its contracts say what those of `Read` and `Write` leave open: a read
/// leaves the bytes written unchanged, and a write or a flush leaves the bytes left to read unchanged. As in `Source`
/// and `Sink`, each call establishes a relation between the states before and after the call.
pub trait Stream: Read + Write {
    /// The relation that one read establishes. The arguments are the state before the read, the buffer before, the
    /// buffer after, the result, and the state after.
    ghost reads: { Self → List ℕ → List ℕ → Result ℕ Error → Self → Type 0 };

    /// The relation that one write establishes. The arguments are the state before the write, the bytes to write, the
    /// result, and the state after.
    ghost writes: { Self → List ℕ → Result ℕ Error → Self → Type 0 };

    /// The relation that one flush establishes. The arguments are the state before the flush, the result, and the
    /// state after.
    ghost flushes: { Self → Result ⊤ Error → Self → Type 0 };

    /// Calls `read`, which leaves the bytes written unchanged.
    fn read_some(&mut self, buf: &mut [u8]) -> Result<usize>
        ensures bound { ReadsAtMost result buf.new }
        ensures bytes { ReadConsumes (Self.remaining self.old) (Self.remaining self.new) result
            buf.new }
        ensures kept { Keeps (Self.contents self.old) (Self.contents self.new) }
        ensures called { reads self.old buf.old buf.new result self.new };

    /// Calls `write`, which leaves the bytes left to read unchanged.
    fn write_some(&mut self, buf: &[u8]) -> Result<usize>
        ensures bound { WritesAtMost result buf.now }
        ensures bytes { WriteAppends (Self.contents self.old) (Self.contents self.new) result
            buf.now }
        ensures kept { Keeps (Self.remaining self.old) (Self.remaining self.new) }
        ensures called { writes self.old buf.now result self.new };

    /// Calls `flush`, which leaves the bytes written and the bytes left to read unchanged.
    fn flush_all(&mut self) -> Result<()>
        ensures bytes { Keeps (Self.contents self.old) (Self.contents self.new) }
        ensures kept { Keeps (Self.remaining self.old) (Self.remaining self.new) }
        ensures called { flushes self.old result self.new };
}

impl Stream for TcpStream {
    ghost reads = { λ _ _ _ _ _. ⊤ };

    ghost writes = { λ _ _ _ _. ⊤ };

    ghost flushes = { λ _ _ _. ⊤ };

    fn read_some(&mut self, buf: &mut [u8]) -> Result<usize> {
        self.read(buf)
    }

    fn write_some(&mut self, buf: &[u8]) -> Result<usize> {
        self.write(buf)
    }

    fn flush_all(&mut self) -> Result<()> {
        self.flush()
    }
}

/// A stream that reads from `reader` and writes to `writer`.
#[derive(Drop)]
pub struct Pair<R, W> {
    pub reader: R,
    pub writer: W,
}

impl<R: Read, W> Read for Pair<R, W> {
    ghost remaining = { λ pair. R.remaining pair.reader };

    fn read(&mut self, buf: &mut [u8]) -> Result<usize> {
        self.reader.read(buf)
    }
}

impl<R, W: Write> Write for Pair<R, W> {
    ghost contents = { λ pair. W.contents pair.writer };

    fn write(&mut self, buf: &[u8]) -> Result<usize> {
        self.writer.write(buf)
    }

    fn flush(&mut self) -> Result<()> {
        self.writer.flush()
    }
}

impl<R: Source, W: Sink> Stream for Pair<R, W> {
    ghost reads = { λ old before after result new. R.reads old.reader before after result new.reader
        × (new.writer ≡ old.writer) };

    ghost writes = { λ old buf result new. W.writes old.writer buf result new.writer
        × (new.reader ≡ old.reader) };

    ghost flushes = { λ old result new. W.flushes old.writer result new.writer
        × (new.reader ≡ old.reader) };

    fn read_some(&mut self, buf: &mut [u8]) -> Result<usize> {
        self.reader.read_once(buf)
    }

    fn write_some(&mut self, buf: &[u8]) -> Result<usize> {
        self.writer.write_once(buf)
    }

    fn flush_all(&mut self) -> Result<()> {
        self.writer.flush_once()
    }
}
