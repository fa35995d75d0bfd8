//! Readers and writers whose contracts can say that a read, a write or a flush was made.
ghost use Rattle.std.specs.Prelude.{ℕ, List, Result, ⊤};
ghost use Rattle.std.specs.Io.{ReadsAtMost, WritesAtMost};
ghost use Rattle.std.specs.Io.KnownBytes.{Keeps, ReadConsumes, WriteAppends};
ghost use Rattle.std.specs.declared.io.Error.{Error};

use std::io::{Read, Result, Write};

/// A reader whose contract can say that a read was made. The contract of `Read` cannot say that. `Source` has the
/// relation `reads` between the states before and after a read, and generic code can establish `reads` only by one
/// call of `read_once`.
pub trait Source: Read {
    /// The relation that one read establishes. The arguments are the state before the read, the buffer before, the
    /// buffer after, the result, and the state after.
    ghost reads: { Self → List ℕ → List ℕ → Result ℕ Error → Self → Type 0 };

    /// Calls `read` once.
    fn read_once(&mut self, buf: &mut [u8]) -> Result<usize>
        ensures bound { ReadsAtMost result buf.new }
        ensures bytes { ReadConsumes (Self.remaining self.old) (Self.remaining self.new) result
            buf.new }
        ensures called { reads self.old buf.old buf.new result self.new };
}

impl<R: Read> Source for R {
    ghost reads = { λ _ _ _ _ _. ⊤ };

    fn read_once(&mut self, buf: &mut [u8]) -> Result<usize> {
        self.read(buf)
    }
}

/// A writer whose contract can say that a write or a flush was made. The contract of `Write` cannot say that. `Sink`
/// has the relations `writes` and `flushes` between the states before and after a call, and generic code can establish
/// them only by one call of `write_once` or `flush_once`.
pub trait Sink: Write {
    /// The relation that one write establishes. The arguments are the state before the write, the bytes to write, the
    /// result, and the state after.
    ghost writes: { Self → List ℕ → Result ℕ Error → Self → Type 0 };

    /// The relation that one flush establishes. The arguments are the state before the flush, the result, and the
    /// state after.
    ghost flushes: { Self → Result ⊤ Error → Self → Type 0 };

    /// Calls `write` once.
    fn write_once(&mut self, buf: &[u8]) -> Result<usize>
        ensures bound { WritesAtMost result buf.now }
        ensures bytes { WriteAppends (Self.contents self.old) (Self.contents self.new) result
            buf.now }
        ensures called { writes self.old buf.now result self.new };

    /// Calls `flush` once.
    fn flush_once(&mut self) -> Result<()>
        ensures bytes { Keeps (Self.contents self.old) (Self.contents self.new) }
        ensures called { flushes self.old result self.new };
}

impl<W: Write> Sink for W {
    ghost writes = { λ _ _ _ _. ⊤ };

    ghost flushes = { λ _ _ _. ⊤ };

    fn write_once(&mut self, buf: &[u8]) -> Result<usize> {
        self.write(buf)
    }

    fn flush_once(&mut self) -> Result<()> {
        self.flush()
    }
}
