//! Streams that pass bytes in chunks, and that fail.
use std::alloc::Global;
use std::io;
use std::io::{Error, ErrorKind, Read, Write};

/// A reader that passes at most `chunk` bytes at the first read, and at most `later` bytes at each later one. After
/// `reads` reads one read fails, and later reads succeed.
#[derive(Drop)]
pub struct ChunkedReader<'a> {
    pub unread: &'a [u8],
    pub chunk: usize,
    pub later: usize,
    pub reads: usize,
}

impl Read for ChunkedReader<'_> {
    fn read(&mut self, buf: &mut [u8]) -> io::Result<usize> {
        if self.reads == 0 {
            self.reads = usize::MAX;
            return Err(Error::from(ErrorKind::Other));
        }
        self.reads -= 1;
        let len = self.chunk.min(buf.len());
        self.chunk = self.later;
        self.unread.read(&mut buf[..len])
    }
}

/// A writer that takes at most `chunk` bytes a write, and keeps them. After `room` bytes it refuses one write: the
/// write fails if `fails` is true, and otherwise takes no byte. Then the writer takes `later` more bytes. Flushes
/// succeed if and only if `flushes` is true.
#[derive(Drop)]
pub struct NarrowWriter {
    pub written: Vec<u8>,
    pub chunk: usize,
    pub room: usize,
    pub fails: bool,
    pub later: usize,
    pub flushes: bool,
}

impl NarrowWriter {
    /// A writer that takes everything.
    pub fn wide(alloc: Global) -> Self {
        NarrowWriter {
            written: Vec::new(alloc),
            chunk: usize::MAX,
            room: usize::MAX,
            fails: true,
            later: usize::MAX,
            flushes: true,
        }
    }
}

impl Write for NarrowWriter {
    fn write(&mut self, buf: &[u8]) -> io::Result<usize> {
        if self.room == 0 && !buf.is_empty() {
            self.room = self.later;
            return if self.fails {
                Err(Error::from(ErrorKind::Other))
            } else {
                Ok(0)
            };
        }
        let len = self.room.min(self.chunk).min(buf.len());
        self.room -= len;
        self.written.extend_from_slice(&buf[..len])?;
        Ok(len)
    }

    fn flush(&mut self) -> io::Result<()> {
        if self.flushes {
            Ok(())
        } else {
            Err(Error::from(ErrorKind::Other))
        }
    }
}
