//! Readers and writers that fail.
use std::io;
use std::io::{Error, ErrorKind, Read, Write};

/// A reader that gives at most `chunk` bytes a read. After `reads` reads one read fails, and later reads succeed.
#[derive(Drop)]
pub struct FailingReader<'a> {
    pub unread: &'a [u8],
    pub chunk: usize,
    pub reads: usize,
}

impl Read for FailingReader<'_> {
    fn read(&mut self, buf: &mut [u8]) -> io::Result<usize> {
        if self.reads == 0 {
            self.reads = usize::MAX;
            return Err(Error::from(ErrorKind::Other));
        }
        self.reads -= 1;
        let len = self.chunk.min(buf.len());
        self.unread.read(&mut buf[..len])
    }
}

/// A writer that takes at most `room` bytes in all, and keeps them. After `writes` writes one write fails, and
/// later writes succeed. Flushes succeed if and only if `flushes` is true.
#[derive(Drop)]
pub struct FailingWriter {
    pub written: Vec<u8>,
    pub writes: usize,
    pub room: usize,
    pub flushes: bool,
}

impl Write for FailingWriter {
    fn write(&mut self, buf: &[u8]) -> io::Result<usize> {
        if self.writes == 0 {
            self.writes = usize::MAX;
            return Err(Error::from(ErrorKind::Other));
        }
        self.writes -= 1;
        let len = self.room.min(buf.len());
        self.room -= len;
        self.written.extend_from_slice(&buf[..len])?;
        Ok(len)
    }

    fn flush(&mut self) -> io::Result<()> {
        if self.flushes {
            Ok(())
        } else {
            Err(Error::from(ErrorKind::Other))
        }
    }
}
