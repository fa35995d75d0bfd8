//! A wrapper that monitors a reader or writer. It counts reads, flushes and the bytes that writes took. It records
//! whether a call failed, whether a read reached the end, whether a call was wasted, and whether bytes wait for a
//! flush.
ghost use Rattle.std.specs.Prelude.{◌≡◌, ◌&&◌, ◌||◌, false};
ghost use Rattle.std.specs.Io.{ReadsAtMost, WritesAtMost};
ghost use Rattle.std.specs.Io.KnownBytes.{Keeps, ReadConsumes, WriteAppends};
ghost use Rattle.room_types.specs.Watched.{watched_inner, watched_failed, watched_reads, watched_taken};
ghost use Rattle.room_types.specs.Watched.{watched_ended, watched_flushes, watched_wasted, watched_pending};
ghost use Rattle.room_types.specs.Watched.{counted, has_taken, is_empty_buffer, is_end, is_failure, is_failed_write, taken_after};

mod recording;
pub mod sending;
mod streams;

use crate::device::{Sink, Source};
use std::io::{Read, Result, Write};

/// A wrapper that monitors a reader or writer. It counts reads, flushes and the bytes that writes took. It records
/// whether a call failed, whether a read reached the end, whether a call was wasted, and whether bytes wait for a
/// flush. Each read, write or flush makes one call of the inner reader or writer, with the whole buffer, and returns
/// the result of that call. The monitoring does not allocate.
#[derive(Drop)]
pub struct Watched<T> {
    inner: T,
    failed: bool,
    reads: u64,
    taken: u64,
    flushes: u64,
    pending: bool,
    ended: bool,
    wasted: bool,
}

impl<T> Watched<T> {
    /// Wraps a reader or writer. All counts start at 0 and all flags at false.
    pub fn new(inner: T) -> Self
        ensures inner { watched_inner result ≡ inner }
        ensures failed { watched_failed result ≡ false }
        ensures reads { watched_reads result ≡ 0 }
        ensures taken { watched_taken result ≡ 0 }
        ensures flushes { watched_flushes result ≡ 0 }
        ensures pending { watched_pending result ≡ false }
        ensures ended { watched_ended result ≡ false }
        ensures wasted { watched_wasted result ≡ false }
    {
        Watched {
            inner,
            failed: false,
            reads: 0,
            taken: 0,
            flushes: 0,
            pending: false,
            ended: false,
            wasted: false,
        }
    }

    /// Returns whether a call has failed. A write that takes 0 bytes of a non-empty buffer counts as failed.
    pub fn failed(&self) -> bool
        ensures { result ≡ watched_failed self.now }
    {
        self.failed
    }

    /// Returns the number of reads by `read` and `read_some`, saturating at `u64::MAX`.
    pub fn reads(&self) -> u64
        ensures { result ≡ watched_reads self.now }
    {
        self.reads
    }

    /// Returns the number of bytes that writes took, saturating at `u64::MAX`.
    pub fn taken(&self) -> u64
        ensures { result ≡ watched_taken self.now }
    {
        self.taken
    }

    /// Returns the number of flushes by `flush` and `flush_all`, saturating at `u64::MAX`.
    pub fn flushes(&self) -> u64
        ensures { result ≡ watched_flushes self.now }
    {
        self.flushes
    }

    /// Returns whether bytes wait for a flush: a write took at least one byte, and no flush has succeeded after that
    /// write.
    pub fn pending(&self) -> bool
        ensures { result ≡ watched_pending self.now }
    {
        self.pending
    }

    /// Returns whether a read has reached the end, that is, returned 0 although its buffer was not empty.
    pub fn ended(&self) -> bool
        ensures { result ≡ watched_ended self.now }
    {
        self.ended
    }

    /// Returns whether a call was wasted. These calls are wasted:
    ///
    /// - a read, a write or a flush after a failure that `failed` reports,
    /// - a read after an earlier read reached the end,
    /// - a read or a write with an empty buffer.
    pub fn wasted(&self) -> bool
        ensures { result ≡ watched_wasted self.now }
    {
        self.wasted
    }

    /// Returns the inner reader or writer.
    pub fn into_inner(self) -> T
        ensures { result ≡ watched_inner self }
    {
        self.inner
    }
}

impl<T: Source> Read for Watched<T> {
    ghost remaining = { λ w. T.remaining (watched_inner w) };

    fn read(&mut self, buf: &mut [u8]) -> Result<usize>
        ensures bound { ReadsAtMost result buf.new }
        ensures bytes { ReadConsumes (T.remaining (watched_inner self.old))
            (T.remaining (watched_inner self.new)) result buf.new }
        ensures failed { watched_failed self.new ≡ watched_failed self.old || is_failure result }
        ensures reads { watched_reads self.new ≡ counted (watched_reads self.old) 1 }
        ensures taken { watched_taken self.new ≡ watched_taken self.old }
        ensures flushes { watched_flushes self.new ≡ watched_flushes self.old }
        ensures pending { watched_pending self.new ≡ watched_pending self.old }
        ensures ended { watched_ended self.new ≡ watched_ended self.old || is_end buf.new result }
        ensures wasted { watched_wasted self.new
            ≡ watched_wasted self.old || watched_failed self.old || watched_ended self.old
            || is_empty_buffer buf.new }
        ensures called { T.reads (watched_inner self.old) buf.old buf.new result
            (watched_inner self.new) }
    {
        let result = self.inner.read_once(buf);
        self.record_read(buf, &result);
        result
    }
}

impl<T: Sink> Write for Watched<T> {
    ghost contents = { λ w. T.contents (watched_inner w) };

    fn write(&mut self, buf: &[u8]) -> Result<usize>
        ensures bound { WritesAtMost result buf.now }
        ensures bytes { WriteAppends (T.contents (watched_inner self.old))
            (T.contents (watched_inner self.new)) result buf.now }
        ensures failed { watched_failed self.new
            ≡ watched_failed self.old || is_failed_write buf.now result }
        ensures reads { watched_reads self.new ≡ watched_reads self.old }
        ensures taken { watched_taken self.new ≡ taken_after (watched_taken self.old) result }
        ensures flushes { watched_flushes self.new ≡ watched_flushes self.old }
        ensures pending { watched_pending self.new ≡ has_taken result || watched_pending self.old }
        ensures ended { watched_ended self.new ≡ watched_ended self.old }
        ensures wasted { watched_wasted self.new
            ≡ watched_wasted self.old || watched_failed self.old || is_empty_buffer buf.now }
        ensures called { T.writes (watched_inner self.old) buf.now result (watched_inner self.new) }
    {
        let result = self.inner.write_once(buf);
        self.record_write(buf, &result);
        result
    }

    fn flush(&mut self) -> Result<()>
        ensures bytes { Keeps (T.contents (watched_inner self.old))
            (T.contents (watched_inner self.new)) }
        ensures failed { watched_failed self.new ≡ watched_failed self.old || is_failure result }
        ensures reads { watched_reads self.new ≡ watched_reads self.old }
        ensures taken { watched_taken self.new ≡ watched_taken self.old }
        ensures flushes { watched_flushes self.new ≡ counted (watched_flushes self.old) 1 }
        ensures pending { watched_pending self.new ≡ is_failure result && watched_pending self.old }
        ensures ended { watched_ended self.new ≡ watched_ended self.old }
        ensures wasted { watched_wasted self.new ≡ watched_wasted self.old || watched_failed self.old }
        ensures called { T.flushes (watched_inner self.old) result (watched_inner self.new) }
    {
        let result = self.inner.flush_once();
        self.record_flush(&result);
        result
    }
}
