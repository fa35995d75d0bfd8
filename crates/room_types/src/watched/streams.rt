//! Reads, writes and flushes of a monitored stream, that is, of a `Watched<T>` where `T` is a `Stream`.
ghost use Rattle.std.specs.Prelude.{◌≡◌, ◌&&◌, ◌||◌};
ghost use Rattle.std.specs.Io.{ReadsAtMost, WritesAtMost};
ghost use Rattle.std.specs.Io.KnownBytes.{Keeps, ReadConsumes, WriteAppends};
ghost use Rattle.room_types.specs.Watched.{watched_inner, watched_failed, watched_reads, watched_taken, watched_flushes, watched_pending};
ghost use Rattle.room_types.specs.Watched.{watched_ended, watched_wasted};
ghost use Rattle.room_types.specs.Watched.{counted, has_taken, is_empty_buffer, is_end, is_failure, is_failed_write, taken_after};

use crate::stream::Stream;
use crate::watched::Watched;
use std::io::Result;

// `Read` and `Write` of a `Watched` cannot stand for these calls. Each reader is a `Source` and each writer a `Sink`,
// with relations that say nothing, so a `Stream` cannot bring its own relations as a `Source` and a `Sink`. Nor do
// these traits say that a read keeps the bytes written, and that a write keeps the bytes left to read.
impl<T: Stream> Watched<T> {
    /// Calls `read_some` of the inner stream once, records the call, and returns its result. The bytes written to the
    /// stream so far are unchanged.
    pub fn read_some(&mut self, buf: &mut [u8]) -> Result<usize>
        ensures bound { ReadsAtMost result buf.new }
        ensures bytes { ReadConsumes (T.remaining (watched_inner self.old))
            (T.remaining (watched_inner self.new)) result buf.new }
        ensures kept { Keeps (T.contents (watched_inner self.old))
            (T.contents (watched_inner self.new)) }
        ensures failed { watched_failed self.new ≡ watched_failed self.old || is_failure result }
        ensures reads { watched_reads self.new ≡ counted (watched_reads self.old) 1 }
        ensures taken { watched_taken self.new ≡ watched_taken self.old }
        ensures flushes { watched_flushes self.new ≡ watched_flushes self.old }
        ensures pending { watched_pending self.new ≡ watched_pending self.old }
        ensures ended { watched_ended self.new ≡ watched_ended self.old || is_end buf.new result }
        ensures wasted { watched_wasted self.new
            ≡ watched_wasted self.old || watched_failed self.old || watched_ended self.old
            || is_empty_buffer buf.new }
        ensures called { T.reads (watched_inner self.old) buf.old buf.new result
            (watched_inner self.new) }
    {
        let result = self.inner.read_some(buf);
        self.record_read(buf, &result);
        result
    }

    /// Calls `write_some` of the inner stream once, records the call, and returns its result. The bytes left to read
    /// are unchanged.
    pub fn write_some(&mut self, buf: &[u8]) -> Result<usize>
        ensures bound { WritesAtMost result buf.now }
        ensures bytes { WriteAppends (T.contents (watched_inner self.old))
            (T.contents (watched_inner self.new)) result buf.now }
        ensures kept { Keeps (T.remaining (watched_inner self.old))
            (T.remaining (watched_inner self.new)) }
        ensures failed { watched_failed self.new
            ≡ watched_failed self.old || is_failed_write buf.now result }
        ensures reads { watched_reads self.new ≡ watched_reads self.old }
        ensures taken { watched_taken self.new ≡ taken_after (watched_taken self.old) result }
        ensures flushes { watched_flushes self.new ≡ watched_flushes self.old }
        ensures pending { watched_pending self.new ≡ has_taken result || watched_pending self.old }
        ensures ended { watched_ended self.new ≡ watched_ended self.old }
        ensures wasted { watched_wasted self.new
            ≡ watched_wasted self.old || watched_failed self.old || is_empty_buffer buf.now }
        ensures called { T.writes (watched_inner self.old) buf.now result (watched_inner self.new) }
    {
        let result = self.inner.write_some(buf);
        self.record_write(buf, &result);
        result
    }

    /// Calls `flush_all` of the inner stream once, records the call, and returns its result. The bytes written and
    /// the bytes left to read are unchanged.
    pub fn flush_all(&mut self) -> Result<()>
        ensures bytes { Keeps (T.contents (watched_inner self.old))
            (T.contents (watched_inner self.new)) }
        ensures kept { Keeps (T.remaining (watched_inner self.old))
            (T.remaining (watched_inner self.new)) }
        ensures failed { watched_failed self.new ≡ watched_failed self.old || is_failure result }
        ensures reads { watched_reads self.new ≡ watched_reads self.old }
        ensures taken { watched_taken self.new ≡ watched_taken self.old }
        ensures flushes { watched_flushes self.new ≡ counted (watched_flushes self.old) 1 }
        ensures pending { watched_pending self.new ≡ is_failure result && watched_pending self.old }
        ensures ended { watched_ended self.new ≡ watched_ended self.old }
        ensures wasted { watched_wasted self.new ≡ watched_wasted self.old || watched_failed self.old }
        ensures called { T.flushes (watched_inner self.old) result (watched_inner self.new) }
    {
        let result = self.inner.flush_all();
        self.record_flush(&result);
        result
    }
}
