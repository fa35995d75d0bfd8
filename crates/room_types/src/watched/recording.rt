//! What a monitored device records about a call.
ghost use Rattle.std.specs.Prelude.{◌≡◌, ◌&&◌, ◌||◌};
ghost use Rattle.room_types.specs.Watched.{watched_inner, watched_failed, watched_reads, watched_taken};
ghost use Rattle.room_types.specs.Watched.{watched_ended, watched_flushes, watched_wasted, watched_pending};
ghost use Rattle.room_types.specs.Watched.{counted, has_taken, is_empty_buffer, is_end, is_failure, is_failed_write};
ghost use Rattle.room_types.specs.Watched.{taken_after};

use crate::watched::Watched;
use std::io::Result;

impl<T> Watched<T> {
    // Records a read into this buffer, and its outcome.
    pub(crate) fn record_read(&mut self, buf: &[u8], outcome: &Result<usize>)
        ensures inner { watched_inner self.new ≡ watched_inner self.old }
        ensures failed { watched_failed self.new ≡ watched_failed self.old || is_failure outcome.now }
        ensures reads { watched_reads self.new ≡ counted (watched_reads self.old) 1 }
        ensures taken { watched_taken self.new ≡ watched_taken self.old }
        ensures flushes { watched_flushes self.new ≡ watched_flushes self.old }
        ensures pending { watched_pending self.new ≡ watched_pending self.old }
        ensures ended { watched_ended self.new ≡ watched_ended self.old || is_end buf.now outcome.now }
        ensures wasted { watched_wasted self.new
            ≡ watched_wasted self.old || watched_failed self.old || watched_ended self.old
            || is_empty_buffer buf.now }
    {
        self.wasted = self.wasted || self.failed || self.ended || buf.is_empty();
        self.reads = self.reads.saturating_add(1);
        match outcome {
            Ok(n) => self.ended = self.ended || (*n == 0 && !buf.is_empty()),
            Err(_) => self.failed = true,
        }
    }

    // Records a write of this buffer, and its outcome.
    pub(crate) fn record_write(&mut self, buf: &[u8], outcome: &Result<usize>)
        ensures inner { watched_inner self.new ≡ watched_inner self.old }
        ensures failed { watched_failed self.new
            ≡ watched_failed self.old || is_failed_write buf.now outcome.now }
        ensures reads { watched_reads self.new ≡ watched_reads self.old }
        ensures taken { watched_taken self.new ≡ taken_after (watched_taken self.old) outcome.now }
        ensures flushes { watched_flushes self.new ≡ watched_flushes self.old }
        ensures pending { watched_pending self.new ≡ has_taken outcome.now || watched_pending self.old }
        ensures ended { watched_ended self.new ≡ watched_ended self.old }
        ensures wasted { watched_wasted self.new
            ≡ watched_wasted self.old || watched_failed self.old || is_empty_buffer buf.now }
    {
        self.wasted = self.wasted || self.failed || buf.is_empty();
        match outcome {
            Ok(n) => {
                self.failed = self.failed || (*n == 0 && !buf.is_empty());
                self.pending = *n > 0 || self.pending;
                self.taken = self.taken.saturating_add(*n as u64);
            }
            Err(_) => self.failed = true,
        }
    }

    // Records a flush and its outcome.
    pub(crate) fn record_flush(&mut self, outcome: &Result<()>)
        ensures inner { watched_inner self.new ≡ watched_inner self.old }
        ensures failed { watched_failed self.new ≡ watched_failed self.old || is_failure outcome.now }
        ensures reads { watched_reads self.new ≡ watched_reads self.old }
        ensures taken { watched_taken self.new ≡ watched_taken self.old }
        ensures flushes { watched_flushes self.new ≡ counted (watched_flushes self.old) 1 }
        ensures pending { watched_pending self.new ≡ is_failure outcome.now && watched_pending self.old }
        ensures ended { watched_ended self.new ≡ watched_ended self.old }
        ensures wasted { watched_wasted self.new ≡ watched_wasted self.old || watched_failed self.old }
    {
        self.wasted = self.wasted || self.failed;
        self.flushes = self.flushes.saturating_add(1);
        match outcome {
            Ok(()) => self.pending = false,
            Err(_) => self.failed = true,
        }
    }
}
