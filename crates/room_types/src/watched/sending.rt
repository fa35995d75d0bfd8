//! Writing a whole text to a monitored writer or stream.
ghost use Rattle.std.specs.Prelude.{◌≡◌, ◌<◌, ◌||◌, ℕ, List, Option, Result, ⊤, None, length, take};
ghost use Rattle.std.specs.Prelude.{OnOk, OnErr, true, IfErr};
ghost use Rattle.std.specs.Io.{WritesAtMost};
ghost use Rattle.std.specs.Io.KnownBytes.{Keeps, WriteAppends};
ghost use Rattle.std.specs.declared.io.Error.{Error};
ghost use Rattle.room_types.specs.Sending.{FailsToWrite, Writes};
ghost use Rattle.room_types.specs.Streams.{Puts, output_of};
ghost use Rattle.room_types.specs.Watched.{StopsAtFailure, watched_ended, watched_failed, watched_flushes};
ghost use Rattle.room_types.specs.Watched.{watched_inner, watched_pending, watched_reads, watched_taken};
ghost use Rattle.room_types.specs.Watched.{has_taken, is_empty_buffer, is_failed_write, taken_after, watched_wasted};

use crate::stream::Stream;
use crate::watched::Watched;
use std::io;
use std::io::Write;

/// A way to write to a monitored `T`. `T` may be a writer and a stream at once, and the contract of a write to a
/// stream says more. So the way is a type of its own, and `T` does not choose it.
pub trait Way<T> {
    /// The bytes left to read, if they are known.
    ghost remaining: { T → Option (List ℕ) };

    /// The bytes written, if they are known.
    ghost contents: { T → Option (List ℕ) };

    /// The relation that one write establishes, as in `Sink` and `Stream`.
    ghost writes: { T → List ℕ → Result ℕ Error → T → Type 0 };

    /// Writes once, records the call, and returns its result.
    fn write_once(device: &mut Watched<T>, buf: &[u8]) -> io::Result<usize>
        ensures bound { WritesAtMost result buf.now }
        ensures bytes { WriteAppends (contents (watched_inner device.old))
            (contents (watched_inner device.new)) result buf.now }
        ensures kept { Keeps (remaining (watched_inner device.old))
            (remaining (watched_inner device.new)) }
        ensures failed { watched_failed device.new
            ≡ watched_failed device.old || is_failed_write buf.now result }
        ensures reads { watched_reads device.new ≡ watched_reads device.old }
        ensures taken { watched_taken device.new ≡ taken_after (watched_taken device.old) result }
        ensures flushes { watched_flushes device.new ≡ watched_flushes device.old }
        ensures pending { watched_pending device.new ≡ has_taken result || watched_pending device.old }
        ensures ended { watched_ended device.new ≡ watched_ended device.old }
        ensures wasted { watched_wasted device.new
            ≡ watched_wasted device.old || watched_failed device.old || is_empty_buffer buf.now }
        ensures called { writes (watched_inner device.old) buf.now result (watched_inner device.new) };
}

/// The way to write to a writer.
pub struct AsWriter;

impl<W: Write> Way<W> for AsWriter {
    ghost remaining = { λ _. None };

    ghost contents = { W.contents };

    ghost writes = { λ _ _ _ _. ⊤ };

    fn write_once(device: &mut Watched<W>, buf: &[u8]) -> io::Result<usize> {
        device.write(buf)
    }
}

/// The way to write to a stream.
pub struct AsStream;

impl<T: Stream> Way<T> for AsStream {
    ghost remaining = { T.remaining };

    ghost contents = { T.contents };

    ghost writes = { T.writes };

    fn write_once(device: &mut Watched<T>, buf: &[u8]) -> io::Result<usize> {
        device.write_some(buf)
    }
}

/// Writes the whole text to `output`, in as many writes as needed. Does not flush.
///
/// # Errors
///
/// If a write fails or takes no byte, `send` makes no further write and returns the number of bytes written before.
/// This number is less than the length of the text.
pub fn send<W: Write>(output: &mut Watched<W>, text: &[u8]) -> Result<(), usize>
    ensures sent { OnOk result
        (Puts (output_of W.contents output.old) (output_of W.contents output.new) text.now) }
    ensures prefix { IfErr result
        (λ sent. Puts (output_of W.contents output.old) (output_of W.contents output.new)
        (take sent text.now)) }
    ensures short { IfErr result (λ sent. sent < length text.now) }
    ensures kept { OnOk result (watched_failed output.new ≡ watched_failed output.old) }
    ensures failed { OnErr result (watched_failed output.new ≡ true) }
    ensures flushes { watched_flushes output.new ≡ watched_flushes output.old }
    ensures stops { StopsAtFailure output.old output.new }
{
    send_by::<AsWriter, W>(output, text)
}

/// Writes the whole text to `device` in this way, in as many writes as needed. Does not flush.
///
/// # Errors
///
/// If a write fails or takes no byte, `send_by` makes no further write and returns the number of bytes written
/// before. This number is less than the length of the text.
pub fn send_by<M: Way<T>, T>(device: &mut Watched<T>, text: &[u8]) -> Result<(), usize>
    ensures sent { OnOk result
        (Puts (output_of M.contents device.old) (output_of M.contents device.new) text.now) }
    ensures prefix { IfErr result
        (λ sent. Puts (output_of M.contents device.old) (output_of M.contents device.new)
        (take sent text.now)) }
    ensures short { IfErr result (λ sent. sent < length text.now) }
    ensures writes { OnOk result (Writes M.writes text.now (length text.now)
        (watched_inner device.old) (watched_inner device.new)) }
    ensures fails { IfErr result (λ sent. FailsToWrite M.writes text.now sent
        (watched_inner device.old) (watched_inner device.new)) }
    ensures kept { OnOk result (watched_failed device.new ≡ watched_failed device.old) }
    ensures failed { OnErr result (watched_failed device.new ≡ true) }
    ensures flushes { watched_flushes device.new ≡ watched_flushes device.old }
    ensures pends { OnOk result (0 < length text.now → watched_pending device.new ≡ true) }
    ensures left { Keeps (M.remaining (watched_inner device.old))
        (M.remaining (watched_inner device.new)) }
    ensures reads { watched_reads device.new ≡ watched_reads device.old }
    ensures ended { watched_ended device.new ≡ watched_ended device.old }
    ensures stops { StopsAtFailure device.old device.new }
{
    // The proof needs this call: its result is a `u64`, so the prover knows that the count fits in 64 bits.
    let _taken = device.taken();
    let mut sent = 0;
    while sent < text.len() {
        match M::write_once(device, &text[sent..]) {
            Ok(0) | Err(_) => return Err(sent),
            Ok(n) => sent += n,
        }
    }
    Ok(())
}
