//! Writing the bytes of a response to a stream.
ghost use Rattle.std.specs.Prelude.{◌≡◌, false};
ghost use Rattle.std.specs.Io.KnownBytes.{Keeps};
ghost use Rattle.room_types.specs.Streams.{output_of};
ghost use Rattle.room_types.specs.Watched.{watched_ended, watched_failed, watched_inner, watched_reads, watched_wasted};
ghost use Rattle.resident_http.specs.Calls.{Sends};
ghost use Rattle.resident_http.specs.Connections.{Delivers};

use crate::served::Served;
use http::StatusCode;
use room_types::watched::sending::{AsStream, send_by};
use room_types::{Stream, Watched};

/// Writes the bytes `text` of a response to the stream, and flushes. Returns `Answered` with `status` if all this
/// succeeds. If a write or the flush fails, returns `WriteFault` with the number of bytes written before the failure.
pub fn deliver<T: Stream>(stream: &mut Watched<T>, status: StatusCode, text: &[u8]) -> Served
    requires { watched_failed stream.old ≡ false }
    ensures delivers { Delivers result status text.now
        (output_of T.contents stream.old) (output_of T.contents stream.new) }
    ensures sends { Sends T.Stream.own result text.now
        (watched_inner stream.old) (watched_inner stream.new) }
    ensures kept { Keeps (T.remaining (watched_inner stream.old))
        (T.remaining (watched_inner stream.new)) }
    ensures reads { watched_reads stream.new ≡ watched_reads stream.old }
    ensures ended { watched_ended stream.new ≡ watched_ended stream.old }
    ensures wasted { watched_wasted stream.new ≡ watched_wasted stream.old }
{
    if let Err(sent) = send_by::<AsStream, T>(stream, text) {
        return Served::WriteFault { sent };
    }
    match stream.flush_all() {
        Ok(()) => Served::Answered { status },
        Err(_) => Served::WriteFault { sent: text.len() },
    }
}
