//! Serves one connection: reads a request from a stream and writes the response.
ghost use Rattle.std.specs.Prelude.{◌≡◌, ◌≤◌, false};
ghost use Rattle.std.specs.Io.KnownBytes.{Keeps};
ghost use Rattle.room_types.specs.Streams.{output_of};
ghost use Rattle.room_types.specs.Watched.{IsFresh, StopsAtEnd, watched_ended, watched_failed};
ghost use Rattle.room_types.specs.Watched.{watched_inner, watched_wasted, watched_reads};
ghost use Rattle.resident_requests.specs.Asks.{HasEarlyStatus, seen};
ghost use Rattle.resident_http.specs.Connections.{ServesConnection, Responds, connection_limit, connection_of};

use crate::answering::answer_ask;
use crate::delivery::deliver;
use crate::served::Served;
use http::StatusCode;
use office_store::Handler;
use resident_requests::{AskState, read_ask};
use room_types::{Stream, Watched};
use std::alloc::Global;

/// The greatest number of bytes read from a connection: the length of the longest head plus that of the longest body.
pub const CONNECTION_LIMIT: usize = 9_216;

/// Serves one connection: reads one request from the stream, passes it to the handler, writes the response, and
/// flushes once. Returns how serving the connection ended.
///
/// Reads until the request is complete or refused, or until the stream ends. The reads fill a fixed buffer and need
/// no allocation. An incomplete or refused request gets its response, 400, 413, 417 or 501, without any allocation. If
/// an allocation for another response fails, the response is 503, and the handler has handled no command.
///
/// Makes no calls on the stream except the reads, the writes and the flush. After a call fails, makes no further call
/// on the stream. After the end of the stream is found, makes no further read.
pub fn serve_connection<H: Handler, T: Stream>(
    alloc: Global,
    handler: &mut H,
    stream: &mut Watched<T>,
) -> Served
    requires ready { H.is_ready handler.old }
    requires fresh { IsFresh stream.old }
    ensures few { watched_reads stream.new ≤ connection_limit }
    ensures no_wasted { StopsAtEnd stream.old stream.new }
    ensures serves_connection { ServesConnection T.Stream.own H.handles result handler.old handler.new
        (connection_of T.remaining T.contents stream.old)
        (connection_of T.remaining T.contents stream.new) }
    ensures ready { H.is_ready handler.new }
{
    let mut buffer = [0u8; CONNECTION_LIMIT];
    let mut filled = 0;
    'reads: loop {
        match read_ask(&buffer[..filled]) {
            AskState::More => match stream.read_some(&mut buffer[filled..]) {
                Ok(0) => {
                    if filled == 0 {
                        return Served::Silent;
                    }
                    return respond(alloc, handler, stream, &AskState::More);
                }
                Ok(n) => filled += n,
                Err(_) => return Served::ReadFault,
            },
            asked => return respond(alloc, handler, stream, &asked),
        }
    }
}

// Finds the response to `asked`, the parsed bytes, writes the response to the stream, and flushes. An incomplete
// request gets status 400, because no more bytes will come.
fn respond<H: Handler, T: Stream>(
    alloc: Global,
    handler: &mut H,
    stream: &mut Watched<T>,
    asked: &AskState<'_>,
) -> Served
    requires ready { H.is_ready handler.old }
    requires early { HasEarlyStatus (seen asked.now) }
    requires failed { watched_failed stream.old ≡ false }
    ensures responds { Responds T.Stream.own H.handles (seen asked.now)
        handler.old handler.new result
        (output_of T.contents stream.old) (output_of T.contents stream.new)
        (watched_inner stream.old) (watched_inner stream.new) }
    ensures kept { Keeps (T.remaining (watched_inner stream.old))
        (T.remaining (watched_inner stream.new)) }
    ensures reads { watched_reads stream.new ≡ watched_reads stream.old }
    ensures ended { watched_ended stream.new ≡ watched_ended stream.old }
    ensures wasted { watched_wasted stream.new ≡ watched_wasted stream.old }
    ensures ready { H.is_ready handler.new }
{
    match answer_ask(alloc, handler, asked) {
        Ok(bytes) => deliver(stream, StatusCode::OK, bytes.as_slice()),
        Err(error) => deliver(stream, error.status(), error.bytes()),
    }
}
