//! Accepts connections one after another and serves a resident on each.
ghost use Rattle.std.specs.Prelude.{◌≡◌, IfOk, OnErr, OnOk, string_bytes};
ghost use Rattle.room_types.specs.Streams.{output_of};
ghost use Rattle.room_types.specs.Watched.{StopsAtFailure};
ghost use Rattle.resident_http.specs.server.Network.{network_of};
ghost use Rattle.resident_http.specs.server.Serving.{EndsAtClosedDesk, EndsAtOpenDesk};
ghost use Rattle.resident_http.specs.server.Serving.{IsFoundOpen, IsNotFoundOpen};
ghost use Rattle.resident_http.specs.server.Serving.{ServesAll, ServesNext, ServesPort};
ghost use Rattle.resident_http.specs.server.Texts.{listening_text, served_text};

use crate::serve_one;
use crate::server::listener::{Listener, Ports};
use office_store::{Desk, Unavailable};
use room_types::Watched;
use room_types::printing::{ACCEPTED, UNAVAILABLE, print};
use sqlite::Alter;
use std::alloc::{AllocError, Global};
use std::io::Write;

/// Listens on `port`, calls `serve_listener`, and closes the listener. `serve_listener` asks for `count` connections,
/// one after another, and serves a resident on each one that is accepted. It ends early if the desk's connection is
/// closed. Returns the exit status of `serve_listener`. If listening on the port fails, prints `unavailable` and
/// returns 3.
pub fn serve_port<S: Alter, P: Ports, W: Write>(
    alloc: Global,
    desk: &mut Desk<S>,
    ports: &mut P,
    port: u16,
    count: u32,
    output: &mut Watched<W>,
) -> u8
    ensures no_wasted_write { StopsAtFailure output.old output.new }
    ensures serves { let network = network_of
        P.Socket.Stream.reads P.Socket.Stream.writes P.Socket.Stream.flushes
        P.Socket.Stream.remaining P.Socket.Stream.contents
        P.Socket.accepts P.Socket.closes P.listens P.fails P.stops in
        ServesPort S.Store network ports.old desk.old ports.new desk.new port count result
        (output_of W.contents output.old) (output_of W.contents output.new) }
{
    match ports.listen(port) {
        Ok(mut listener) => {
            let status = serve_listener(alloc, desk, &mut listener, port, count, output);
            ports.stop(listener);
            status
        }
        Err(Unavailable) => print(output, "unavailable\n", UNAVAILABLE),
    }
}

/// Prints `listening on 127.0.0.1:PORT`. Then asks the listener for `count` connections, one after another, as
/// `serve_each` does. Then prints `served COUNT`, or `unavailable` if the desk's connection was not found open before
/// each connection and after the last. Returns exit status 0 if `listening on ..` and `served COUNT` were printed, and
/// 3 otherwise.
///
/// Allocates both lines at the start. If an allocation for the lines fails, prints `unavailable` and asks for no
/// connection. If the first line cannot be printed, asks for no connection either.
pub fn serve_listener<S: Alter, L: Listener, W: Write>(
    alloc: Global,
    desk: &mut Desk<S>,
    listener: &mut L,
    port: u16,
    count: u32,
    output: &mut Watched<W>,
) -> u8
    ensures no_wasted_write { StopsAtFailure output.old output.new }
    ensures serves { ServesAll S.Store L.Stream.Stream.own L.Stream.remaining L.Stream.contents
        L.accepts L.closes listener.old desk.old listener.new desk.new port count result
        (output_of W.contents output.old) (output_of W.contents output.new) }
{
    let Ok(lines) = prepare_lines(alloc, port, count) else {
        return print(output, "unavailable\n", UNAVAILABLE);
    };
    if print(output, lines.listening.as_str(), ACCEPTED) != ACCEPTED {
        return UNAVAILABLE;
    }
    let Ok(()) = serve_each(alloc, desk, listener, output, count) else {
        return print(output, "unavailable\n", UNAVAILABLE);
    };
    print(output, lines.served.as_str(), ACCEPTED)
}

/// Asks the listener for `count` connections, one after another. Serves a resident on each one that is accepted, and
/// closes it before asking for the next. A failed attempt to accept a connection also counts. `printed` is the output
/// written so far.
///
/// Before each connection, and after the last, asks the desk whether its connection to the database is open. A desk
/// whose connection is closed can store nothing more, so the listener is asked for no connection then.
///
/// # Errors
///
/// `Unavailable` if the desk's connection is closed, or if memory runs out, so that the desk cannot say.
pub fn serve_each<S: Alter, L: Listener, W: Write>(
    alloc: Global,
    desk: &mut Desk<S>,
    listener: &mut L,
    printed: &Watched<W>,
    count: u32,
) -> Result<(), Unavailable>
    ensures serves { OnOk result (EndsAtOpenDesk S.Store
        L.Stream.Stream.own L.Stream.remaining L.Stream.contents L.accepts L.closes
        (output_of W.contents printed.now) listener.old desk.old count listener.new desk.new) }
    ensures stops { OnErr result (EndsAtClosedDesk S.Store
        L.Stream.Stream.own L.Stream.remaining L.Stream.contents L.accepts L.closes
        (output_of W.contents printed.now) listener.old desk.old count listener.new desk.new) }
{
    'connections: for _ in 0..count {
        require_open(desk)?;
        serve_next(alloc, desk, listener, printed);
    }
    require_open(desk)
}

// Asks the desk whether its connection is open, and fails if it is not, or if memory runs out.
fn require_open<S: Alter>(desk: &mut Desk<S>) -> Result<(), Unavailable>
    ensures open { OnOk result (IsFoundOpen S.Store desk.old desk.new) }
    ensures closed { OnErr result (IsNotFoundOpen S.Store desk.old desk.new) }
{
    if desk.is_open()? {
        Ok(())
    } else {
        Err(Unavailable)
    }
}

// Accepts one connection and, if that succeeds, serves a resident on it and closes it.
fn serve_next<S: Alter, L: Listener, W: Write>(
    alloc: Global,
    desk: &mut Desk<S>,
    listener: &mut L,
    printed: &Watched<W>,
)
    ensures serves { ServesNext S.Store L.Stream.Stream.own L.Stream.remaining L.Stream.contents
        L.accepts L.closes (output_of W.contents printed.now) listener.old desk.old listener.new desk.new }
{
    let mut connection = match listener.accept(printed, desk) {
        Some(connection) => connection,
        None => return,
    };
    let _served = serve_one(alloc, desk, &mut connection);
    listener.close(connection, printed, desk);
}

// The lines printed before the first connection and after the last.
#[derive(Drop)]
struct Lines {
    listening: String,
    served: String,
}

fn prepare_lines(alloc: Global, port: u16, count: u32) -> Result<Lines, AllocError>
    ensures listening { IfOk result (λ lines. string_bytes lines.listening ≡ listening_text port) }
    ensures served { IfOk result (λ lines. string_bytes lines.served ≡ served_text count) }
{
    let listening = format!(in alloc; "listening on 127.0.0.1:{port}\n")?;
    let served = format!(in alloc; "served {count}\n")?;
    Ok(Lines { listening, served })
}
