//! Ports and listeners: they accept residents' connections and close them.
ghost use Rattle.std.specs.Prelude.{⊤};
ghost use Rattle.room_types.specs.Streams.{output_of};
ghost use Rattle.resident_http.specs.server.Network.{seen};

use office_store::{Desk, Unavailable};
use room_types::{Stream, Watched};
use sqlite::Alter;
use std::io::Write;
use std::net::{Ipv4Addr, SocketAddr, TcpListener, TcpStream};

/// A listening socket. The contract of each method is a relation between the socket's states before and after the
/// call. For generic code, calling the method is the only way to prove this relation. So a contract that names the
/// output and the desk of a call names the ones that were really there.
pub trait Listener {
    ghost use Rattle.std.specs.Prelude.{IfSome, Option, ⊤};
    ghost use Rattle.resident_http.specs.server.Network.{SeenDesk};
    ghost use Rattle.resident_http.specs.server.Unused.{IsUnused};
    ghost use Rattle.room_types.specs.Streams.{Output};
    ghost use Rattle.room_types.specs.declared.watched.Watched.{Watched};

    type Stream: Stream + Drop;

    /// `accepts old printed desk connection new`: after the output `printed` had been written, and while the desk was
    /// as `desk` says, `accept` returned `connection`, which may be `None`, and led from the state `old` to the state
    /// `new`.
    ghost accepts: { Self → Output → SeenDesk → Option (Watched Self.Stream) → Self → Type 0 } = { λ _ _ _ _ _. ⊤ };

    /// `closes old printed desk connection new`: after the output `printed` had been written, and while the desk was
    /// as `desk` says, closing `connection` led from the state `old` to the state `new`.
    ghost closes: { Self → Output → SeenDesk → Watched Self.Stream → Self → Type 0 } = { λ _ _ _ _ _. ⊤ };

    /// Waits for the next connection and returns it, or returns `None` if the connection could not be accepted. The
    /// returned connection is `Watched`, and no call has been made on it yet. `printed` is the output written so far,
    /// and `desk` the desk at which the connection will be served.
    fn accept<W: Write, S: Alter>(
        &mut self,
        printed: &Watched<W>,
        desk: &Desk<S>,
    ) -> Option<Watched<Self::Stream>>
        ensures accepts { accepts self.old (output_of W.contents printed.now)
            (seen S.Store desk.now) result self.new }
        ensures unused { IfSome result IsUnused };

    /// Closes a connection. `printed` is the output written so far, and `desk` the desk at which the connection was
    /// served.
    fn close<W: Write, S: Alter>(
        &mut self,
        connection: Watched<Self::Stream>,
        printed: &Watched<W>,
        desk: &Desk<S>,
    )
        ensures { closes self.old (output_of W.contents printed.now)
            (seen S.Store desk.now) connection self.new };
}

impl Listener for TcpListener {
    type Stream = TcpStream;

    fn accept<W: Write, S: Alter>(
        &mut self,
        _printed: &Watched<W>,
        _desk: &Desk<S>,
    ) -> Option<Watched<TcpStream>> {
        match TcpListener::accept(self) {
            Ok((stream, _peer)) => Some(Watched::new(stream)),
            Err(_) => None,
        }
    }

    fn close<W: Write, S: Alter>(
        &mut self,
        connection: Watched<TcpStream>,
        _printed: &Watched<W>,
        _desk: &Desk<S>,
    )
        ensures { ⊤ }
    {
        drop(connection);
    }
}

/// The ports that residents connect to. The contract of each method is a relation between the states of the ports
/// before and after the call. For generic code, calling the method is the only way to prove this relation.
pub trait Ports {
    ghost use Rattle.std.specs.Prelude.{ℕ, IfOk, OnErr, ⊤};

    type Socket: Listener;

    /// `listens old port socket new`: listening on `port` returned `socket`, and led from the state `old` to the
    /// state `new`.
    ghost listens: { Self → ℕ → Self.Socket → Self → Type 0 } = { λ _ _ _ _. ⊤ };

    /// `fails old port new`: listening on `port` failed, and led from the state `old` to the state `new`.
    ghost fails: { Self → ℕ → Self → Type 0 } = { λ _ _ _. ⊤ };

    /// `stops old socket new`: closing `socket` led from the state `old` to the state `new`.
    ghost stops: { Self → Self.Socket → Self → Type 0 } = { λ _ _ _. ⊤ };

    /// Listens on a port.
    ///
    /// # Errors
    ///
    /// `Unavailable` if listening on the port fails.
    fn listen(&mut self, port: u16) -> Result<Self::Socket, Unavailable>
        ensures listening { IfOk result (λ socket. listens self.old port socket self.new) }
        ensures failed { OnErr result (fails self.old port self.new) };

    /// Closes a listening socket.
    fn stop(&mut self, socket: Self::Socket)
        ensures { stops self.old socket self.new };
}

/// The ports of 127.0.0.1, which no other machine can reach. Listening on a port needs a `HostRuntime`, and the one
/// that this type holds is private. So code that gets only a `Ports` value cannot listen on another address.
#[derive(Drop)]
pub struct Loopback<'a> {
    rt: &'a HostRuntime,
}

impl<'a> Loopback<'a> {
    /// Returns the ports of 127.0.0.1, without listening on any of them yet.
    pub fn new(rt: &'a HostRuntime) -> Self {
        Loopback { rt }
    }
}

impl<'a> Ports for Loopback<'a> {
    type Socket = TcpListener;

    fn listen(&mut self, port: u16) -> Result<TcpListener, Unavailable> {
        match TcpListener::bind(self.rt, SocketAddr::from((Ipv4Addr::LOCALHOST, port))) {
            Ok(listener) => Ok(listener),
            Err(_) => Err(Unavailable),
        }
    }

    fn stop(&mut self, socket: TcpListener)
        ensures { ⊤ }
    {
        drop(socket);
    }
}
