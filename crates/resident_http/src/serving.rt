//! Serving one resident at a desk.
ghost use Rattle.std.specs.Prelude.{◌≤◌};
ghost use Rattle.sqlite.specs.Held.{state};
ghost use Rattle.sqlite.specs.State.{HasCleanDisk};
ghost use Rattle.sqlite.specs.Steps.{over_memory};
ghost use Rattle.office_state.specs.declared.office.Office.{Office as AnyOffice};
ghost use Rattle.office_store.specs.Desk.{Shows, Represents};
ghost use Rattle.office_store.specs.Handling.{HandlesAt};
ghost use Rattle.office_core.specs.Requests.{Handles};
ghost use Rattle.office_schema.specs.tables.Steps.{Follows};
ghost use Rattle.room_types.specs.Watched.{IsFresh, StopsAtEnd, watched_reads};
ghost use Rattle.resident_http.specs.Connections.{ServesConnection, connection_limit, connection_of};

use crate::connection::serve_connection;
use crate::served::Served;
use office_store::Desk;
use room_types::{Stream, Watched};
use sqlite::{Alter, MemStore};
use std::alloc::Global;

/// Serves one resident at the desk: reads one request from the stream, lets the desk handle it, writes the response,
/// and flushes. Returns how serving the resident ended.
///
/// If the desk represents an office, and the disk returned what was written to it, then this office may serve the
/// response to the bytes read. The desk then represents the office after the request, even if the response could not
/// be written.
pub fn serve_one<S: Alter, T: Stream>(
    alloc: Global,
    desk: &mut Desk<S>,
    stream: &mut Watched<T>,
) -> Served
    requires fresh { IsFresh stream.old }
    ensures few { watched_reads stream.new ≤ connection_limit }
    ensures no_wasted { StopsAtEnd stream.old stream.new }
    ensures follows { Follows (state S.Store desk.old.conn) (state S.Store desk.new.conn) }
    ensures serves_connection { ServesConnection T.Stream.own (HandlesAt S.Store) result desk.old desk.new
        (connection_of T.remaining T.contents stream.old)
        (connection_of T.remaining T.contents stream.new) }
    ensures serves { HasCleanDisk (state S.Store desk.new.conn) → (office : AnyOffice)
        → Represents S.Store desk.old office → (next : AnyOffice)
        × ServesConnection T.Stream.own Handles result office next
        (connection_of T.remaining T.contents stream.old)
        (connection_of T.remaining T.contents stream.new)
        × Represents S.Store desk.new next }
{
    serve_connection(alloc, desk, stream)
}

/// Serves one resident at a desk over a database in memory: reads one request from the stream, lets the desk handle
/// it, writes the response, and flushes. Returns how serving the resident ended.
///
/// If the desk shows an office, this office may serve the response to the bytes read, and the desk then shows the
/// office after the request. Unlike the contract of `serve_one`, this holds without a premise about a disk.
pub fn serve_one_in_memory<T: Stream>(
    alloc: Global,
    desk: &mut Desk<MemStore>,
    stream: &mut Watched<T>,
) -> Served
    requires fresh { IsFresh stream.old }
    ensures few { watched_reads stream.new ≤ connection_limit }
    ensures no_wasted { StopsAtEnd stream.old stream.new }
    ensures serves_connection { ServesConnection T.Stream.own (HandlesAt over_memory) result
        desk.old desk.new
        (connection_of T.remaining T.contents stream.old)
        (connection_of T.remaining T.contents stream.new) }
    ensures serves { (office : AnyOffice) → Shows over_memory desk.old office
        → (next : AnyOffice)
        × ServesConnection T.Stream.own Handles result office next
        (connection_of T.remaining T.contents stream.old)
        (connection_of T.remaining T.contents stream.new)
        × Shows over_memory desk.new next }
{
    serve_connection(alloc, desk, stream)
}
