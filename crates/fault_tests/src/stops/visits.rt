//! Desks over two files. The functions that work at a desk are generic over the store, so that only `visit_files` and
//! `write_files` depend on the files.
ghost use Rattle.std.specs.Prelude.{◌≡◌, false};

use crate::asking::is_replied;
use crate::stops::files::StoppingFile;
use office_state::Office;
use office_store::{Back, Desk, DeskFault, Request};
use sqlite::{Alter, Connection, Files, Options};
use std::alloc::Global;

// The connection copies the log into the database file after a few commands, so that files also stop during a copy.
const OPTIONS: Options = Options {
    cache_pages: 100,
    spill_pages: 100,
    checkpoint_frames: 30,
    seed: 7,
};

/// How a desk opens the office in its files.
#[derive(Clone, Copy, PartialEq, Eq, Drop)]
pub enum Opening {
    /// The desk creates the office.
    Made,
    /// The desk adopts the office that the files hold.
    Held,
    /// The desk migrates the office that the files hold in tables of an earlier version.
    Earlier,
}

/// The work of a desk over two files.
#[derive(Clone, Copy, Drop)]
pub struct Visit<'a> {
    /// How the desk opens its office.
    pub opening: Opening,
    /// The requests, in order. The desk stops after the first that gets no reply.
    pub requests: &'a [Request],
    /// Whether the desk loads the office at the end.
    pub is_read: bool,
}

/// The outcome of the work of a desk over two files.
#[derive(Drop)]
pub struct Visited {
    /// Why no desk could be opened, or `None` if there was a desk.
    pub fault: Option<DeskFault>,
    /// The number of requests that got a reply. It is 0 if there was no desk.
    pub answered: usize,
    /// The office that the desk loaded at the end, or `None` if the desk loaded no office.
    pub office: Option<Office>,
}

fn no_desk(fault: DeskFault) -> Visited {
    Visited {
        fault: Some(fault),
        answered: 0,
        office: None,
    }
}

/// Opens a desk over these files and lets it do the work that `visit` describes. Returns the outcome and the files.
/// Changes that were not committed are lost.
pub fn visit_files(
    alloc: Global,
    files: Files<StoppingFile>,
    visit: Visit<'_>,
) -> (Visited, Files<StoppingFile>) {
    if !files.may_be_used() {
        return (no_desk(DeskFault::Unavailable), files);
    }
    match Connection::open_files(alloc, files, OPTIONS) {
        Ok(connection) => {
            let (visited, store) = visit_over(alloc, connection, visit);
            (visited, store.close())
        }
        Err((_, left)) => (no_desk(DeskFault::Unavailable), left.into_files()),
    }
}

fn visit_over<S: Alter + Drop>(
    alloc: Global,
    connection: Connection<S>,
    visit: Visit<'_>,
) -> (Visited, S)
    requires { connection.in_transaction ≡ false }
{
    match desk_over(alloc, connection, visit.opening) {
        Ok(mut desk) => {
            let visited = visit_desk(alloc, &mut desk, visit);
            (visited, desk.release().into_store())
        }
        Err(Back { fault, connection }) => (no_desk(fault), connection.into_store()),
    }
}

fn desk_over<S: Alter + Drop>(
    alloc: Global,
    connection: Connection<S>,
    opening: Opening,
) -> Result<Desk<S>, Back<S>>
    requires { connection.in_transaction ≡ false }
{
    match opening {
        Opening::Made => Desk::create(alloc, connection),
        Opening::Held => Desk::adopt(alloc, connection),
        Opening::Earlier => Desk::migrate(alloc, connection),
    }
}

/// Runs these statements over the files and returns the files. Returns `None` if the files cannot be opened or a
/// statement fails.
pub fn write_files(
    alloc: Global,
    files: Files<StoppingFile>,
    statements: &[&str],
) -> Option<Files<StoppingFile>> {
    if !files.may_be_used() {
        return None;
    }
    match Connection::open_files(alloc, files, OPTIONS) {
        Ok(connection) => written(connection, statements).map(|store| store.close()),
        Err(_) => None,
    }
}

fn written<S: Alter + Drop>(mut connection: Connection<S>, statements: &[&str]) -> Option<S> {
    for statement in statements {
        if connection.execute_batch(statement).is_err() {
            return None;
        }
    }
    Some(connection.into_store())
}

fn visit_desk<S: Alter + Drop>(alloc: Global, desk: &mut Desk<S>, visit: Visit<'_>) -> Visited {
    let answered = answered_at(alloc, desk, visit.requests);
    let office = if visit.is_read {
        desk.load(alloc).ok()
    } else {
        None
    };
    Visited {
        fault: None,
        answered,
        office,
    }
}

// Handles the requests up to the first that gets no reply. Returns how many got a reply.
fn answered_at<S: Alter + Drop>(alloc: Global, desk: &mut Desk<S>, requests: &[Request]) -> usize {
    let mut answered = 0usize;
    for request in requests {
        if !is_replied(alloc, desk, request) {
            return answered;
        }
        answered = answered.saturating_add(1);
    }
    answered
}
