//! Stories: requests to an office one of whose files stops.
use crate::asking::{ask_lines, ask_list, office_after, parse_requests};
use crate::stops::files::{Calls, Held, StoppingFile, files_of};
use crate::stops::visits::{Opening, Visit, visit_files, write_files};
use crate::tables::Tables;
use crate::texts::{CHOICES, GRADES, LEAVING, PEOPLE, REGISTER, ROOMS, ROUND};
use office_state::Office;
use office_store::Request;
use room_types::{ListKind, OutOfMemory};
use sqlite::Files;
use std::alloc::Global;

/// Requests to an office. `offices` has the office before the first request and the one after each request.
#[derive(Drop)]
pub struct Story {
    /// The bytes of the files at the start.
    pub held: Held,
    /// How the desk opens its office.
    pub opening: Opening,
    pub requests: Vec<Request>,
    pub offices: Vec<Office>,
}

/// A story in which a desk creates an office in empty files.
pub fn creation(alloc: Global) -> Option<Story> {
    let requests = Vec::new(alloc);
    let offices = offices_of(alloc, &requests).ok()?;
    Some(Story {
        held: nothing_held(alloc),
        opening: Opening::Made,
        requests,
        offices,
    })
}

/// A story of a small year, in which a room is shut for a while.
pub fn small_year(alloc: Global) -> Option<Story> {
    let texts = [REGISTER, "shut V\nreopen V\n", ROUND, "settle\n"];
    story_of(alloc, parse_requests(alloc, &texts).ok()?)
}

/// A story of a year with grades, in which a person leaves the college. A further round, in which another person
/// plans to leave, is cancelled.
pub fn year_of_leavers(alloc: Global) -> Option<Story> {
    let texts = [REGISTER, LEAVING, "settle\nopen\ngoing T1\ncancel\n"];
    story_of(alloc, parse_requests(alloc, &texts).ok()?)
}

/// A story in which a desk opens the office in these tables and settles its round.
pub fn story_from_tables(alloc: Global, tables: &Tables) -> Option<Story> {
    let files = files_of(alloc, b"", b"", Calls::ALL)?;
    let held = held_in(alloc, write_files(alloc, files, tables.statements)?)?;
    let lines = parse_requests(alloc, tables.lines).ok()?;
    let mut offices = Vec::new(alloc);
    offices.push(office_after(alloc, &lines).ok()?).ok()?;
    let requests = parse_requests(alloc, &["settle\n"]).ok()?;
    offices.push(settled_office(alloc, tables)?).ok()?;
    Some(Story {
        held,
        opening: if tables.are_earlier {
            Opening::Earlier
        } else {
            Opening::Held
        },
        requests,
        offices,
    })
}

fn settled_office(alloc: Global, tables: &Tables) -> Option<Office> {
    let mut requests = parse_requests(alloc, tables.lines).ok()?;
    ask_lines(alloc, &mut requests, "settle\n").ok()?;
    office_after(alloc, &requests).ok()
}

/// A story in which lists are imported, two of them twice.
pub fn imports(alloc: Global) -> Option<Story> {
    story_of(alloc, import_requests(alloc).ok()?)
}

fn import_requests(alloc: Global) -> Result<Vec<Request>, OutOfMemory> {
    let mut requests = Vec::new(alloc);
    ask_list(alloc, &mut requests, ListKind::Rooms, "r-1", ROOMS)?;
    ask_list(alloc, &mut requests, ListKind::People, "p-1", PEOPLE)?;
    ask_list(alloc, &mut requests, ListKind::Grades, "g-1", GRADES)?;
    ask_list(alloc, &mut requests, ListKind::Grades, "g-1", GRADES)?;
    ask_lines(alloc, &mut requests, "open\n")?;
    ask_list(alloc, &mut requests, ListKind::Choices, "c-1", CHOICES)?;
    ask_list(alloc, &mut requests, ListKind::Choices, "c-1", CHOICES)?;
    Ok(requests)
}

// Returns a story in which a desk adopts an empty office and handles these requests.
fn story_of(alloc: Global, requests: Vec<Request>) -> Option<Story> {
    let offices = offices_of(alloc, &requests).ok()?;
    let held = empty_office_held(alloc)?;
    Some(Story {
        held,
        opening: Opening::Held,
        requests,
        offices,
    })
}

// Returns the office before the first request and after each request, as desks in memory compute it.
fn offices_of(alloc: Global, requests: &[Request]) -> Result<Vec<Office>, OutOfMemory> {
    let mut offices = Vec::new(alloc);
    for made in 0..requests.len() {
        offices.push(office_after(alloc, &requests[..made])?)?;
    }
    offices.push(office_after(alloc, requests)?)?;
    Ok(offices)
}

fn nothing_held(alloc: Global) -> Held {
    Held {
        log: Vec::new(alloc),
        database: Vec::new(alloc),
    }
}

// Creates an empty office in two files and returns the bytes of the files.
fn empty_office_held(alloc: Global) -> Option<Held> {
    let files = files_of(alloc, b"", b"", Calls::ALL)?;
    let creation = Visit {
        opening: Opening::Made,
        requests: &[],
        is_read: false,
    };
    let (made, files) = visit_files(alloc, files, creation);
    if made.fault.is_some() {
        return None;
    }
    held_in(alloc, files)
}

fn held_in(alloc: Global, files: Files<StoppingFile>) -> Option<Held> {
    Some(Held {
        log: Vec::from_slice(alloc, files.log.inner().bytes()).ok()?,
        database: Vec::from_slice(alloc, files.db.inner().bytes()).ok()?,
    })
}
