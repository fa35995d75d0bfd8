//! Functions that make requests, and functions that handle requests at desks in memory.
use office_core::Command;
use office_lines::{ParsedLine, parse_line};
use office_state::Office;
use office_store::{Answer, Desk, Handler, Request};
use room_types::{Label, ListKind, Listing, OutOfMemory};
use sqlite::MemStore;
use std::alloc::Global;

/// Parses each line of these texts and returns the requests. Skips lines that are no request.
pub fn parse_requests(alloc: Global, texts: &[&str]) -> Result<Vec<Request>, OutOfMemory> {
    let mut requests = Vec::new(alloc);
    for text in texts {
        ask_lines(alloc, &mut requests, text)?;
    }
    Ok(requests)
}

/// Appends the requests of these lines. Skips lines that are no request.
pub fn ask_lines(
    alloc: Global,
    requests: &mut Vec<Request>,
    lines: &str,
) -> Result<(), OutOfMemory> {
    for line in lines.lines() {
        if let ParsedLine::Valid(request) = parse_line(alloc, line.as_bytes())? {
            requests.push(request)?;
        }
    }
    Ok(())
}

/// Appends a request to import this list of this kind under the label.
pub fn ask_list(
    alloc: Global,
    requests: &mut Vec<Request>,
    kind: ListKind,
    label: &str,
    list: &str,
) -> Result<(), OutOfMemory> {
    let command = list_command(alloc, kind, label, list)?;
    requests.push(Request::Office(command))?;
    Ok(())
}

fn list_command(
    alloc: Global,
    kind: ListKind,
    label: &str,
    list: &str,
) -> Result<Command, OutOfMemory> {
    let Ok(label) = Label::read(alloc, label) else {
        return Err(OutOfMemory {});
    };
    let bytes = Vec::from_slice(alloc, list.as_bytes())?;
    Ok(Command::Import {
        label,
        kind,
        bytes: Listing::new(bytes),
    })
}

/// Drops the desk. All tests drop their desks here, so that one proof covers every drop.
pub fn drop_desk(desk: Desk<MemStore>) {
    drop(desk);
}

/// Handles the request and returns whether the answer is a reply.
pub fn is_replied<H: Handler>(alloc: Global, handler: &mut H, request: &Request) -> bool
    requires { H.is_ready handler.old }
    ensures { H.is_ready handler.new }
{
    let answer = handler.handle(alloc, request);
    matches!(answer, Answer::Reply(_))
}

// Handles the request. Returns whether the answer is anything but `Unavailable`.
fn is_answered<H: Handler>(alloc: Global, handler: &mut H, request: &Request) -> bool
    requires { H.is_ready handler.old }
    ensures { H.is_ready handler.new }
{
    let answer = handler.handle(alloc, request);
    !matches!(answer, Answer::Unavailable)
}

/// Handles these requests in turn. Fails at the first answer that is `Unavailable`.
pub fn furnish(
    alloc: Global,
    desk: &mut Desk<MemStore>,
    requests: &[Request],
) -> Result<(), OutOfMemory> {
    for request in requests {
        if !is_answered(alloc, desk, request) {
            return Err(OutOfMemory {});
        }
    }
    Ok(())
}

/// Handles these requests at a new desk in memory, and returns the office that the desk then loads. Fails if there is
/// no desk, an answer is `Unavailable`, or the office cannot be loaded.
pub fn office_after(alloc: Global, requests: &[Request]) -> Result<Office, OutOfMemory> {
    let Ok(mut desk) = Desk::in_memory(alloc) else {
        return Err(OutOfMemory {});
    };
    let office = furnished_office(alloc, &mut desk, requests);
    drop_desk(desk);
    office
}

fn furnished_office(
    alloc: Global,
    desk: &mut Desk<MemStore>,
    requests: &[Request],
) -> Result<Office, OutOfMemory> {
    furnish(alloc, desk, requests)?;
    match desk.load(alloc) {
        Ok(office) => Ok(office),
        Err(_) => Err(OutOfMemory {}),
    }
}
