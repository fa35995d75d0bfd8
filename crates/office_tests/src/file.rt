//! Tests of offices in files. Each file is closed by one call, because each place that may close a file needs a proof
//! of its own.
use crate::asserting::assert_same;
use crate::building::{add_room, is_bare};
use office_core::Reply;
use office_file::{FileDesk, OnFile, close_file};
use office_store::{Answer, Desk, DeskFault};
use sqlite::Wary;
use std::alloc::Global;
use std::process::Abort;
use std::{fs, io};

type Opened = Result<FileDesk<Wary>, DeskFault>;

fn make_folder(rt: &HostRuntime, folder: &str) -> io::Result<()> {
    let _ = fs::remove_dir_all(rt, folder);
    fs::create_dir(rt, folder)
}

// Returns the fault, or `None` if there is a desk. Closes the file.
fn fault(opened: Opened) -> Option<DeskFault> {
    let fault = match &opened {
        Ok(_) => None,
        Err(fault) => Some(*fault),
    };
    close_file(opened);
    fault
}

// Adds the room H1. Returns the numbers of rooms before and after that, or `None` if there is no desk. Closes the
// file.
fn room_added(rt: &impl Abort, alloc: Global, mut opened: Opened) -> Option<(usize, usize)> {
    let counts = match &mut opened {
        Ok(desk) => Some(counts(rt, alloc, desk)),
        Err(_) => None,
    };
    close_file(opened);
    counts
}

fn counts(rt: &impl Abort, alloc: Global, desk: &mut FileDesk<Wary>) -> (usize, usize) {
    let before = room_count(rt, alloc, desk);
    let done = adds_room(rt, alloc, desk);
    let after = room_count(rt, alloc, desk);
    (before, if done { after } else { before })
}

// Adds the room H1 and returns whether the desk accepted it.
fn adds_room(rt: &impl Abort, alloc: Global, desk: &mut FileDesk<Wary>) -> bool {
    let requests = [add_room(rt, alloc, "H1")];
    let answers = desk.handle_all(alloc, &requests).expect(rt, "memory");
    matches!(answers.as_slice(), [Answer::Reply(Reply::Done)])
}

// Returns the number of rooms of the office in the file. Asserts that the office has nothing but rooms.
fn room_count(rt: &impl Abort, alloc: Global, desk: &mut FileDesk<Wary>) -> usize {
    let office = desk.load(alloc).expect(rt, "an office in the file");
    assert_same!(rt; is_bare(&office), true);
    office.rooms.len()
}

#[test]
fn creates_an_office_once(rt: HostRuntime) -> io::Result<()> {
    make_folder(&rt, "office_file_once")?;
    let path = "office_file_once/office.db";
    assert_same!(rt; fault(Desk::create_file(&rt, path)), None);
    assert_same!(rt;
        fault(Desk::create_file(&rt, path)),
        Some(DeskFault::AlreadyThere)
    );
    fs::remove_dir_all(&rt, "office_file_once")?;
    Ok(())
}

#[test]
fn creates_no_office_over_other_files(rt: HostRuntime) -> io::Result<()> {
    make_folder(&rt, "office_file_other")?;
    fs::write(&rt, "office_file_other/letter", b"Dear Tim,\n".as_slice())?;
    for path in [
        "office_file_other",
        "office_file_other/none/office.db",
        "office_file_other/letter",
    ] {
        let fault = fault(Desk::create_file(&rt, path));
        assert_same!(rt; fault, Some(DeskFault::Unavailable), path);
    }
    let content = fs::read_to_string(&rt, "office_file_other/letter")?;
    assert_same!(rt; content.as_str(), "Dear Tim,\n");
    fs::remove_dir_all(&rt, "office_file_other")?;
    Ok(())
}

#[test]
fn reopens_the_office(rt: HostRuntime) -> io::Result<()> {
    make_folder(&rt, "office_file_again")?;
    let path = "office_file_again/office.db";
    assert_same!(rt; fault(Desk::create_file(&rt, path)), None);
    assert_same!(rt;
        room_added(&rt, rt.alloc(), Desk::on_file(&rt, path)),
        Some((0, 1))
    );
    assert_same!(rt;
        fault(Desk::create_file(&rt, path)),
        Some(DeskFault::AlreadyThere)
    );
    assert_same!(rt;
        room_added(&rt, rt.alloc(), Desk::on_file(&rt, path)),
        Some((1, 1))
    );
    fs::remove_dir_all(&rt, "office_file_again")?;
    Ok(())
}

#[test]
fn opens_no_missing_or_empty_file(rt: HostRuntime) -> io::Result<()> {
    make_folder(&rt, "office_file_elsewhere")?;
    let missing = fault(Desk::on_file(&rt, "office_file_elsewhere/office.db"));
    assert_same!(rt; missing, Some(DeskFault::Unavailable));
    assert!(rt; !fs::exists(&rt, "office_file_elsewhere/office.db")?);
    fs::write(&rt, "office_file_elsewhere/empty", b"".as_slice())?;
    let empty = fault(Desk::on_file(&rt, "office_file_elsewhere/empty"));
    assert_same!(rt; empty, Some(DeskFault::NotAnOffice));
    fs::remove_dir_all(&rt, "office_file_elsewhere")?;
    Ok(())
}
