//! Tests of exports to memory and to a device that fails.
ghost use Rattle.std.specs.Prelude.{◌≡◌, IfOk};
ghost use Rattle.office_lists.specs.Exports.{AscendByRound};
ghost use Rattle.room_types.specs.Ascending.{AscendsBy};

use super::{gone, moved, person_row, room_row, text};
use crate::asserting::assert_same;
use office_lists::{
    ExportKind, WriteEnd, grade_row_bytes, head_bytes, move_row_bytes, person_row_bytes,
    read_grades, room_row_bytes, write_grades, write_moves, write_people, write_rooms,
};
use room_types::{Grade, GradeRow, Move, PersonRow, RoomRow, State, Watched, Wave};
use std::alloc::Global;
use std::io;
use std::io::{Error, ErrorKind, Write};
use std::process::Abort;
use std::test::Fail;

const ROOMS: &[u8] = b"room,state,tenant\nH1,occupied,E1\nH2,free,\n";

// The bytes that Python's `csv` module writes for these fields.
const PEOPLE: &[u8] = b"person,name,home\nE1,Ann Ash,H1\nE2,\"Bo, B.\",\nE3,\"Cy \"\"C\"\" Coy\",\n\
    E4,J\xC3\xB6rg M\xC3\xBCller,\n";

const MOVES: &[u8] =
    b"round,wave,person,from,to\n1,1,N,,V\n1,swap,T1,H1,H2\n1,swap,T2,H2,H1\n12,3,N,V,H3\n";

const GRADES: &[u8] = b"person,grade\nE1,0\nE2,0\nE3,1\n";

#[test]
fn exports_rooms_with_and_without_a_tenant(rt: HostRuntime) -> Result<(), Fail> {
    let alloc = rt.alloc();
    let rows = rooms(&rt, alloc)?;
    let mut output = Watched::new(Vec::new(alloc));
    assert_same!(rt; write_rooms(alloc, &rows, &mut output), Ok(()));
    assert_same!(rt; output.flushes(), 0);
    assert_same!(rt; output.into_inner().as_slice(), ROOMS);
    let mut text = head_bytes(alloc, ExportKind::Rooms)?;
    for row in &rows {
        text.extend_from_slice(&room_row_bytes(alloc, row)?)?;
    }
    assert_same!(rt; text.as_slice(), ROOMS);
    Ok(())
}

#[test]
fn exports_people_whose_names_need_quotes(rt: HostRuntime) -> Result<(), Fail> {
    let alloc = rt.alloc();
    let rows = people(&rt, alloc)?;
    let mut output = Watched::new(Vec::new(alloc));
    assert_same!(rt; write_people(alloc, &rows, &mut output), Ok(()));
    assert_same!(rt; output.into_inner().as_slice(), PEOPLE);
    let mut text = head_bytes(alloc, ExportKind::People)?;
    for row in &rows {
        text.extend_from_slice(&person_row_bytes(alloc, row)?)?;
    }
    assert_same!(rt; text.as_slice(), PEOPLE);
    Ok(())
}

#[test]
fn exports_moves_of_two_rounds(rt: HostRuntime) -> Result<(), Fail> {
    let alloc = rt.alloc();
    let rows = moves(&rt, alloc)?;
    let mut output = Watched::new(Vec::new(alloc));
    assert_same!(rt; write_moves(alloc, &rows, &mut output), Ok(()));
    assert_same!(rt; output.into_inner().as_slice(), MOVES);
    let mut text = head_bytes(alloc, ExportKind::Moves)?;
    for row in &rows {
        text.extend_from_slice(&move_row_bytes(alloc, row)?)?;
    }
    assert_same!(rt; text.as_slice(), MOVES);
    Ok(())
}

// An export of grades that is read as a list gives the same grades.
#[test]
fn exports_grades_that_read_back(rt: HostRuntime) -> Result<(), Fail> {
    let alloc = rt.alloc();
    let rows = grades(&rt, alloc)?;
    let mut output = Watched::new(Vec::new(alloc));
    assert_same!(rt; write_grades(alloc, &rows, &mut output), Ok(()));
    assert_same!(rt; output.into_inner().as_slice(), GRADES);
    let mut text = head_bytes(alloc, ExportKind::Grades)?;
    for row in &rows {
        text.extend_from_slice(&grade_row_bytes(alloc, row)?)?;
    }
    assert_same!(rt; text.as_slice(), GRADES);
    let Ok(again) = read_grades(alloc, &text) else {
        panic!(rt; "the list is good");
    };
    assert!(rt;
        matches!(again.as_slice(), [_, second, third]
            if second.person.as_str() == "E2" && second.grade.value() == 0
            && third.person.as_str() == "E3" && third.grade.value() == 1)
    );
    Ok(())
}

#[test]
fn exports_a_move_out_of_the_college(rt: HostRuntime) -> Result<(), Fail> {
    let alloc = rt.alloc();
    let row = gone(&rt, alloc, 1, "T2", "H2");
    assert_same!(rt;
        move_row_bytes(alloc, &row)?.as_slice(),
        b"1,0,T2,H2,\n".as_slice()
    );
    Ok(())
}

#[test]
fn exports_only_the_header_without_rows(rt: HostRuntime) -> Result<(), Fail> {
    let alloc = rt.alloc();
    for (kind, header) in [
        (ExportKind::Rooms, b"room,state,tenant\n".as_slice()),
        (ExportKind::People, b"person,name,home\n".as_slice()),
        (ExportKind::Moves, b"round,wave,person,from,to\n".as_slice()),
        (ExportKind::Grades, b"person,grade\n".as_slice()),
    ] {
        assert_same!(rt; head_bytes(alloc, kind)?.as_slice(), header);
    }
    let mut output = Watched::new(Vec::new(alloc));
    assert!(rt; write_moves(alloc, &[], &mut output).is_ok());
    assert!(rt; write_people(alloc, &[], &mut output).is_ok());
    assert!(rt; write_rooms(alloc, &[], &mut output).is_ok());
    assert_same!(rt;
        output.into_inner().as_slice(),
        b"round,wave,person,from,to\nperson,name,home\nroom,state,tenant\n".as_slice()
    );
    Ok(())
}

// The bytes that Python's `csv` module writes for these names, with a line feed at the end of each record.
#[test]
fn quotes_a_name_only_if_needed(rt: HostRuntime) -> Result<(), Fail> {
    let alloc = rt.alloc();
    for (name, record) in [
        ("\"", b"T1,\"\"\"\",\n".as_slice()),
        (",", b"T1,\",\",\n".as_slice()),
        ("a, \"b\" c", b"T1,\"a, \"\"b\"\" c\",\n".as_slice()),
        ("#1 x", b"T1,#1 x,\n".as_slice()),
        ("=x;\\'-", b"T1,=x;\\'-,\n".as_slice()),
    ] {
        let row = person_row(&rt, alloc, "T1", None, name);
        assert_same!(rt; person_row_bytes(alloc, &row)?.as_slice(), record);
    }
    Ok(())
}

#[test]
fn stops_where_the_device_is_full(rt: HostRuntime) -> Result<(), Fail> {
    let alloc = rt.alloc();
    let rows = rooms(&rt, alloc)?;
    let mut output = Watched::new(new_device(alloc, usize::MAX, 20));
    assert_same!(rt;
        write_rooms(alloc, &rows, &mut output),
        Err(WriteEnd::Fault { sent: 20 })
    );
    assert!(rt; output.failed() && !output.wasted());
    assert_same!(rt;
        output.into_inner().written.as_slice(),
        b"room,state,tenant\nH1".as_slice()
    );
    for room in 0..ROOMS.len() {
        let mut output = Watched::new(new_device(alloc, usize::MAX, room));
        assert_same!(rt;
            write_rooms(alloc, &rows, &mut output),
            Err(WriteEnd::Fault { sent: room as u128 })
        );
        assert_same!(rt; output.into_inner().written.as_slice(), &ROOMS[..room]);
    }
    println!(rt; "an export whose writer is full: {} faults", ROOMS.len())?;
    Ok(())
}

// The device takes one byte a write, and works again after the write that fails.
#[test]
fn stops_where_a_write_fails(rt: HostRuntime) -> Result<(), Fail> {
    let alloc = rt.alloc();
    let rows = moves(&rt, alloc)?;
    for writes in 0..MOVES.len() {
        let mut output = Watched::new(new_device(alloc, writes, usize::MAX));
        let sent = writes as u128;
        assert_same!(rt;
            write_moves(alloc, &rows, &mut output),
            Err(WriteEnd::Fault { sent })
        );
        assert_same!(rt; output.into_inner().written.as_slice(), &MOVES[..writes]);
    }
    println!(rt; "an export whose writes fail: {} faults", MOVES.len())?;
    Ok(())
}

// The device either is full after `sent` bytes, or fails at the next write.
#[test]
fn stops_where_the_device_is_full_or_fails(rt: HostRuntime) -> Result<(), Fail> {
    let alloc = rt.alloc();
    let rows = people(&rt, alloc)?;
    for sent in 0..PEOPLE.len() {
        for (writes, room) in [(usize::MAX, sent), (sent, usize::MAX)] {
            let mut output = Watched::new(new_device(alloc, writes, room));
            assert_same!(rt;
                write_people(alloc, &rows, &mut output),
                Err(WriteEnd::Fault { sent: sent as u128 })
            );
            assert!(rt; output.failed() && !output.wasted());
            assert_same!(rt; output.into_inner().written.as_slice(), &PEOPLE[..sent]);
        }
    }
    println!(rt;
        "an export of people that fails in two ways: {} faults",
        PEOPLE.len().saturating_mul(2)
    )?;
    Ok(())
}

// A device that takes at most one byte a write, and `room` bytes in all. After `writes` writes one write fails, and
// later writes succeed.
#[derive(Drop)]
struct Device {
    written: Vec<u8>,
    writes: usize,
    room: usize,
}

impl Write for Device {
    fn write(&mut self, buf: &[u8]) -> io::Result<usize> {
        if self.writes == 0 {
            self.writes = usize::MAX;
            return Err(Error::from(ErrorKind::Other));
        }
        self.writes -= 1;
        let len = self.room.min(buf.len()).min(1);
        self.room -= len;
        self.written.extend_from_slice(&buf[..len])?;
        Ok(len)
    }

    fn flush(&mut self) -> io::Result<()> {
        Ok(())
    }
}

fn new_device(alloc: Global, writes: usize, room: usize) -> Device {
    Device {
        written: Vec::new(alloc),
        writes,
        room,
    }
}

fn rooms(rt: &impl Abort, alloc: Global) -> Result<Vec<RoomRow>, Fail>
    ensures { IfOk result (λ rows. AscendsBy (λ row. row.room) rows.items) }
{
    let rows = vec![in alloc;
        room_row(rt, alloc, "H1", State::Occupied, Some("E1")),
        room_row(rt, alloc, "H2", State::Free, None),
    ]?;
    Ok(rows)
}

fn people(rt: &impl Abort, alloc: Global) -> Result<Vec<PersonRow>, Fail>
    ensures { IfOk result (λ rows. AscendsBy (λ row. row.person) rows.items) }
{
    let rows = vec![in alloc;
        person_row(rt, alloc, "E1", Some("H1"), "Ann Ash"),
        person_row(rt, alloc, "E2", None, "Bo, B."),
        person_row(rt, alloc, "E3", None, "Cy \"C\" Coy"),
        person_row(rt, alloc, "E4", None, "Jörg Müller"),
    ]?;
    Ok(rows)
}

fn moves(rt: &impl Abort, alloc: Global) -> Result<Vec<Move>, Fail>
    ensures { IfOk result (λ rows. AscendByRound rows.items) }
{
    let rows = vec![in alloc;
        moved(rt, alloc, 1, "N", None, "V", Wave::Nth(1)),
        moved(rt, alloc, 1, "T1", Some("H1"), "H2", Wave::Swap),
        moved(rt, alloc, 1, "T2", Some("H2"), "H1", Wave::Swap),
        moved(rt, alloc, 12, "N", Some("V"), "H3", Wave::Nth(3)),
    ]?;
    Ok(rows)
}

fn grades(rt: &impl Abort, alloc: Global) -> Result<Vec<GradeRow>, Fail>
    ensures { IfOk result (λ rows. AscendsBy (λ row. row.person) rows.items) }
{
    let rows = vec![in alloc;
        grade_row(rt, alloc, "E1", 0),
        grade_row(rt, alloc, "E2", 0),
        grade_row(rt, alloc, "E3", 1),
    ]?;
    Ok(rows)
}

fn grade_row(rt: &impl Abort, alloc: Global, person: &str, grade: u8) -> GradeRow
    ensures { result.person ≡ person.now }
{
    let Some(grade) = Grade::new(grade) else {
        panic!(rt; "{grade} is no grade");
    };
    GradeRow {
        person: text(rt, alloc, person),
        grade,
    }
}
