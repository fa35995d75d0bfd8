//! Tests of good and bad lists as other programs write them.
use crate::asserting::assert_same;
use office_lists::{
    Cause, ListFault, PersonEntry, read_choices, read_grades, read_people, read_rooms,
};
use room_types::{GradeRow, RoomCode};
use std::alloc::{AllocError, Global};
use std::process::Abort;
use std::test::Fail;

#[test]
fn reads_a_list_of_rooms(rt: HostRuntime) -> Result<(), Fail> {
    let alloc = rt.alloc();
    for list in [
        b"room\nH1\nA-2\n".as_slice(),
        b"room\r\nH1\r\nA-2".as_slice(),
        b"\xEF\xBB\xBF\"room\"\rH1\r\n\n\"A-2\"\r".as_slice(),
    ] {
        let rooms = read(&rt, read_rooms(alloc, list));
        assert!(rt; are_codes(&rooms, "H1", "A-2"));
    }
    let only = read(&rt, read_rooms(alloc, b"room\nH1"));
    assert!(rt; matches!(only.as_slice(), [room] if room.as_str() == "H1"));
    let none = read(&rt, read_rooms(alloc, b"room"));
    assert!(rt; none.is_empty());
    Ok(())
}

fn are_codes(rooms: &[RoomCode], first: &str, second: &str) -> bool {
    matches!(rooms, [a, b] if a.as_str() == first && b.as_str() == second)
}

// The list is as Python's `csv` module writes it, with the byte order mark of the encoding `utf-8-sig`.
#[test]
fn reads_a_list_of_people(rt: HostRuntime) -> Result<(), Fail> {
    let list =
        b"\xEF\xBB\xBFperson,name,key,home\r\nE1,J\xC3\xB6rg M\xC3\xBCller,key00000000000e1,H1\r\nE2,\"Bo, \"\"B.\"\" \xC3\x96z\",key00000000000e2,\r\n";
    let people = read(&rt, read_people(rt.alloc(), list));
    assert!(rt;
        matches!(people.as_slice(), [tenant, newcomer]
            if is_tenant(tenant) && newcomer.name.as_str() == "Bo, \"B.\" Öz" && newcomer.home.is_none())
    );
    Ok(())
}

fn is_tenant(entry: &PersonEntry) -> bool {
    entry.person.as_str() == "E1"
        && entry.name.as_str() == "Jörg Müller"
        && entry.key.as_str() == "key00000000000e1"
        && matches!(&entry.home, Some(home) if home.as_str() == "H1")
}

#[test]
fn reads_the_people_of_a_first_import(rt: HostRuntime) -> Result<(), Fail> {
    let list =
        b"\xEF\xBB\xBFperson,name,key,home\r\nE1,Ann Ash,key00000000000e1,H1\r\nE2,\"Bo, B.\",key00000000000e2,\r\nE3,Cy Coy,key00000000000e3,\r\n";
    let people = read(&rt, read_people(rt.alloc(), list));
    assert!(rt;
        matches!(people.as_slice(), [_, second, third]
            if second.name.as_str() == "Bo, B." && third.person.as_str() == "E3")
    );
    Ok(())
}

// The second list is as Python's `csv` module writes it with every field in quotes.
#[test]
fn reads_a_list_of_choices(rt: HostRuntime) -> Result<(), Fail> {
    let alloc = rt.alloc();
    let choices = read(&rt, read_choices(alloc, b"person,choices\nT1,H2 V"));
    assert!(rt;
        matches!(choices.as_slice(), [only]
            if only.person.as_str() == "T1" && are_codes(only.choices.as_slice(), "H2", "V"))
    );
    let list = b"\"person\",\"choices\"\n\"T1\",\"H2 V\"\n\"T2\",\"\"\n\"T1\",\"V\"\n";
    let choices = read(&rt, read_choices(alloc, list));
    assert!(rt;
        matches!(choices.as_slice(), [_, second, third]
            if second.choices.as_slice().is_empty() && third.person.as_str() == "T1")
    );
    Ok(())
}

#[test]
fn reads_a_list_of_grades(rt: HostRuntime) -> Result<(), Fail> {
    let alloc = rt.alloc();
    let grades = read(&rt, read_grades(alloc, b"person,grade\nE3,1"));
    assert!(rt; matches!(grades.as_slice(), [only] if has_grade(only, "E3", 1)));
    let list = b"person,grade\r\nE1,0\r\n\"E2\",\"9\"\r\nE1,4\r\n";
    let grades = read(&rt, read_grades(alloc, list));
    assert!(rt;
        matches!(grades.as_slice(), [first, second, third]
            if has_grade(first, "E1", 0) && has_grade(second, "E2", 9) && has_grade(third, "E1", 4))
    );
    let none = read(&rt, read_grades(alloc, b"person,grade\n"));
    assert!(rt; none.is_empty());
    Ok(())
}

fn has_grade(row: &GradeRow, person: &str, grade: u8) -> bool {
    row.person.as_str() == person && row.grade.value() == grade
}

#[test]
fn refuses_bad_grades(rt: HostRuntime) -> Result<(), Fail> {
    let alloc = rt.alloc();
    for list in [
        b"person,grade\nE1,10".as_slice(),
        b"person,grade\nE1,".as_slice(),
        b"person,grade\nE1, 1".as_slice(),
        b"person,grade\nE1,-1".as_slice(),
        b"person,grade\nE1,a".as_slice(),
    ] {
        expect(&rt, read_grades(alloc, list), 1, Cause::BadField(2));
    }
    let nobody = b"person,grade\nE1,1\ne2,10\n";
    expect(&rt, read_grades(alloc, nobody), 2, Cause::BadField(1));
    let short = b"person,grade\nE1\n";
    expect(&rt, read_grades(alloc, short), 1, Cause::FieldCount);
    let other = b"person,choices\nE1,1\n";
    expect(&rt, read_grades(alloc, other), 0, Cause::Header);
    Ok(())
}

#[test]
fn refuses_lists_without_their_header(rt: HostRuntime) -> Result<(), Fail> {
    let alloc = rt.alloc();
    for list in [
        b"".as_slice(),
        b"\xEF\xBB\xBF".as_slice(),
        b"\r\n\n".as_slice(),
        b"Room\nH1".as_slice(),
        b" room\nH1".as_slice(),
        b"room,\nH1".as_slice(),
        b"H1\nroom\n".as_slice(),
        b"\xFF\xFEr\0o\0o\0m\0\n\0H\01\0\n\0".as_slice(),
    ] {
        expect(&rt, read_rooms(alloc, list), 0, Cause::Header);
    }
    let semicolons = b"person;choices\r\nT1;H2 V\r\n";
    expect(&rt, read_choices(alloc, semicolons), 0, Cause::Header);
    Ok(())
}

#[test]
fn refuses_bad_rooms(rt: HostRuntime) -> Result<(), Fail> {
    let alloc = rt.alloc();
    expect(
        &rt,
        read_rooms(alloc, b"room\nH1,x\n"),
        1,
        Cause::FieldCount,
    );
    expect(
        &rt,
        read_rooms(alloc, b"room\nH1,\xFF\n"),
        1,
        Cause::FieldCount,
    );
    expect(&rt, read_rooms(alloc, b"room\n\xFF"), 1, Cause::NotText);
    expect(&rt, read_rooms(alloc, b"room\nh1"), 1, Cause::BadField(1));
    expect(
        &rt,
        read_rooms(alloc, b"room\nH1\n H2\n"),
        2,
        Cause::BadField(1),
    );
    expect(
        &rt,
        read_rooms(alloc, b"room\nH\"1\n"),
        1,
        Cause::BadField(1),
    );
    expect(
        &rt,
        read_rooms(alloc, b"room\n\"\"\nh1\nH1,x"),
        1,
        Cause::BadField(1),
    );
    Ok(())
}

// The third list has a line feed in a name, as Python's `csv` module writes it.
#[test]
fn refuses_bad_people(rt: HostRuntime) -> Result<(), Fail> {
    let alloc = rt.alloc();
    let short = b"person,name,key,home\nE1,Ann";
    expect(&rt, read_people(alloc, short), 1, Cause::FieldCount);
    let short_key = b"person,name,key,home\nE1,Ann,key,H1";
    expect(&rt, read_people(alloc, short_key), 1, Cause::BadField(3));
    let two_lines = b"person,name,key,home\r\nE1,\"Ann\nAsh\",key00000000000e1,\r\n";
    expect(&rt, read_people(alloc, two_lines), 1, Cause::BadField(2));
    let no_room = b"person,name,key,home\nE1,Ann,key00000000000e1,h1\n";
    expect(&rt, read_people(alloc, no_room), 1, Cause::BadField(4));
    Ok(())
}

#[test]
fn refuses_bad_choices(rt: HostRuntime) -> Result<(), Fail> {
    let alloc = rt.alloc();
    let two_spaces = b"person,choices\nT1,H2  V";
    expect(&rt, read_choices(alloc, two_spaces), 1, Cause::BadField(2));
    let repeated = b"person,choices\nT1,H2 H2\n";
    expect(&rt, read_choices(alloc, repeated), 1, Cause::BadField(2));
    let at_the_end = b"person,choices\nT1,V \nt1,V\n";
    expect(&rt, read_choices(alloc, at_the_end), 1, Cause::BadField(2));
    let nobody = b"person,choices\n,H2";
    expect(&rt, read_choices(alloc, nobody), 1, Cause::BadField(1));
    Ok(())
}

// A list of choices with one record, which lists the given number of rooms.
fn list_of_choices(alloc: Global, rooms: u8) -> Result<Vec<u8>, AllocError> {
    let mut list = Vec::from_slice(alloc, b"person,choices\nT1,R0")?;
    for number in 1..rooms {
        list.extend_from_slice(format!(in alloc; " R{number}")?.as_bytes())?;
    }
    Ok(list)
}

#[test]
fn reads_choices_up_to_the_limit(rt: HostRuntime) -> Result<(), Fail> {
    let alloc = rt.alloc();
    let choices = read(&rt, read_choices(alloc, &list_of_choices(alloc, 40)?));
    assert!(rt; matches!(choices.as_slice(), [only] if only.choices.as_slice().len() == 40));
    let long = list_of_choices(alloc, 41)?;
    expect(&rt, read_choices(alloc, &long), 1, Cause::BadField(2));
    Ok(())
}

// A list of the header and 10,000 copies of the record, which is the largest number of records.
fn longest(alloc: Global, header: &[u8], record: &[u8]) -> Result<Vec<u8>, AllocError> {
    let mut list = Vec::from_slice(alloc, header)?;
    for _ in 0..10_000 {
        list.extend_from_slice(record)?;
    }
    Ok(list)
}

#[test]
fn refuses_lists_of_rooms_that_are_too_long(rt: HostRuntime) -> Result<(), Fail> {
    let alloc = rt.alloc();
    let mut list = longest(alloc, b"room\n", b"A1\n")?;
    assert_same!(rt; read(&rt, read_rooms(alloc, &list)).len(), 10_000);
    list.extend_from_slice(b"A1")?;
    expect(&rt, read_rooms(alloc, &list), 10_001, Cause::TooMany);
    let mut list = Vec::new(alloc);
    list.extend_from_slice(b"room\n")?;
    for _ in 0..262_140 {
        list.push(b'A')?;
    }
    expect(&rt, read_rooms(alloc, &list), 1, Cause::BadField(1));
    Ok(())
}

// Even the longest of these lists has fewer than 262,144 bytes.
#[test]
fn refuses_other_lists_that_are_too_long(rt: HostRuntime) -> Result<(), Fail> {
    let alloc = rt.alloc();
    let person = b"E1,Ann,key00000000000e1,\n";
    let mut list = longest(alloc, b"person,name,key,home\n", person)?;
    assert_same!(rt; read(&rt, read_people(alloc, &list)).len(), 10_000);
    list.extend_from_slice(person)?;
    assert!(rt; list.len() < 262_144);
    expect(&rt, read_people(alloc, &list), 10_001, Cause::TooMany);
    let mut list = longest(alloc, b"person,choices\n", b"T1,V\n")?;
    assert_same!(rt; read(&rt, read_choices(alloc, &list)).len(), 10_000);
    list.extend_from_slice(b"T1,V")?;
    expect(&rt, read_choices(alloc, &list), 10_001, Cause::TooMany);
    let mut list = longest(alloc, b"person,grade\n", b"T1,7\n")?;
    assert_same!(rt; read(&rt, read_grades(alloc, &list)).len(), 10_000);
    list.extend_from_slice(b"T1,7")?;
    expect(&rt, read_grades(alloc, &list), 10_001, Cause::TooMany);
    Ok(())
}

// Returns the entries of the list. Ends the test if the list is bad.
fn read<T: Drop>(rt: &impl Abort, list: Result<Vec<T>, ListFault>) -> Vec<T> {
    match list {
        Ok(entries) => entries,
        Err(_) => panic!(rt; "the list is good"),
    }
}

// Asserts that the list is bad at the record with number `at`, for this cause.
fn expect<T: Drop>(rt: &impl Abort, list: Result<Vec<T>, ListFault>, at: u32, cause: Cause) {
    match list {
        Ok(_) => panic!(rt; "the list is bad"),
        Err(fault) => assert!(rt; fault == ListFault::Bad { at, cause }),
    }
}
