//! Tests that call each function that reads rows, with enough memory, on rows that are not in order.
use crate::building::{optional, text};
use office_schema::rows::{
    ChoiceRecord, OfficeRecords, PersonRecord, RoundRecord, read_choices, read_keys, read_moves,
    read_office, read_people, read_round, read_table,
};
use office_state::{Person, StoredImport};
use room_types::{Grade, Label, ListKind, Listing, Move, PersonId, Phase, RoomCode, Wave};
use std::alloc::Global;
use std::process::Abort;

// Two rooms, the later one first.
fn rooms(rt: &impl Abort, alloc: Global) -> Vec<(RoomCode, bool)> {
    vec![in alloc;
        (text(rt, alloc, "H2"), false),
        (text(rt, alloc, "H1"), false),
    ]
    .expect(rt, "memory")
}

fn person(
    rt: &impl Abort,
    alloc: Global,
    id: &str,
    key: &str,
    home: Option<&str>,
    withdrawn: bool,
) -> PersonRecord {
    PersonRecord {
        id: text(rt, alloc, id),
        person: Person {
            name: text(rt, alloc, "Tim Tan"),
            key: text(rt, alloc, key),
            home: optional(rt, alloc, home),
        },
        withdrawn,
    }
}

// A tenant who has withdrawn, and a newcomer.
fn people(rt: &impl Abort, alloc: Global) -> Vec<PersonRecord> {
    vec![in alloc;
        person(rt, alloc, "T", "key00000000000t1", Some("H1"), true),
        person(rt, alloc, "N", "key000000000000n", None, false),
    ]
    .expect(rt, "memory")
}

fn choice(rt: &impl Abort, alloc: Global, place: u64, room: &str) -> ChoiceRecord {
    ChoiceRecord {
        person: text(rt, alloc, "N"),
        place,
        room: text(rt, alloc, room),
    }
}

// The newcomer ranks H2 before H1.
fn choices(rt: &impl Abort, alloc: Global) -> Vec<ChoiceRecord> {
    vec![in alloc; choice(rt, alloc, 1, "H1"), choice(rt, alloc, 0, "H2")].expect(rt, "memory")
}

// The same move the given number of times.
fn moves(rt: &impl Abort, alloc: Global, times: usize) -> Vec<Move> {
    let mut moves = Vec::new(alloc);
    for _ in 0..times {
        let moved = Move {
            round: 1,
            person: text(rt, alloc, "T"),
            from: None,
            to: Some(text(rt, alloc, "H1")),
            wave: Wave::Nth(1),
        };
        moves.push(moved).expect(rt, "memory");
    }
    moves
}

fn round(rt: &impl Abort, alloc: Global, phase: Phase) -> Vec<RoundRecord> {
    let row = RoundRecord {
        version: 3,
        number: 2,
        phase,
    };
    vec![in alloc; row].expect(rt, "memory")
}

#[test]
fn reads_the_rooms(rt: HostRuntime) {
    let alloc = rt.alloc();
    let found = read_table(alloc, rooms(&rt, alloc)).expect(&rt, "memory");
    assert!(rt; matches!(&found, Some(rooms) if rooms.len() == 2));
}

#[test]
fn reads_the_people(rt: HostRuntime) {
    let alloc = rt.alloc();
    let found = read_people(alloc, people(&rt, alloc)).expect(&rt, "memory");
    assert!(rt;
        matches!(&found, Some(people) if people.people.len() == 2 && people.withdrawn.len() == 1)
    );
}

#[test]
fn reads_the_choices(rt: HostRuntime) {
    let alloc = rt.alloc();
    let found = read_choices(alloc, choices(&rt, alloc)).expect(&rt, "memory");
    assert!(rt; matches!(&found, Some(lists) if lists.len() == 1));
}

#[test]
fn refuses_a_second_move_of_a_round(rt: HostRuntime) {
    let alloc = rt.alloc();
    for times in 0..3 {
        let found = read_moves(alloc, moves(&rt, alloc, times)).expect(&rt, "memory");
        assert!(rt; found.is_some() == (times < 2));
    }
}

// A list that was imported under a label and added the given number of records.
fn lists(rt: &impl Abort, alloc: Global, count: u16) -> Vec<(Label, StoredImport)> {
    let stored = StoredImport {
        kind: ListKind::Rooms,
        bytes: Listing::new(Vec::from_slice(alloc, b"room\nH1\n").expect(rt, "memory")),
        count,
    };
    vec![in alloc; (text(rt, alloc, "r-1"), stored)].expect(rt, "memory")
}

// The newcomer's grade.
fn grades(rt: &impl Abort, alloc: Global) -> Vec<(PersonId, Grade)> {
    let grade = Grade::new(9).expect(rt, "a grade");
    vec![in alloc; (text(rt, alloc, "N"), grade)].expect(rt, "memory")
}

fn people_called(rt: &impl Abort, alloc: Global, ids: &[&str]) -> Vec<PersonId> {
    let mut people = Vec::new(alloc);
    for id in ids {
        people.push(text(rt, alloc, id)).expect(rt, "memory");
    }
    people
}

// The rows of all tables. They may be rows of no lawful office.
fn records(
    rt: &impl Abort,
    alloc: Global,
    phase: Phase,
    count: u16,
    going: &[&str],
) -> OfficeRecords {
    OfficeRecords {
        rooms: rooms(rt, alloc),
        people: people(rt, alloc),
        rounds: round(rt, alloc, phase),
        choices: choices(rt, alloc),
        words: Vec::new(alloc),
        results: Vec::new(alloc),
        moves: moves(rt, alloc, 1),
        lists: lists(rt, alloc, count),
        grades: grades(rt, alloc),
        going: people_called(rt, alloc, going),
    }
}

// Whether these rows, in tables of this version, are those of a lawful office with this number of leavers.
fn is_read(
    rt: &impl Abort,
    alloc: Global,
    records: OfficeRecords,
    version: u16,
    leavers: usize,
) -> bool {
    match read_office(alloc, records, version).expect(rt, "memory") {
        Some(office) => {
            let stored = office.lists.len() == 1 && office.grades.len() == 1;
            stored && office.going.len() == leavers
        }
        None => false,
    }
}

// These rows are lawful only in an open or a closed round. Between rounds an office has no preference lists, and a
// drawn round has words, which these rows lack.
#[test]
fn reads_only_lawful_offices(rt: HostRuntime) {
    let alloc = rt.alloc();
    for phase in [Phase::Idle, Phase::Opened, Phase::Closed, Phase::Drawn] {
        let records = records(&rt, alloc, phase, 1, &[]);
        let found = is_read(&rt, alloc, records, 3, 0);
        assert!(rt; found == matches!(phase, Phase::Opened | Phase::Closed));
    }
    let round = round(&rt, alloc, Phase::Ran);
    assert!(rt; read_round(round.as_slice(), 3).is_some());
}

// An import adds at most 10,000 records.
#[test]
fn accepts_imports_of_at_most_ten_thousand_records(rt: HostRuntime) {
    let alloc = rt.alloc();
    for count in [10_000, 10_001] {
        let records = records(&rt, alloc, Phase::Opened, count, &[]);
        assert!(rt; is_read(&rt, alloc, records, 3, 0) == (count == 10_000));
    }
}

#[test]
fn reads_only_rows_of_its_version(rt: HostRuntime) {
    let alloc = rt.alloc();
    for version in 0..5 {
        let records = records(&rt, alloc, Phase::Opened, 1, &[]);
        assert!(rt; is_read(&rt, alloc, records, version, 0) == (version == 3));
    }
}

// A leaver has to be a person of the office who has not withdrawn, and has to have exactly one row.
#[test]
fn accepts_only_valid_leavers(rt: HostRuntime) {
    let alloc = rt.alloc();
    for (going, wanted) in [
        (["N"].as_slice(), true),
        (["N", "N"].as_slice(), false),
        (["T"].as_slice(), false),
        (["X"].as_slice(), false),
    ] {
        let records = records(&rt, alloc, Phase::Opened, 1, going);
        assert!(rt; is_read(&rt, alloc, records, 3, 1) == wanted);
    }
    let twice = people_called(&rt, alloc, &["N", "T", "N"]);
    assert!(rt; read_keys(alloc, twice).expect(&rt, "memory").is_none());
}
