//! A test that stores changes of all kinds, in two batches, in a database in memory, with enough memory.
use crate::asserting::assert_same;
use crate::building::{choices, text};
use office_core::{Change, Office, apply};
use office_db::changes::store_changes;
use office_db::creation::create;
use room_types::{Grade, ListKind, Listing, Move, Phase, Wave, Word};
use sqlite::{Connection, MemStore};
use std::alloc::Global;
use std::process::Abort;

// Queries that count rows, each with its count after the changes.
const STORED: [(&str, i64); 14] = [
    (
        "SELECT count(*) FROM room WHERE code = 'H1' AND shut = 1",
        1,
    ),
    (
        "SELECT count(*) FROM person WHERE id = 'T1' AND home = 'H1' AND withdrawn = 0",
        1,
    ),
    ("SELECT count(*) FROM person", 1),
    (
        "SELECT count(*) FROM person WHERE name = 'Tom Tan' AND passkey = 'key00000000000t4'",
        1,
    ),
    ("SELECT count(*) FROM choice", 0),
    ("SELECT count(*) FROM word", 0),
    ("SELECT count(*) FROM result", 0),
    ("SELECT count(*) FROM going", 0),
    ("SELECT count(*) FROM list", 1),
    (
        "SELECT count(*) FROM list WHERE label = 'h-1' AND kind = 'rooms' AND body = x'626C616E6B6564' AND added = 1",
        1,
    ),
    ("SELECT count(*) FROM grade", 1),
    (
        "SELECT count(*) FROM grade WHERE person = 'T1' AND value = 9",
        1,
    ),
    (
        "SELECT count(*) FROM move WHERE person = 'T1' AND to_room = 'H1' AND wave = 1",
        1,
    ),
    (
        "SELECT count(*) FROM round WHERE version = 3 AND number = 1 AND phase = 'idle'",
        1,
    ),
];

#[test]
fn stores_the_changes_of_a_round(rt: HostRuntime) {
    let alloc = rt.alloc();
    let mut conn = Connection::open_in_memory(alloc).expect(&rt, "memory");
    assert!(rt; create(&mut conn) == Ok(()));
    let mut office = Office::empty(alloc);
    let first = round_under_way(&rt, alloc);
    store(&rt, alloc, &mut conn, &office, &first);
    for change in &first {
        apply(&mut office, change).expect(&rt, "memory");
    }
    let last = round_over(&rt, alloc);
    store(&rt, alloc, &mut conn, &office, &last);
    for (query, wanted) in STORED {
        assert_same!(rt; count(&rt, &mut conn, query), wanted, query);
    }
}

// Stores the changes in the tables of the office.
fn store(
    rt: &impl Abort,
    alloc: Global,
    conn: &mut Connection<MemStore>,
    office: &Office,
    changes: &[Change],
) {
    let outside = conn.is_autocommit();
    assert!(rt; outside);
    store_changes(alloc, conn, office, changes).expect(rt, "changes are stored");
}

// Returns the number that the query counts.
fn count(rt: &impl Abort, conn: &mut Connection<MemStore>, query: &str) -> i64 {
    let row = conn.query_row(query, &[]).expect(rt, query);
    row.get(0).expect(rt, query)
}

// The change that adds a person without a home.
fn newcomer(rt: &impl Abort, alloc: Global, id: &str, key: &str) -> Change {
    Change::PutPerson {
        person: text(rt, alloc, id),
        name: text(rt, alloc, "Tim Tan"),
        key: text(rt, alloc, key),
        home: None,
    }
}

fn graded(rt: &impl Abort, alloc: Global, id: &str, grade: u8) -> Change {
    Change::PutGrade {
        person: text(rt, alloc, id),
        grade: Grade::new(grade).expect(rt, "a grade"),
    }
}

fn round_under_way(rt: &impl Abort, alloc: Global) -> Vec<Change> {
    vec![in alloc;
        Change::PutRoom {
            room: text(rt, alloc, "H1"),
            shut: false,
        },
        newcomer(rt, alloc, "T1", "key00000000000t1"),
        newcomer(rt, alloc, "T2", "key00000000000t2"),
        newcomer(rt, alloc, "T3", "key00000000000t3"),
        graded(rt, alloc, "T1", 2),
        graded(rt, alloc, "T1", 9),
        graded(rt, alloc, "T2", 1),
        graded(rt, alloc, "T3", 1),
        graded(rt, alloc, "T3", 0),
        Change::KeepList {
            label: text(rt, alloc, "h-1"),
            kind: ListKind::Rooms,
            bytes: Listing::new(Vec::from_slice(alloc, b"room\nH1\n").expect(rt, "memory")),
            count: 1,
        },
        Change::PutBytes {
            label: text(rt, alloc, "h-1"),
            bytes: Listing::new(Vec::from_slice(alloc, b"blanked").expect(rt, "memory")),
        },
        Change::PutNameAndKey {
            person: text(rt, alloc, "T1"),
            name: text(rt, alloc, "Tom Tan"),
            key: text(rt, alloc, "key00000000000t4"),
        },
        Change::PutRound {
            number: 1,
            phase: Phase::Opened,
        },
        Change::PutChoices {
            person: text(rt, alloc, "T1"),
            choices: choices(rt, alloc, &["H1"]),
        },
        Change::PutWithdrawn {
            person: text(rt, alloc, "T1"),
        },
        Change::PutWord {
            person: text(rt, alloc, "T1"),
            word: Word::new(255),
        },
        Change::PutResult {
            person: text(rt, alloc, "T1"),
            room: Some(text(rt, alloc, "H1")),
        },
        Change::PutGoing {
            person: text(rt, alloc, "T2"),
        },
    ]
    .expect(rt, "memory")
}

fn round_over(rt: &impl Abort, alloc: Global) -> Vec<Change> {
    vec![in alloc;
        Change::PutHome {
            person: text(rt, alloc, "T1"),
            home: Some(text(rt, alloc, "H1")),
        },
        Change::AddMove(Move {
            round: 1,
            person: text(rt, alloc, "T1"),
            from: None,
            to: Some(text(rt, alloc, "H1")),
            wave: Wave::Nth(1),
        }),
        Change::ClearRound,
        Change::PutRound {
            number: 1,
            phase: Phase::Idle,
        },
        Change::DropPerson {
            person: text(rt, alloc, "T2"),
        },
        Change::DropPerson {
            person: text(rt, alloc, "T3"),
        },
        Change::PutRoom {
            room: text(rt, alloc, "H1"),
            shut: true,
        },
    ]
    .expect(rt, "memory")
}
