//! Tests of creating an office, and of each statement that changes its tables, with enough memory.
use crate::asserting::assert_same;
use crate::building::text;
use office_db::creation::{CreateFault, create};
use office_schema::tables::choices::{add_choice, drop_choices};
use office_schema::tables::going::add_going;
use office_schema::tables::grades::{add_grade, drop_grade};
use office_schema::tables::moves::add_move;
use office_schema::tables::people::{
    add_person, clear_withdrawn, drop_person, set_home, set_withdrawn,
};
use office_schema::tables::results::add_result;
use office_schema::tables::rooms::{add_room, set_shut};
use office_schema::tables::round_tables::clear_round_tables;
use office_schema::tables::rounds::set_round;
use office_schema::tables::words::add_word;
use room_types::{Grade, Move, PersonId, Phase, RoomCode, Wave, Word};
use sqlite::{Connection, Error, MemStore, Transaction};
use std::alloc::Global;
use std::process::Abort;

#[test]
fn creates_the_tables_once(rt: HostRuntime) {
    let mut conn = Connection::open_in_memory(rt.alloc()).expect(&rt, "memory");
    assert!(rt; create(&mut conn) == Ok(()));
    assert!(rt; create(&mut conn) == Err(CreateFault::AlreadyThere));
}

#[test]
fn leaves_other_tables_unchanged(rt: HostRuntime) {
    let mut conn = Connection::open_in_memory(rt.alloc()).expect(&rt, "memory");
    let declared = "CREATE TABLE note(text TEXT); INSERT INTO note VALUES ('Dear Tim')";
    conn.execute_batch(declared).expect(&rt, declared);
    assert!(rt; is_refused(&mut conn));
    let notes = "SELECT count(*) FROM note WHERE text = 'Dear Tim'";
    assert!(rt; count(&rt, &mut conn, notes) == 1);
    let others = "SELECT count(*) FROM sqlite_schema WHERE name <> 'note'";
    assert!(rt; count(&rt, &mut conn, others) == 0);
}

// Creating an office fails if the name of one of its ten tables is taken. The case of letters does not matter.
#[test]
fn refuses_names_that_are_taken(rt: HostRuntime) {
    for name in [
        "room", "person", "round", "choice", "word", "result", "move", "list", "grade", "Going",
    ] {
        assert!(rt; is_taken(&rt, rt.alloc(), name), "{name}");
    }
}

// Whether creating an office fails because there is a table of this name.
fn is_taken(rt: &impl Abort, alloc: Global, name: &str) -> bool {
    let mut conn = Connection::open_in_memory(alloc).expect(rt, "memory");
    let declared = format!(in alloc; "CREATE TABLE {name}(text TEXT)").expect(rt, "memory");
    conn.execute_batch(&declared).expect(rt, name);
    let outside = conn.is_autocommit();
    outside && create(&mut conn) == Err(CreateFault::AlreadyThere)
}

// Whether creating an office in this database fails as unavailable.
fn is_refused(conn: &mut Connection<MemStore>) -> bool {
    let outside = conn.is_autocommit();
    outside && create(conn) == Err(CreateFault::Unavailable)
}

// Returns the number that the query counts.
fn count(rt: &impl Abort, conn: &mut Connection<MemStore>, query: &str) -> i64 {
    let row = conn.query_row(query, &[]).expect(rt, query);
    row.get(0).expect(rt, query)
}

// Queries that count rows, each with its count once each table has one row.
const ADDED: [(&str, i64); 9] = [
    (
        "SELECT count(*) FROM room WHERE code = 'H1' AND shut = 0",
        1,
    ),
    (
        "SELECT count(*) FROM person WHERE id = 'T1' AND home = 'H1' AND withdrawn = 1",
        1,
    ),
    (
        "SELECT count(*) FROM choice WHERE person = 'T1' AND place = 0 AND room = 'H1'",
        1,
    ),
    (
        "SELECT count(*) FROM word WHERE hex = '00000000000000ff'",
        1,
    ),
    (
        "SELECT count(*) FROM result WHERE person = 'T1' AND room IS NULL",
        1,
    ),
    (
        "SELECT count(*) FROM move WHERE round = 1 AND to_room = 'H1' AND wave = 2",
        1,
    ),
    (
        "SELECT count(*) FROM round WHERE version = 3 AND number = 1 AND phase = 'ran'",
        1,
    ),
    (
        "SELECT count(*) FROM grade WHERE person = 'T1' AND value = 9",
        1,
    ),
    ("SELECT count(*) FROM going WHERE person = 'T1'", 1),
];

// Queries that count rows, each with its count once the rows are cleared.
const CLEARED: [(&str, i64); 7] = [
    ("SELECT count(*) FROM room WHERE shut = 1", 1),
    ("SELECT count(*) FROM person", 0),
    ("SELECT count(*) FROM choice", 0),
    ("SELECT count(*) FROM word", 0),
    ("SELECT count(*) FROM result", 0),
    ("SELECT count(*) FROM grade", 0),
    ("SELECT count(*) FROM going", 0),
];

#[test]
fn adds_and_clears_rows(rt: HostRuntime) {
    let alloc = rt.alloc();
    let mut conn = Connection::open_in_memory(alloc).expect(&rt, "memory");
    assert!(rt; create(&mut conn) == Ok(()));
    let outside = conn.is_autocommit();
    assert!(rt; outside);
    let mut tx = conn.transaction();
    let room = text(&rt, alloc, "H1");
    let person = text(&rt, alloc, "T1");
    add(&rt, alloc, &mut tx, &person, &room).expect(&rt, "rows are added");
    has_rows(&rt, &mut tx, &ADDED);
    drop_choices(&mut tx, &person).expect(&rt, "the list is dropped");
    add_choice(&mut tx, &person, 0, &room).expect(&rt, "a list follows");
    has_rows(&rt, &mut tx, &ADDED);
    clear(&mut tx, &person, &room).expect(&rt, "rows are cleared");
    has_rows(&rt, &mut tx, &CLEARED);
    tx.commit().expect(&rt, "a commit");
}

fn add(
    rt: &impl Abort,
    alloc: Global,
    tx: &mut Transaction<'_, MemStore>,
    person: &PersonId,
    room: &RoomCode,
) -> Result<(), Error> {
    add_room(tx, room, false)?;
    add_person(
        tx,
        person,
        &text(rt, alloc, "Tim Tan"),
        &text(rt, alloc, "key00000000000t1"),
        &None,
    )?;
    set_home(tx, person, &Some(text(rt, alloc, "H1")))?;
    set_withdrawn(tx, person)?;
    add_choice(tx, person, 0, room)?;
    add_word(alloc, tx, person, Word::new(255))?;
    add_result(tx, person, &None)?;
    set_round(tx, 1, Phase::Ran)?;
    add_grade(tx, person, Grade::new(9).expect(rt, "a grade"))?;
    add_going(tx, person)?;
    add_move(
        tx,
        &Move {
            round: 1,
            person: text(rt, alloc, "T1"),
            from: None,
            to: Some(text(rt, alloc, "H1")),
            wave: Wave::Nth(2),
        },
    )?;
    Ok(())
}

fn clear(
    tx: &mut Transaction<'_, MemStore>,
    person: &PersonId,
    room: &RoomCode,
) -> Result<(), Error> {
    clear_round_tables(tx)?;
    clear_withdrawn(tx)?;
    set_home(tx, person, &None)?;
    drop_grade(tx, person)?;
    drop_person(tx, person)?;
    set_shut(tx, room, true)?;
    Ok(())
}

// Asserts that each query counts this number of rows.
fn has_rows(rt: &impl Abort, tx: &mut Transaction<'_, MemStore>, counts: &[(&str, i64)]) {
    for (query, wanted) in counts {
        let row = tx.query_row(query, &[]).expect(rt, query);
        let count: i64 = row.get(0).expect(rt, query);
        assert_same!(rt; count, *wanted, query);
    }
}
