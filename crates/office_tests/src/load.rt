//! Tests of loading the rows of an office from tables that the documented statements create, in each order of the
//! tables. Rows that are no office's must not load.
use crate::layouts::tables_made;
use office_core::Office;
use office_db::loading::held;
use office_schema::tables::layouts::Layout;
use room_types::Phase;
use sqlite::{Connection, MemStore};
use std::alloc::Global;
use std::process::Abort;

// An office after its second round is published: T1 moves from H1 to R1, and N1 has withdrawn. In the first round T1
// got H1, and a person who has since left took part in a swap. The rows of the people are not in the order of their
// identifiers.
const ROWS: &str = "
INSERT INTO room VALUES ('H1', 0), ('R1', 0), ('S1', 1);
INSERT INTO person VALUES ('T1', 'Tim Tan', 'aaaaaaaaaaaaaaaa', 'H1', 0);
INSERT INTO person VALUES ('N1', 'Ann Lee', 'bbbbbbbbbbbbbbbb', NULL, 1);
INSERT INTO person VALUES ('L1', 'Lea Low', 'cccccccccccccccc', NULL, 1);
INSERT INTO round VALUES (1, 1, 2, 'published');
INSERT INTO choice VALUES ('T1', 0, 'R1');
INSERT INTO word VALUES ('T1', '00000000000000ff');
INSERT INTO result VALUES ('T1', 'R1');
INSERT INTO move VALUES (1, 'T1', NULL, 'H1', 1);
INSERT INTO move VALUES (1, 'N9', 'H1', 'S1', NULL);";

// Statements that add two grades to the office in `ROWS`, in tables of version 2.
const GRADES: &str = "UPDATE round SET version = 2; INSERT INTO grade VALUES ('T1', 9), ('N1', 1);";

// Statements that make L1 a leaver of the office in `ROWS`, in tables of version 3. They also add the first round's
// move of a person who then left the college.
const LEAVERS: &str =
    "UPDATE round SET version = 3; INSERT INTO move VALUES (1, 'N8', 'R1', NULL, 0);
UPDATE person SET withdrawn = 0 WHERE id = 'L1'; INSERT INTO going VALUES ('L1');";

// Statements that break the rows, so that these are no office's. Each has a statement that undoes the break.
const BREAKS: [(&str, &str); 3] = [
    (
        "UPDATE result SET room = 'H1'",
        "UPDATE result SET room = 'R1'",
    ),
    (
        "UPDATE word SET hex = '00000000000000FF'",
        "UPDATE word SET hex = '00000000000000ff'",
    ),
    (
        "UPDATE round SET version = version + 1",
        "UPDATE round SET version = version - 1",
    ),
];

// Statements that break the rows of an office with leavers, so that these are no office's. Each has a statement
// that undoes the break.
const LEAVERS_BREAK: [(&str, &str); 3] = [
    (
        "UPDATE person SET withdrawn = 1 WHERE id = 'L1'",
        "UPDATE person SET withdrawn = 0 WHERE id = 'L1'",
    ),
    (
        "INSERT INTO going VALUES ('T1')",
        "DELETE FROM going WHERE person = 'T1'",
    ),
    (
        "UPDATE move SET wave = 1 WHERE person = 'N8'",
        "UPDATE move SET wave = 0 WHERE person = 'N8'",
    ),
];

// Returns a database with the tables in this layout and the rows of `ROWS`, `GRADES` and `LEAVERS` that fit the
// layout.
fn office_made(rt: &impl Abort, alloc: Global, layout: Layout) -> Connection<MemStore> {
    let mut conn = tables_made(rt, alloc, layout);
    conn.execute_batch(ROWS).expect(rt, ROWS);
    if layout.has_grades() {
        conn.execute_batch(GRADES).expect(rt, GRADES);
    }
    if layout.has_leavers() {
        conn.execute_batch(LEAVERS).expect(rt, LEAVERS);
    }
    conn
}

// Whether the tables hold the office that `office_made` puts there.
fn is_office(
    rt: &impl Abort,
    alloc: Global,
    conn: &mut Connection<MemStore>,
    layout: Layout,
) -> bool {
    let outside = conn.is_autocommit();
    if !outside {
        return false;
    }
    match held(alloc, conn, layout).expect(rt, "the tables are read") {
        Some(office) => is_published(&office, layout),
        None => false,
    }
}

fn is_published(office: &Office, layout: Layout) -> bool {
    let people = office.people.len() == 3 && office.results.len() == 1;
    let round = office.number == 2 && office.phase == Phase::Published;
    let grades = if layout.has_grades() { 2 } else { 0 };
    let leavers = if layout.has_leavers() { 1 } else { 0 };
    people
        && round
        && office.rooms.len() == 3
        && office.grades.len() == grades
        && office.going.len() == leavers
        && office.withdrawn.len() == 2 - leavers
}

// Asserts that the tables hold the office, except while a break is in effect.
fn loads_unless_broken(
    rt: &impl Abort,
    alloc: Global,
    conn: &mut Connection<MemStore>,
    layout: Layout,
    breaks: &[(&str, &str)],
) {
    assert!(rt; is_office(rt, alloc, conn, layout), "{layout:?}");
    for (breaks, mends) in breaks {
        conn.execute_batch(breaks).expect(rt, breaks);
        assert!(rt; !is_office(rt, alloc, conn, layout), "{layout:?}: {breaks}");
        conn.execute_batch(mends).expect(rt, mends);
        assert!(rt; is_office(rt, alloc, conn, layout), "{layout:?}: {mends}");
    }
}

#[test]
fn loads_rows_of_the_documented_statements(rt: HostRuntime) {
    let alloc = rt.alloc();
    for layout in [
        Layout::Own,
        Layout::Documented,
        Layout::DocumentedSecond,
        Layout::DocumentedFirst,
        Layout::EarlierFirst,
    ] {
        let mut conn = office_made(&rt, alloc, layout);
        loads_unless_broken(&rt, alloc, &mut conn, layout, &BREAKS);
        if layout.has_leavers() {
            loads_unless_broken(&rt, alloc, &mut conn, layout, &LEAVERS_BREAK);
        }
    }
}
