//! The documented statements that create the tables of an office, and the orders in which the tables are created.
use office_schema::tables::layouts::Layout;
use sqlite::{Connection, MemStore};
use std::alloc::Global;
use std::process::Abort;

const ROOM: &str = "CREATE TABLE room(code TEXT PRIMARY KEY NOT NULL,
  shut INTEGER NOT NULL CHECK(shut IN (0, 1))) STRICT;";

const PERSON: &str = "CREATE TABLE person(id TEXT PRIMARY KEY NOT NULL, name TEXT NOT NULL,
  passkey TEXT NOT NULL UNIQUE, home TEXT UNIQUE REFERENCES room(code),
  withdrawn INTEGER NOT NULL CHECK(withdrawn IN (0, 1))) STRICT;";

const ROUND: &str = "CREATE TABLE round(one INTEGER PRIMARY KEY CHECK(one = 1),
  version INTEGER NOT NULL, number INTEGER NOT NULL, phase TEXT NOT NULL) STRICT;";

const CHOICE: &str = "CREATE TABLE choice(person TEXT NOT NULL REFERENCES person(id),
  place INTEGER NOT NULL, room TEXT NOT NULL REFERENCES room(code),
  PRIMARY KEY(person, place), UNIQUE(person, room)) STRICT;";

const WORD: &str = "CREATE TABLE word(person TEXT PRIMARY KEY NOT NULL REFERENCES person(id),
  hex TEXT NOT NULL) STRICT;";

const RESULT: &str = "CREATE TABLE result(person TEXT PRIMARY KEY NOT NULL REFERENCES person(id),
  room TEXT UNIQUE REFERENCES room(code)) STRICT;";

const MOVE: &str = "CREATE TABLE move(round INTEGER NOT NULL, person TEXT NOT NULL,
  from_room TEXT, to_room TEXT, wave INTEGER, PRIMARY KEY(round, person)) STRICT;";

const LIST: &str = "CREATE TABLE list(label TEXT PRIMARY KEY NOT NULL, kind TEXT NOT NULL,
  body BLOB NOT NULL, added INTEGER NOT NULL) STRICT;";

// The program breaks this statement into two lines. White space makes no difference to what it declares.
const GRADE: &str =
    "CREATE TABLE grade(person TEXT PRIMARY KEY NOT NULL REFERENCES person(id), value INTEGER NOT NULL CHECK(value IN (1,2,3,4,5,6,7,8,9))) STRICT;";

const GOING: &str =
    "CREATE TABLE going(person TEXT PRIMARY KEY NOT NULL REFERENCES person(id)) STRICT;";

// The order of the tables in a new office.
const OWN: [&str; 10] = [
    ROOM, PERSON, ROUND, MOVE, LIST, GRADE, WORD, RESULT, CHOICE, GOING,
];

// The documented order of the tables. Version 2 has the first nine of them, and version 1 has the first eight.
const DOCUMENTED: [&str; 10] = [
    ROOM, PERSON, ROUND, CHOICE, WORD, RESULT, MOVE, LIST, GRADE, GOING,
];

// The order in which this program created the tables of version 1.
const EARLIER: [&str; 8] = [ROOM, PERSON, ROUND, MOVE, LIST, WORD, RESULT, CHOICE];

/// Returns a database in memory with the tables of this layout, all without rows.
pub fn tables_made(rt: &impl Abort, alloc: Global, layout: Layout) -> Connection<MemStore> {
    let tables = match layout {
        Layout::Own => OWN.as_slice(),
        Layout::EarlierFirst => EARLIER.as_slice(),
        _ => DOCUMENTED.as_slice(),
    };
    let mut conn = Connection::open_in_memory(alloc).expect(rt, "memory");
    for table in tables.iter().take(layout.tables()) {
        conn.execute_batch(table).expect(rt, table);
    }
    conn
}
