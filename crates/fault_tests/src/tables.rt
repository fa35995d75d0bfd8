//! Statements that create the tables of an office. The tables are of an earlier version, or in the documented order.
use crate::texts::{REGISTER, ROUND};

/// Statements that create the tables of an office and fill them, and lines after which an empty office equals this
/// office.
#[derive(Clone, Copy, Drop)]
pub struct Tables {
    /// The statements that create the tables and fill them.
    pub statements: &'static [&'static str],
    /// Whether the tables are of an earlier version, so that a desk has to migrate them and cannot adopt them.
    pub are_earlier: bool,
    pub lines: &'static [&'static str],
}

const REGISTER_TABLES: &str = "CREATE TABLE room(code TEXT PRIMARY KEY NOT NULL,
  shut INTEGER NOT NULL CHECK(shut IN (0, 1))) STRICT;
CREATE TABLE person(id TEXT PRIMARY KEY NOT NULL, name TEXT NOT NULL,
  passkey TEXT NOT NULL UNIQUE, home TEXT UNIQUE REFERENCES room(code),
  withdrawn INTEGER NOT NULL CHECK(withdrawn IN (0, 1))) STRICT;
CREATE TABLE round(one INTEGER PRIMARY KEY CHECK(one = 1),
  version INTEGER NOT NULL, number INTEGER NOT NULL, phase TEXT NOT NULL) STRICT;";

const CHOICE_TABLE: &str = "CREATE TABLE choice(person TEXT NOT NULL REFERENCES person(id),
  place INTEGER NOT NULL, room TEXT NOT NULL REFERENCES room(code),
  PRIMARY KEY(person, place), UNIQUE(person, room)) STRICT;";

const DRAWN_TABLES: &str =
    "CREATE TABLE word(person TEXT PRIMARY KEY NOT NULL REFERENCES person(id),
  hex TEXT NOT NULL) STRICT;
CREATE TABLE result(person TEXT PRIMARY KEY NOT NULL REFERENCES person(id),
  room TEXT UNIQUE REFERENCES room(code)) STRICT;";

const RECORD_TABLES: &str = "CREATE TABLE move(round INTEGER NOT NULL, person TEXT NOT NULL,
  from_room TEXT, to_room TEXT, wave INTEGER, PRIMARY KEY(round, person)) STRICT;
CREATE TABLE list(label TEXT PRIMARY KEY NOT NULL, kind TEXT NOT NULL,
  body BLOB NOT NULL, added INTEGER NOT NULL) STRICT;";

const GRADE_TABLE: &str =
    "CREATE TABLE grade(person TEXT PRIMARY KEY NOT NULL REFERENCES person(id),
  value INTEGER NOT NULL CHECK(value IN (1,2,3,4,5,6,7,8,9))) STRICT;";

const GOING_TABLE: &str =
    "CREATE TABLE going(person TEXT PRIMARY KEY NOT NULL REFERENCES person(id)) STRICT;";

// The rows that `REGISTER` and `ROUND` leave in the tables.
const ROWS: &str = "INSERT INTO room VALUES ('H1', 0), ('H2', 0), ('V', 0);
INSERT INTO person VALUES ('T1', 'Tim Tan', 'key00000000000t1', 'H1', 0);
INSERT INTO person VALUES ('T2', 'Tom Tao', 'key00000000000t2', 'H2', 0);
INSERT INTO person VALUES ('N', 'Nia Noor', 'key000000000000n', NULL, 0);
INSERT INTO round VALUES (1, 1, 1, 'published');
INSERT INTO choice VALUES ('T1', 0, 'H2'), ('T2', 0, 'H1'), ('N', 0, 'H1'), ('N', 1, 'V');
INSERT INTO word VALUES ('N', '0000000000000003'), ('T1', '0000000000000001');
INSERT INTO word VALUES ('T2', '0000000000000002');
INSERT INTO result VALUES ('N', 'V'), ('T1', 'H2'), ('T2', 'H1');";

/// The tables of version 1, created in the order of the documentation.
pub const FIRST: Tables = Tables {
    statements: &[
        REGISTER_TABLES,
        CHOICE_TABLE,
        DRAWN_TABLES,
        RECORD_TABLES,
        ROWS,
    ],
    are_earlier: true,
    lines: &[REGISTER, ROUND],
};

/// The tables of version 1 in the order in which this program created them.
pub const EARLIER_FIRST: Tables = Tables {
    statements: &[
        REGISTER_TABLES,
        RECORD_TABLES,
        DRAWN_TABLES,
        CHOICE_TABLE,
        ROWS,
    ],
    are_earlier: true,
    lines: &[REGISTER, ROUND],
};

/// The tables of version 2, with one person's grade.
pub const SECOND: Tables = Tables {
    statements: &[
        REGISTER_TABLES,
        CHOICE_TABLE,
        DRAWN_TABLES,
        RECORD_TABLES,
        GRADE_TABLE,
        ROWS,
        "UPDATE round SET version = 2; INSERT INTO grade VALUES ('N', 2);",
    ],
    are_earlier: true,
    lines: &[REGISTER, "grade N 2\n", ROUND],
};

/// The tables of the current version, 3, created in the order of the documentation, with one person's grade.
pub const THIRD: Tables = Tables {
    statements: &[
        REGISTER_TABLES,
        CHOICE_TABLE,
        DRAWN_TABLES,
        RECORD_TABLES,
        GRADE_TABLE,
        GOING_TABLE,
        ROWS,
        "UPDATE round SET version = 3; INSERT INTO grade VALUES ('N', 9);",
    ],
    are_earlier: false,
    lines: &[REGISTER, "grade N 9\n", ROUND],
};
