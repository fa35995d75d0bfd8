//! What each table of an office declares.
ghost use Rattle.std.specs.Prelude.{◌≡◌, ℕ};
ghost use Rattle.office_db.specs.loading.Inner.Declared.{table_in};
ghost use Rattle.office_schema.specs.tables.Schema.{office_table};

use office_schema::tables::names::TableName;
use sqlite_schema::schema::Kind;

// The checks that a table declares.
#[derive(Clone, Copy, Drop)]
pub(crate) enum Checks {
    // None.
    Free,
    // The column at this place is 0 or 1.
    Flag(usize),
    // The column at this place is an integer from 1 to 9.
    Digit(usize),
    // The key is 1.
    One,
}

// What a table declares. Each column has a name and a kind, and may refuse NULL. Each reference has the table and the
// column to which it refers, and the place of the column that refers to it.
#[derive(Clone, Copy, Drop)]
pub(crate) struct Form<'a> {
    pub(crate) name: &'a str,
    pub(crate) columns: &'a [(&'a str, Kind, bool)],
    pub(crate) key: Option<usize>,
    pub(crate) primary: &'a [usize],
    pub(crate) uniques: &'a [&'a [usize]],
    pub(crate) checks: Checks,
    pub(crate) references: &'a [(&'a str, &'a str, usize)],
}

const ROOM: Form<'static> = Form {
    name: "room",
    columns: &[("code", Kind::Text, true), ("shut", Kind::Integer, true)],
    key: None,
    primary: &[1],
    uniques: &[&[1]],
    checks: Checks::Flag(2),
    references: &[],
};

const PERSON: Form<'static> = Form {
    name: "person",
    columns: &[
        ("id", Kind::Text, true),
        ("name", Kind::Text, true),
        ("passkey", Kind::Text, true),
        ("home", Kind::Text, false),
        ("withdrawn", Kind::Integer, true),
    ],
    key: None,
    primary: &[1],
    uniques: &[&[1], &[3], &[4]],
    checks: Checks::Flag(5),
    references: &[("room", "code", 4)],
};

const ROUND: Form<'static> = Form {
    name: "round",
    columns: &[
        ("one", Kind::Integer, false),
        ("version", Kind::Integer, true),
        ("number", Kind::Integer, true),
        ("phase", Kind::Text, true),
    ],
    key: Some(0),
    primary: &[0],
    uniques: &[],
    checks: Checks::One,
    references: &[],
};

const CHOICE: Form<'static> = Form {
    name: "choice",
    columns: &[
        ("person", Kind::Text, true),
        ("place", Kind::Integer, true),
        ("room", Kind::Text, true),
    ],
    key: None,
    primary: &[1, 2],
    uniques: &[&[1, 2], &[1, 3]],
    checks: Checks::Free,
    references: &[("person", "id", 1), ("room", "code", 3)],
};

const WORD: Form<'static> = Form {
    name: "word",
    columns: &[("person", Kind::Text, true), ("hex", Kind::Text, true)],
    key: None,
    primary: &[1],
    uniques: &[&[1]],
    checks: Checks::Free,
    references: &[("person", "id", 1)],
};

const RESULT: Form<'static> = Form {
    name: "result",
    columns: &[("person", Kind::Text, true), ("room", Kind::Text, false)],
    key: None,
    primary: &[1],
    uniques: &[&[1], &[2]],
    checks: Checks::Free,
    references: &[("person", "id", 1), ("room", "code", 2)],
};

const MOVE: Form<'static> = Form {
    name: "move",
    columns: &[
        ("round", Kind::Integer, true),
        ("person", Kind::Text, true),
        ("from_room", Kind::Text, false),
        ("to_room", Kind::Text, false),
        ("wave", Kind::Integer, false),
    ],
    key: None,
    primary: &[1, 2],
    uniques: &[&[1, 2]],
    checks: Checks::Free,
    references: &[],
};

const LIST: Form<'static> = Form {
    name: "list",
    columns: &[
        ("label", Kind::Text, true),
        ("kind", Kind::Text, true),
        ("body", Kind::Blob, true),
        ("added", Kind::Integer, true),
    ],
    key: None,
    primary: &[1],
    uniques: &[&[1]],
    checks: Checks::Free,
    references: &[],
};

const GRADE: Form<'static> = Form {
    name: "grade",
    columns: &[("person", Kind::Text, true), ("value", Kind::Integer, true)],
    key: None,
    primary: &[1],
    uniques: &[&[1]],
    checks: Checks::Digit(2),
    references: &[("person", "id", 1)],
};

const GOING: Form<'static> = Form {
    name: "going",
    columns: &[("person", Kind::Text, true)],
    key: None,
    primary: &[1],
    uniques: &[&[1]],
    checks: Checks::Free,
    references: &[("person", "id", 1)],
};

// Returns what this table declares.
pub(crate) fn form_of(own: TableName) -> Form<'static>
    ensures { (tree : ℕ) → table_in result tree ≡ office_table own tree }
{
    match own {
        TableName::Rooms => ROOM,
        TableName::People => PERSON,
        TableName::Rounds => ROUND,
        TableName::Choices => CHOICE,
        TableName::Words => WORD,
        TableName::Results => RESULT,
        TableName::Moves => MOVE,
        TableName::Lists => LIST,
        TableName::Grades => GRADE,
        TableName::Going => GOING,
    }
}
