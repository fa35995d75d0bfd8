//! Creating the tables of an office.
ghost use Rattle.std.specs.Prelude.{◌≡◌, ◌<◌, ◌≤◌, OnErr};
ghost use Rattle.sqlite.specs.Held.{state};
ghost use Rattle.office_schema.specs.tables.Declaring.{DeclaresFirst, CreatesTooFew};
ghost use Rattle.office_schema.specs.tables.Runs.{RunsSome};
ghost use Rattle.office_schema.specs.tables.Schema.{table_text};

use crate::tables::running::run;
use sqlite::{Alter, Error, Transaction};

/// Creates the tables of an office from place `first` to the last place, 9, without rows. Places count from 0, in the
/// order in which this program creates the ten tables. Presupposes that the database has exactly the tables at the
/// places before `first`.
pub fn create_tables_from<S: Alter>(tx: &mut Transaction<'_, S>, first: usize) -> Result<(), Error>
    requires { first ≤ 10 }
    ensures runs { RunsSome S.Store tx.old tx.new result (DeclaresFirst first 10 first) }
    ensures undone { OnErr result
        (CreatesTooFew first (state S.Store tx.old.conn.now) (state S.Store tx.new.conn.now)) }
{
    for place in first..10 {
        run(tx, table_text(place), &[])?;
    }
    Ok(())
}

// Returns the statement that creates the table at this place. Each table comes after the tables that it refers to.
// The four tables of a round come last, because `clear_round_tables` drops them and creates them again.
fn table_text(place: usize) -> &'static str
    requires { place < 10 }
    ensures { result.now ≡ table_text place }
{
    match place {
        0 => "CREATE TABLE room(code TEXT PRIMARY KEY NOT NULL,
  shut INTEGER NOT NULL CHECK(shut IN (0, 1))) STRICT",
        1 => "CREATE TABLE person(id TEXT PRIMARY KEY NOT NULL, name TEXT NOT NULL,
  passkey TEXT NOT NULL UNIQUE, home TEXT UNIQUE REFERENCES room(code),
  withdrawn INTEGER NOT NULL CHECK(withdrawn IN (0, 1))) STRICT",
        2 => "CREATE TABLE round(one INTEGER PRIMARY KEY CHECK(one = 1),
  version INTEGER NOT NULL, number INTEGER NOT NULL, phase TEXT NOT NULL) STRICT",
        3 => "CREATE TABLE move(round INTEGER NOT NULL, person TEXT NOT NULL,
  from_room TEXT, to_room TEXT, wave INTEGER, PRIMARY KEY(round, person)) STRICT",
        4 => "CREATE TABLE list(label TEXT PRIMARY KEY NOT NULL, kind TEXT NOT NULL,
  body BLOB NOT NULL, added INTEGER NOT NULL) STRICT",
        5 => "CREATE TABLE grade(person TEXT PRIMARY KEY NOT NULL REFERENCES person(id),
  value INTEGER NOT NULL CHECK(value IN (1,2,3,4,5,6,7,8,9))) STRICT",
        6 => "CREATE TABLE word(person TEXT PRIMARY KEY NOT NULL REFERENCES person(id),
  hex TEXT NOT NULL) STRICT",
        7 => "CREATE TABLE result(person TEXT PRIMARY KEY NOT NULL REFERENCES person(id),
  room TEXT UNIQUE REFERENCES room(code)) STRICT",
        8 => "CREATE TABLE choice(person TEXT NOT NULL REFERENCES person(id),
  place INTEGER NOT NULL, room TEXT NOT NULL REFERENCES room(code),
  PRIMARY KEY(person, place), UNIQUE(person, room)) STRICT",
        _ => "CREATE TABLE going(person TEXT PRIMARY KEY NOT NULL REFERENCES person(id)) STRICT",
    }
}
