//! A test of migrating a file with an office of version 1, by calls of `Desk::migrate_file`.
use crate::asserting::same;
use crate::running::{execute, make_folder};
use office_cli::desk_faults::refuse_desk;
use office_file::{FileDesk, OnFile, close_file};
use office_lines::do_line::do_words;
use office_store::{Desk, DeskFault};
use room_types::Watched;
use sqlite::Wary;
use std::alloc::Global;
use std::fs;
use std::process::Abort;
use std::test::Fail;

// The tables of version 1 in the documented order, with a drawn round. T1 and T2 list each other's home. N is last in
// the order and lists H1 and V.
const FIRST_VERSION: &str = "CREATE TABLE room(code TEXT PRIMARY KEY NOT NULL,
  shut INTEGER NOT NULL CHECK(shut IN (0, 1))) STRICT;
CREATE TABLE person(id TEXT PRIMARY KEY NOT NULL, name TEXT NOT NULL,
  passkey TEXT NOT NULL UNIQUE, home TEXT UNIQUE REFERENCES room(code),
  withdrawn INTEGER NOT NULL CHECK(withdrawn IN (0, 1))) STRICT;
CREATE TABLE round(one INTEGER PRIMARY KEY CHECK(one = 1),
  version INTEGER NOT NULL, number INTEGER NOT NULL, phase TEXT NOT NULL) STRICT;
CREATE TABLE choice(person TEXT NOT NULL REFERENCES person(id),
  place INTEGER NOT NULL, room TEXT NOT NULL REFERENCES room(code),
  PRIMARY KEY(person, place), UNIQUE(person, room)) STRICT;
CREATE TABLE word(person TEXT PRIMARY KEY NOT NULL REFERENCES person(id),
  hex TEXT NOT NULL) STRICT;
CREATE TABLE result(person TEXT PRIMARY KEY NOT NULL REFERENCES person(id),
  room TEXT UNIQUE REFERENCES room(code)) STRICT;
CREATE TABLE move(round INTEGER NOT NULL, person TEXT NOT NULL,
  from_room TEXT, to_room TEXT, wave INTEGER, PRIMARY KEY(round, person)) STRICT;
CREATE TABLE list(label TEXT PRIMARY KEY NOT NULL, kind TEXT NOT NULL,
  body BLOB NOT NULL, added INTEGER NOT NULL) STRICT;
INSERT INTO room VALUES ('H1', 0), ('H2', 0), ('V', 0);
INSERT INTO person VALUES ('T1', 'Tim Tan', 'key00000000000t1', 'H1', 0);
INSERT INTO person VALUES ('T2', 'Tom Tao', 'key00000000000t2', 'H2', 0);
INSERT INTO person VALUES ('N', 'Nan Now', 'key000000000000n', NULL, 0);
INSERT INTO round VALUES (1, 1, 1, 'drawn');
INSERT INTO choice VALUES ('T1', 0, 'H2'), ('T2', 0, 'H1'), ('N', 0, 'H1'), ('N', 1, 'V');
INSERT INTO word VALUES ('T1', '0000000000000001'), ('T2', '0000000000000002');
INSERT INTO word VALUES ('N', '0000000000000003');";

// Carries out these lines at the desk of the file and returns their output. If there is no desk, returns the output
// of the fault once for each line. Closes the file.
fn printed_at(
    rt: &impl Abort,
    alloc: Global,
    mut opened: Result<FileDesk<Wary>, DeskFault>,
    lines: &[&str],
) -> Vec<u8> {
    let mut text = Vec::new(alloc);
    for line in lines {
        let mut output = Watched::new(Vec::new(alloc));
        match &mut opened {
            Ok(desk) => do_words(alloc, desk, &[*line], &mut output),
            Err(fault) => refuse_desk(alloc, *fault, &mut output),
        };
        text.extend_from_slice(output.into_inner().as_slice())
            .expect(rt, "memory");
    }
    close_file(opened);
    text
}

// Asserts the output that `printed_at` returns for these lines.
fn assert_printed(
    rt: &impl Abort,
    alloc: Global,
    opened: Result<FileDesk<Wary>, DeskFault>,
    lines: &[&str],
    wanted: &str,
) {
    let printed = printed_at(rt, alloc, opened, lines);
    same(rt, &printed.as_slice(), &wanted.as_bytes(), wanted);
}

const RUN: &str =
    "ran 3\nperson        room\nN             V\nT1            H2\nT2            H1\n";

// `Desk::migrate_file` returns a desk that handles further lines. A second migration of the file is refused.
#[test]
fn migrates_a_file_by_a_call(rt: HostRuntime) -> Result<(), Fail> {
    let alloc = rt.alloc();
    let path = "file_migrate/office.db";
    make_folder(&rt, "file_migrate")?;
    execute(&rt, path, FIRST_VERSION)?;
    let first = "refused 22 OtherVersion 1\n";
    assert_printed(&rt, alloc, Desk::on_file(&rt, path), &["round"], first);
    assert_printed(
        &rt,
        alloc,
        Desk::migrate_file(&rt, path),
        &["run", "results"],
        RUN,
    );
    let third = "refused 22 OtherVersion 3\n";
    assert_printed(&rt, alloc, Desk::migrate_file(&rt, path), &["round"], third);
    let round = "round 1 ran people 3 withdrawn 0\n";
    assert_printed(&rt, alloc, Desk::on_file(&rt, path), &["round"], round);
    fs::remove_dir_all(&rt, "file_migrate")?;
    Ok(())
}
