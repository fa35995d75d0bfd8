//! A test of a desk that migrates tables of an earlier version, with enough memory.
use super::importing::responds;
use crate::asserting::assert_same;
use crate::building::parse_requests;
use crate::layouts::tables_made;
use office_schema::tables::layouts::Layout;
use office_store::{Back, Desk, DeskFault};
use sqlite::{Connection, MemStore};
use std::alloc::Global;
use std::process::Abort;

// The rows of an office. T1 and T2 live in H1 and H2 and list each other's room. N is last in the order and lists H1
// and V.
const ROWS: &str = "INSERT INTO room VALUES ('H1', 0), ('H2', 0), ('V', 0);
INSERT INTO person VALUES ('T2', 'Tom Tao', 'key00000000000t2', 'H2', 0);
INSERT INTO person VALUES ('T1', 'Tim Tan', 'key00000000000t1', 'H1', 0);
INSERT INTO person VALUES ('N', 'Ned Nye', 'key000000000000n', NULL, 0);
INSERT INTO round VALUES (1, 1, 1, 'drawn');
INSERT INTO choice VALUES ('T1', 0, 'H2'), ('N', 1, 'V'), ('N', 0, 'H1'), ('T2', 0, 'H1');
INSERT INTO word VALUES ('T1', '0000000000000001'), ('T2', '0000000000000002');
INSERT INTO word VALUES ('N', '0000000000000003');";

const RESULTS: &str =
    "ran 3\nperson        room\nN             V\nT1            H2\nT2            H1\n";

// Tries to migrate the database. Returns the desk, or the fault and the connection.
fn tried(
    alloc: Global,
    conn: Connection<MemStore>,
) -> Result<Desk<MemStore>, (DeskFault, Connection<MemStore>)> {
    let outside = conn.is_autocommit();
    if !outside {
        return Err((DeskFault::Unavailable, conn));
    }
    match Desk::migrate(alloc, conn) {
        Ok(desk) => Ok(desk),
        Err(Back { fault, connection }) => Err((fault, connection)),
    }
}

// The fault of a migration of the database, or `None` if it succeeds.
fn fault(alloc: Global, conn: Connection<MemStore>) -> Option<DeskFault> {
    match tried(alloc, conn) {
        Ok(_) => None,
        Err((fault, _)) => Some(fault),
    }
}

fn migrated(rt: &impl Abort, alloc: Global, conn: Connection<MemStore>) -> Desk<MemStore> {
    match tried(alloc, conn) {
        Ok(desk) => desk,
        Err(_) => panic!(rt; "no desk migrates the database"),
    }
}

// The round goes on after the migration, and a second migration is refused.
#[test]
fn migrates_tables_once(rt: HostRuntime) {
    let alloc = rt.alloc();
    let mut conn = tables_made(&rt, alloc, Layout::DocumentedFirst);
    conn.execute_batch(ROWS).expect(&rt, ROWS);
    let mut desk = migrated(&rt, alloc, conn);
    let requests = parse_requests(&rt, alloc, "run\nresults\n");
    responds(&rt, alloc, &mut desk, &requests, RESULTS);
    assert_same!(rt; fault(alloc, desk.release()), Some(DeskFault::OtherVersion(3)));
}
