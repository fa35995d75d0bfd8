//! Tests of exports at a desk in memory.
use crate::asserting::same;
use crate::failing::FailingWriter;
use crate::scripts::rehearsed_at;
use office_cli::exporting::export_at;
use office_lists::ExportKind;
use office_store::Desk;
use room_types::Watched;
use sqlite::MemStore;
use std::alloc::Global;
use std::process::Abort;
use std::test::Fail;

/// A year in which T1 and T2 swap their homes, and N gets the vacant room. Room X is shut.
pub const YEAR: &str =
    "room X\nroom H1\nroom H2\nroom V\nshut X\nperson T1 key00000000000t1 Tim Tan\n\
    person T2 key00000000000t2 Tom Tao\nperson N key000000000000n Nan, Now\nhome T1 H1\nhome T2 H2\nopen\n\
    choose T1 H2\nchoose T2 H1\nchoose N H1 V\nclose\n\
    draw 0000000000000003 0000000000000001 0000000000000002\nrun\n";

// A year in which T2 leaves the college, and T1 moves to T2's room.
const LEAVING: &str = "room H1\nroom H2\nperson T1 key00000000000t1 Tim Tan\n\
    person T2 key00000000000t2 Tom Tao\nperson N key000000000000n Nan\nhome T1 H1\nhome T2 H2\n\
    grade N 9\nopen\nchoose T1 H2\ngoing T2\nclose\ndraw 0000000000000001 0000000000000002\n\
    run\npublish\nsettle\ngrade T2 1\n";

// A draw in which E3 has grade 1.
const GRADED: &str = "person E3 key00000000000e3 Cy Coy\nperson E1 key00000000000e1 Ann Ash\n\
    person E2 key00000000000e2 Bo\nopen\ngrade E3 1\nclose\n\
    draw 0000000000000005 0000000000000005 0000000000000000\n";

const MOVES: &str = "round,wave,person,from,to\n1,1,N,,V\n1,swap,T1,H1,H2\n1,swap,T2,H2,H1\n";

// Lines, with the exports that follow them. The moves of a round are exported only once the round is settled.
const EXPORTS: [(&[&str], &[(ExportKind, &str)]); 4] = [
    (
        &[YEAR],
        &[(ExportKind::Moves, "round,wave,person,from,to\n")],
    ),
    (
        &[YEAR, "publish\nsettle\n"],
        &[
            (ExportKind::Moves, MOVES),
            (
                ExportKind::Rooms,
                "room,state,tenant\nH1,occupied,T2\nH2,occupied,T1\nV,occupied,N\nX,shut,\n",
            ),
            (
                ExportKind::People,
                "person,name,home\nN,\"Nan, Now\",V\nT1,Tim Tan,H2\nT2,Tom Tao,H1\n",
            ),
            (ExportKind::Grades, "person,grade\nN,0\nT1,0\nT2,0\n"),
        ],
    ),
    (
        &[LEAVING],
        &[
            (
                ExportKind::Moves,
                "round,wave,person,from,to\n1,1,T1,H1,H2\n1,0,T2,H2,\n",
            ),
            (ExportKind::Grades, "person,grade\nN,9\nT1,0\nT2,1\n"),
        ],
    ),
    // The export includes people of grade 0.
    (
        &[GRADED],
        &[(ExportKind::Grades, "person,grade\nE1,0\nE2,0\nE3,1\n")],
    ),
];

// A new desk in memory after these lines.
fn desk_after(alloc: Global, texts: &[&str]) -> Result<Desk<MemStore>, Fail> {
    let mut desk = Desk::in_memory(alloc)?;
    for text in texts {
        rehearsed_at(alloc, &mut desk, text.as_bytes());
    }
    Ok(desk)
}

// Asserts that the export has this output and the status 0.
fn assert_export(
    test: &impl Abort,
    alloc: Global,
    desk: &mut Desk<MemStore>,
    kind: ExportKind,
    wanted: &str,
) {
    let mut output = Watched::new(Vec::new(alloc));
    let status = export_at(alloc, desk, kind, &mut output);
    same(
        test,
        &(status, output.into_inner().as_slice()),
        &(0, wanted.as_bytes()),
        wanted,
    );
}

#[test]
fn exports_moves_rooms_people_and_grades(rt: HostRuntime) -> Result<(), Fail> {
    let alloc = rt.alloc();
    for (texts, wanted) in EXPORTS {
        let mut desk = desk_after(alloc, texts)?;
        for (kind, text) in wanted {
            assert_export(&rt, alloc, &mut desk, *kind, text);
        }
    }
    Ok(())
}

// Exports the rooms to a writer that takes `room` bytes and whose flush fails unless `flushes`. Asserts that the
// status is 3 and that exactly this text is written.
fn assert_cut_off(
    test: &impl Abort,
    alloc: Global,
    desk: &mut Desk<MemStore>,
    room: usize,
    flushes: bool,
    written: &str,
) {
    let mut output = Watched::new(FailingWriter {
        written: Vec::new(alloc),
        writes: usize::MAX,
        room,
        flushes,
    });
    let status = export_at(alloc, desk, ExportKind::Rooms, &mut output);
    same(
        test,
        &(status, output.into_inner().written.as_slice()),
        &(3, written.as_bytes()),
        written,
    );
}

// The program writes nothing more after an export that is cut off.
#[test]
fn fails_if_an_export_is_cut_off(rt: HostRuntime) -> Result<(), Fail> {
    let alloc = rt.alloc();
    let mut desk = desk_after(alloc, &["room H1\nroom H2\n"])?;
    assert_cut_off(&rt, alloc, &mut desk, 20, true, "room,state,tenant\nH1");
    let all = "room,state,tenant\nH1,free,\nH2,free,\n";
    assert_cut_off(&rt, alloc, &mut desk, usize::MAX, false, all);
    Ok(())
}
