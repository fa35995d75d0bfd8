//! Tests of imports from readers, at a desk in memory.
use crate::asserting::{assert_same, same};
use crate::failing::{FailingReader, FailingWriter};
use office_cli::importing::{import_list, read_bytes};
use office_store::Desk;
use room_types::{Label, ListKind, Watched};
use sqlite::MemStore;
use std::alloc::Global;
use std::process::Abort;
use std::test::Fail;

// Three rooms.
const ROOMS: &[u8] = b"room\nH1\nH2\nV\n";

// Imports from a reader: the label, the most bytes a read, the number of reads before one fails, the number of bytes
// that the writer takes, the status and the output.
const READ: [(&str, usize, usize, usize, u8, &str); 7] = [
    ("r-1", 1, 0, 99, 3, "unavailable\n"),
    ("r-1", 1, 13, 99, 3, "unavailable\n"),
    ("r-1", 4, 3, 99, 3, "unavailable\n"),
    ("r-1", usize::MAX, 1, 99, 3, "unavailable\n"),
    ("r-2", 1, 14, 5, 3, "added"),
    (
        "r-1",
        5,
        usize::MAX,
        99,
        1,
        "refused 15 BadRecord 1 refusal 4\n",
    ),
    ("r-2", usize::MAX, usize::MAX, 99, 0, "added 3\n"),
];

// If a read fails, nothing is imported. If a write fails, the list is imported all the same. The list has 13 bytes,
// so reading it a byte at a time takes 13 reads and one more, which finds the end.
#[test]
fn imports_lists_from_readers(rt: HostRuntime) -> Result<(), Fail> {
    let mut desk = Desk::in_memory(rt.alloc())?;
    for (label, chunk, reads, room, status, answer) in READ {
        let reader = FailingReader {
            unread: ROOMS,
            chunk,
            reads,
        };
        let label = Label::read(rt.alloc(), label)?;
        assert_import(
            &rt,
            rt.alloc(),
            &mut desk,
            label,
            reader,
            room,
            (status, answer),
        );
    }
    let bytes = read_bytes(rt.alloc(), &mut Watched::new(ROOMS)).expect(&rt, "bytes");
    assert_same!(rt; bytes.as_slice(), ROOMS);
    Ok(())
}

// Imports rooms from the reader, with a writer that takes `room` bytes. Asserts the status and the output.
fn assert_import(
    test: &impl Abort,
    alloc: Global,
    desk: &mut Desk<MemStore>,
    label: Label,
    reader: FailingReader<'_>,
    room: usize,
    wanted: (u8, &str),
) {
    let mut source = Watched::new(reader);
    let mut output = Watched::new(FailingWriter {
        written: Vec::new(alloc),
        writes: usize::MAX,
        room,
        flushes: true,
    });
    let status = import_list(
        alloc,
        desk,
        ListKind::Rooms,
        label,
        &mut source,
        &mut output,
    );
    let (wanted_status, answer) = wanted;
    same(
        test,
        &(status, output.into_inner().written.as_slice()),
        &(wanted_status, answer.as_bytes()),
        answer,
    );
}
