//! Writes exports to an output.
ghost use Rattle.std.specs.Prelude.{◌≡◌, ◌<◌, IfErr, OnOk, length, take};
ghost use Rattle.room_types.specs.Ascending.{AscendsBy};
ghost use Rattle.room_types.specs.Streams.{Puts, output_of};
ghost use Rattle.room_types.specs.Watched.{StopsAtFailure, watched_failed, watched_flushes};
ghost use Rattle.office_lists.specs.Exports.{AscendByRound, export, export_bytes};
ghost use Rattle.office_lists.specs.Exports.{grades_export, moves_export, people_export, rooms_export};
ghost use Rattle.office_lists.specs.Writing.{StopsAfter, has_failed, sent_of};

use crate::exports::{ExportKind, ExportRow, head_bytes};
use room_types::watched::sending::send;
use room_types::{GradeRow, Move, PersonRow, RoomRow, Watched};
use std::alloc::Global;
use std::io::Write;

/// Why an export stopped early, and how many bytes were written. The written bytes are a prefix of the export.
#[derive(Clone, Copy, Debug, PartialEq, Eq, Drop)]
pub enum WriteEnd {
    /// A write failed or took no bytes.
    Fault { sent: u128 },
    /// An allocation for a record failed. All records before that record were written.
    OutOfMemory { sent: u128 },
}

/// Writes these rooms as an export. The rooms must ascend by code. Does not flush.
///
/// # Errors
///
/// `Fault` if a write fails or takes no bytes, and `OutOfMemory` if an allocation fails.
pub fn write_rooms<W: Write>(
    alloc: Global,
    rows: &[RoomRow],
    output: &mut Watched<W>,
) -> Result<(), WriteEnd>
    requires ascending { AscendsBy (λ row. row.room) rows.now }
    ensures sent { OnOk result (Puts (output_of W.contents output.old)
        (output_of W.contents output.new) (export_bytes (rooms_export rows.now))) }
    ensures prefix { IfErr result (λ end. Puts (output_of W.contents output.old)
        (output_of W.contents output.new)
        (take (sent_of end) (export_bytes (rooms_export rows.now)))) }
    ensures short { IfErr result (λ end. sent_of end < length (export_bytes (rooms_export rows.now))) }
    ensures after { IfErr result (λ end. StopsAfter (rooms_export rows.now) end) }
    ensures kept { OnOk result (watched_failed output.new ≡ watched_failed output.old) }
    ensures failed { IfErr result
        (λ end. watched_failed output.new ≡ has_failed (watched_failed output.old) end) }
    ensures flushes { watched_flushes output.new ≡ watched_flushes output.old }
    ensures stops { StopsAtFailure output.old output.new }
{
    write_list(alloc, ExportKind::Rooms, rows, output)
}

/// Writes these people as an export. The people must ascend by identifier. Does not flush.
///
/// # Errors
///
/// `Fault` if a write fails or takes no bytes, and `OutOfMemory` if an allocation fails.
pub fn write_people<W: Write>(
    alloc: Global,
    rows: &[PersonRow],
    output: &mut Watched<W>,
) -> Result<(), WriteEnd>
    requires ascending { AscendsBy (λ row. row.person) rows.now }
    ensures sent { OnOk result (Puts (output_of W.contents output.old)
        (output_of W.contents output.new) (export_bytes (people_export rows.now))) }
    ensures prefix { IfErr result (λ end. Puts (output_of W.contents output.old)
        (output_of W.contents output.new)
        (take (sent_of end) (export_bytes (people_export rows.now)))) }
    ensures short { IfErr result
        (λ end. sent_of end < length (export_bytes (people_export rows.now))) }
    ensures after { IfErr result (λ end. StopsAfter (people_export rows.now) end) }
    ensures kept { OnOk result (watched_failed output.new ≡ watched_failed output.old) }
    ensures failed { IfErr result
        (λ end. watched_failed output.new ≡ has_failed (watched_failed output.old) end) }
    ensures flushes { watched_flushes output.new ≡ watched_flushes output.old }
    ensures stops { StopsAtFailure output.old output.new }
{
    write_list(alloc, ExportKind::People, rows, output)
}

/// Writes these moves as an export. The moves must ascend by round and, within a round, by the person's identifier.
/// Does not flush.
///
/// # Errors
///
/// `Fault` if a write fails or takes no bytes, and `OutOfMemory` if an allocation fails.
pub fn write_moves<W: Write>(
    alloc: Global,
    rows: &[Move],
    output: &mut Watched<W>,
) -> Result<(), WriteEnd>
    requires ascending { AscendByRound rows.now }
    ensures sent { OnOk result (Puts (output_of W.contents output.old)
        (output_of W.contents output.new) (export_bytes (moves_export rows.now))) }
    ensures prefix { IfErr result (λ end. Puts (output_of W.contents output.old)
        (output_of W.contents output.new)
        (take (sent_of end) (export_bytes (moves_export rows.now)))) }
    ensures short { IfErr result (λ end. sent_of end < length (export_bytes (moves_export rows.now))) }
    ensures after { IfErr result (λ end. StopsAfter (moves_export rows.now) end) }
    ensures kept { OnOk result (watched_failed output.new ≡ watched_failed output.old) }
    ensures failed { IfErr result
        (λ end. watched_failed output.new ≡ has_failed (watched_failed output.old) end) }
    ensures flushes { watched_flushes output.new ≡ watched_flushes output.old }
    ensures stops { StopsAtFailure output.old output.new }
{
    write_list(alloc, ExportKind::Moves, rows, output)
}

/// Writes these grades as an export. The rows must ascend by the person's identifier. Does not flush.
///
/// # Errors
///
/// `Fault` if a write fails or takes no bytes, and `OutOfMemory` if an allocation fails.
pub fn write_grades<W: Write>(
    alloc: Global,
    rows: &[GradeRow],
    output: &mut Watched<W>,
) -> Result<(), WriteEnd>
    requires ascending { AscendsBy (λ row. row.person) rows.now }
    ensures sent { OnOk result (Puts (output_of W.contents output.old)
        (output_of W.contents output.new) (export_bytes (grades_export rows.now))) }
    ensures prefix { IfErr result (λ end. Puts (output_of W.contents output.old)
        (output_of W.contents output.new)
        (take (sent_of end) (export_bytes (grades_export rows.now)))) }
    ensures short { IfErr result
        (λ end. sent_of end < length (export_bytes (grades_export rows.now))) }
    ensures after { IfErr result (λ end. StopsAfter (grades_export rows.now) end) }
    ensures kept { OnOk result (watched_failed output.new ≡ watched_failed output.old) }
    ensures failed { IfErr result
        (λ end. watched_failed output.new ≡ has_failed (watched_failed output.old) end) }
    ensures flushes { watched_flushes output.new ≡ watched_flushes output.old }
    ensures stops { StopsAtFailure output.old output.new }
{
    write_list(alloc, ExportKind::Grades, rows, output)
}

// Writes the header and then a record for each row. Stops at the first write or allocation that fails.
fn write_list<R: ExportRow, W: Write>(
    alloc: Global,
    kind: ExportKind,
    rows: &[R],
    output: &mut Watched<W>,
) -> Result<(), WriteEnd>
    ensures sent { OnOk result (Puts (output_of W.contents output.old)
        (output_of W.contents output.new) (export_bytes (export kind R.fields rows.now))) }
    ensures prefix { IfErr result (λ end. Puts (output_of W.contents output.old)
        (output_of W.contents output.new)
        (take (sent_of end) (export_bytes (export kind R.fields rows.now)))) }
    ensures short { IfErr result
        (λ end. sent_of end < length (export_bytes (export kind R.fields rows.now))) }
    ensures after { IfErr result (λ end. StopsAfter (export kind R.fields rows.now) end) }
    ensures kept { OnOk result (watched_failed output.new ≡ watched_failed output.old) }
    ensures failed { IfErr result
        (λ end. watched_failed output.new ≡ has_failed (watched_failed output.old) end) }
    ensures flushes { watched_flushes output.new ≡ watched_flushes output.old }
    ensures stops { StopsAtFailure output.old output.new }
{
    let Ok(head) = head_bytes(alloc, kind) else {
        return Err(WriteEnd::OutOfMemory { sent: 0 });
    };
    if let Err(part) = send(output, &head) {
        return Err(WriteEnd::Fault { sent: part as u128 });
    }
    let mut sent = head.len() as u128;
    for row in rows {
        let Ok(bytes) = row.row_bytes(alloc) else {
            return Err(WriteEnd::OutOfMemory { sent });
        };
        if let Err(part) = send(output, &bytes) {
            return Err(WriteEnd::Fault {
                sent: sent + part as u128,
            });
        }
        sent += bytes.len() as u128;
    }
    Ok(())
}
