//! Writes an export, row by row.
ghost use Rattle.std.specs.Prelude.{◌≡◌, false, IfErr, IfOk, OnOk, length};
ghost use Rattle.room_types.specs.Streams.{Puts, output_of};
ghost use Rattle.room_types.specs.Watched.{StopsAtFailure, watched_failed, watched_flushes};
ghost use Rattle.sqlite.specs.Held.{state};
ghost use Rattle.sqlite.specs.State.{HasCleanDisk, IsUnchanged, Survives};
ghost use Rattle.office_state.specs.declared.office.Office.{Office as AnyOffice};
ghost use Rattle.office_lists.specs.Exports.{export_bytes};
ghost use Rattle.office_db.specs.loading.Reading.{OnlyReads};
ghost use Rattle.office_store.specs.exports.Asking.{AsksForExport};
ghost use Rattle.office_store.specs.exports.Ending.{EndsBetween, PutsCount, PutsExport, PutsPrefix};
ghost use Rattle.office_store.specs.exports.Ending.{StopsWithin, has_failed, sent_of};
ghost use Rattle.office_store.specs.exports.Exports.{exported};
ghost use Rattle.office_store.specs.exports.Stepping.{GivesRecord, IsAtStart, KeepsTables, HoldsLawfulOffice};

use crate::committed::show_committed;
use crate::exports::ending::ExportEnd;
use crate::exports::exported::Exported;
use office_lists::{ExportKind, head_bytes};
use room_types::watched::sending::send;
use room_types::{GradeRow, Move, PersonRow, RoomRow, Watched};
use sqlite::{Alter, Connection, Rows};
use std::alloc::Global;
use std::io::Write;

// The database failed to return the next row, the row had an unexpected form, or memory ran out.
#[derive(Drop)]
struct NoRecord;

/// Writes an export of an office to `output`. The tables hold the rows of this office. Reads the rows of the export
/// one at a time with one query, and writes the record of each row before it reads the next row. Does not flush
/// `output`. Changes no table.
///
/// # Errors
///
/// `Fault` if a write to `output` fails or accepts no bytes. `Unavailable` if the database fails, a row has an
/// unexpected form, or memory runs out; the bytes written are then whole records.
pub fn export<S: Alter, W: Write>(
    alloc: Global,
    conn: &mut Connection<S>,
    kind: ExportKind,
    output: &mut Watched<W>,
) -> Result<(), ExportEnd>
    requires { conn.old.in_transaction ≡ false }
    ensures outside { conn.new.in_transaction ≡ false }
    ensures reads { OnlyReads (state S.Store conn.old) (state S.Store conn.new) }
    ensures whole { HasCleanDisk (state S.Store conn.new) → (office : AnyOffice)
        → HoldsLawfulOffice (state S.Store conn.old) office
        → OnOk result (Puts (output_of W.contents output.old) (output_of W.contents output.new)
        (export_bytes (exported kind office))) }
    ensures prefix { HasCleanDisk (state S.Store conn.new) → (office : AnyOffice)
        → HoldsLawfulOffice (state S.Store conn.old) office
        → IfErr result (λ end. PutsPrefix (output_of W.contents output.old)
        (output_of W.contents output.new) (sent_of end) (export_bytes (exported kind office))) }
    ensures short { HasCleanDisk (state S.Store conn.new) → (office : AnyOffice)
        → HoldsLawfulOffice (state S.Store conn.old) office
        → IfErr result (StopsWithin (length (export_bytes (exported kind office)))) }
    ensures formed { OnOk result (PutsExport kind (output_of W.contents output.old)
        (output_of W.contents output.new)) }
    ensures counted { IfErr result (λ end. PutsCount (output_of W.contents output.old)
        (output_of W.contents output.new) (sent_of end)) }
    ensures between { IfErr result (EndsBetween kind (output_of W.contents output.old)
        (output_of W.contents output.new)) }
    ensures kept { OnOk result (watched_failed output.new ≡ watched_failed output.old) }
    ensures failed { IfErr result
        (λ end. watched_failed output.new ≡ has_failed (watched_failed output.old) end) }
    ensures flushes { watched_flushes output.new ≡ watched_flushes output.old }
    ensures stops { StopsAtFailure output.old output.new }
{
    match kind {
        ExportKind::Rooms => export_rows::<RoomRow, _, _>(alloc, conn, output),
        ExportKind::People => export_rows::<PersonRow, _, _>(alloc, conn, output),
        ExportKind::Moves => export_rows::<Move, _, _>(alloc, conn, output),
        ExportKind::Grades => export_rows::<GradeRow, _, _>(alloc, conn, output),
    }
}

// Writes the export whose rows are of type `E`.
fn export_rows<E: Exported, S: Alter, W: Write>(
    alloc: Global,
    conn: &mut Connection<S>,
    output: &mut Watched<W>,
) -> Result<(), ExportEnd>
    requires { conn.old.in_transaction ≡ false }
    ensures outside { conn.new.in_transaction ≡ false }
    ensures reads { OnlyReads (state S.Store conn.old) (state S.Store conn.new) }
    ensures whole { HasCleanDisk (state S.Store conn.new) → (office : AnyOffice)
        → HoldsLawfulOffice (state S.Store conn.old) office
        → OnOk result (Puts (output_of W.contents output.old) (output_of W.contents output.new)
        (export_bytes (exported E.kind office))) }
    ensures prefix { HasCleanDisk (state S.Store conn.new) → (office : AnyOffice)
        → HoldsLawfulOffice (state S.Store conn.old) office
        → IfErr result (λ end. PutsPrefix (output_of W.contents output.old)
        (output_of W.contents output.new) (sent_of end) (export_bytes (exported E.kind office))) }
    ensures short { HasCleanDisk (state S.Store conn.new) → (office : AnyOffice)
        → HoldsLawfulOffice (state S.Store conn.old) office
        → IfErr result (StopsWithin (length (export_bytes (exported E.kind office)))) }
    ensures formed { OnOk result (PutsExport E.kind (output_of W.contents output.old)
        (output_of W.contents output.new)) }
    ensures counted { IfErr result (λ end. PutsCount (output_of W.contents output.old)
        (output_of W.contents output.new) (sent_of end)) }
    ensures between { IfErr result (EndsBetween E.kind (output_of W.contents output.old)
        (output_of W.contents output.new)) }
    ensures kept { OnOk result (watched_failed output.new ≡ watched_failed output.old) }
    ensures failed { IfErr result
        (λ end. watched_failed output.new ≡ has_failed (watched_failed output.old) end) }
    ensures flushes { watched_flushes output.new ≡ watched_flushes output.old }
    ensures stops { StopsAtFailure output.old output.new }
{
    show_committed(conn);
    let Ok(mut rows) = conn.query(E::query(), &[]) else {
        return Err(ExportEnd::Unavailable { sent: 0 });
    };
    send_rows::<E, _, _>(alloc, &mut rows, output)
}

// Writes the header, and the record of each remaining row of the query.
fn send_rows<E: Exported, S: Alter, W: Write>(
    alloc: Global,
    rows: &mut Rows<'_, S>,
    output: &mut Watched<W>,
) -> Result<(), ExportEnd>
    requires { AsksForExport E.kind E.text E.fields }
    ensures same_reference { rows.new.conn.ghost_name ≡ rows.old.conn.ghost_name }
    ensures mode { rows.old.conn.now.in_transaction ≡ false
        → rows.new.conn.now.in_transaction ≡ false }
    ensures survives { Survives (state S.Store rows.old.conn.now)
        (state S.Store rows.new.conn.now) (λ _. ⊥) }
    ensures keeps { HasCleanDisk (state S.Store rows.new.conn.now)
        → KeepsTables (state S.Store rows.old.conn.now) (state S.Store rows.new.conn.now) }
    ensures whole { HasCleanDisk (state S.Store rows.new.conn.now) → (office : AnyOffice)
        → IsAtStart S.Store E.text rows.old.conn.now office
        → OnOk result (Puts (output_of W.contents output.old) (output_of W.contents output.new)
        (export_bytes (exported E.kind office))) }
    ensures prefix { HasCleanDisk (state S.Store rows.new.conn.now) → (office : AnyOffice)
        → IsAtStart S.Store E.text rows.old.conn.now office
        → IfErr result (λ end. PutsPrefix (output_of W.contents output.old)
        (output_of W.contents output.new) (sent_of end) (export_bytes (exported E.kind office))) }
    ensures short { HasCleanDisk (state S.Store rows.new.conn.now) → (office : AnyOffice)
        → IsAtStart S.Store E.text rows.old.conn.now office
        → IfErr result (StopsWithin (length (export_bytes (exported E.kind office)))) }
    ensures formed { OnOk result (PutsExport E.kind (output_of W.contents output.old)
        (output_of W.contents output.new)) }
    ensures counted { IfErr result (λ end. PutsCount (output_of W.contents output.old)
        (output_of W.contents output.new) (sent_of end)) }
    ensures between { IfErr result (EndsBetween E.kind (output_of W.contents output.old)
        (output_of W.contents output.new)) }
    ensures kept { OnOk result (watched_failed output.new ≡ watched_failed output.old) }
    ensures failed { IfErr result
        (λ end. watched_failed output.new ≡ has_failed (watched_failed output.old) end) }
    ensures flushes { watched_flushes output.new ≡ watched_flushes output.old }
    ensures stops { StopsAtFailure output.old output.new }
{
    let Ok(head) = head_bytes(alloc, E::kind()) else {
        return Err(ExportEnd::Unavailable { sent: 0 });
    };
    if let Err(part) = send(output, &head) {
        return Err(ExportEnd::Fault { sent: part as u128 });
    }
    let mut sent = head.len() as u128;
    // No table has `u64::MAX` rows.
    for _ in 0..u64::MAX {
        let Ok(next) = next_record::<E, _>(alloc, rows) else {
            return Err(ExportEnd::Unavailable { sent });
        };
        let Some(bytes) = next else {
            return Ok(());
        };
        if let Err(part) = send(output, &bytes) {
            return Err(ExportEnd::Fault {
                sent: sent + part as u128,
            });
        }
        sent += bytes.len() as u128;
    }
    Err(ExportEnd::Unavailable { sent })
}

// Returns the bytes of the next row's record, or `None` after the last row. Fails if the database fails, the row has
// an unexpected form, or memory runs out.
fn next_record<E: Exported, S: Alter>(
    alloc: Global,
    rows: &mut Rows<'_, S>,
) -> Result<Option<Vec<u8>>, NoRecord>
    ensures same_reference { rows.new.conn.ghost_name ≡ rows.old.conn.ghost_name }
    ensures mode { rows.old.conn.now.in_transaction ≡ false
        → rows.new.conn.now.in_transaction ≡ false }
    ensures survives { Survives (state S.Store rows.old.conn.now)
        (state S.Store rows.new.conn.now) (λ _. ⊥) }
    ensures keeps { HasCleanDisk (state S.Store rows.new.conn.now)
        → KeepsTables (state S.Store rows.old.conn.now) (state S.Store rows.new.conn.now) }
    ensures same { HasCleanDisk (state S.Store rows.new.conn.now)
        → OnOk result (IsUnchanged (state S.Store rows.old.conn.now)
        (state S.Store rows.new.conn.now)) }
    ensures gives { IfOk result
        (GivesRecord S.Store E.fields rows.old.conn.now rows.new.conn.now) }
{
    let Ok(()) = rows.advance() else {
        return Err(NoRecord);
    };
    let Some(row) = rows.get() else {
        return Ok(None);
    };
    let Ok(Some(bytes)) = E::row_bytes(alloc, row) else {
        return Err(NoRecord);
    };
    Ok(Some(bytes))
}
