//! Writes exports of the office at a desk.
ghost use Rattle.room_types.specs.Streams.{output_of};
ghost use Rattle.room_types.specs.Watched.{IsFresh, StopsAtFailure};
ghost use Rattle.office_cli.specs.AtDesk.{ExportsDesk};

use office_lists::ExportKind;
use office_store::Desk;
use room_types::Watched;
use room_types::printing::{ACCEPTED, UNAVAILABLE};
use sqlite::Alter;
use std::alloc::Global;
use std::io::Write;

/// Writes an export of the office at this desk, and flushes. Returns the exit status. If the export stops early, the
/// prefix that was written remains; the function then prints nothing more and returns 3.
pub fn export_at<S: Alter, W: Write>(
    alloc: Global,
    desk: &mut Desk<S>,
    kind: ExportKind,
    output: &mut Watched<W>,
) -> u8
    requires fresh_output { IsFresh output.old }
    ensures no_wasted_write { StopsAtFailure output.old output.new }
    ensures exports { ExportsDesk S.Store desk.old desk.new kind result
        (output_of W.contents output.old) (output_of W.contents output.new) }
{
    match desk.export(alloc, kind, output) {
        Ok(()) => match output.flush() {
            Ok(()) => ACCEPTED,
            Err(_) => UNAVAILABLE,
        },
        Err(_end) => UNAVAILABLE,
    }
}
