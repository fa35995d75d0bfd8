//! Prints `ok` if there is a desk, or the reason why there is none.
ghost use Rattle.std.specs.Prelude.{◌≡◌, IfOk, string_bytes};
ghost use Rattle.room_types.specs.Streams.{output_of};
ghost use Rattle.room_types.specs.Watched.{IsFresh, StopsAtFailure};
ghost use Rattle.office_cli.specs.AtDesk.{PrintsMade};
ghost use Rattle.office_cli.specs.DeskFaults.{RefusesDesk, RefusesVersion, other_version_text};

use office_store::{Desk, DeskFault};
use room_types::Watched;
use room_types::printing::{ACCEPTED, REFUSED, print, print_unavailable};
use sqlite::Alter;
use std::alloc::{AllocError, Global};
use std::io::Write;

/// Prints the result of making or migrating an office: `ok`, or why there is no desk. Returns the exit status.
pub fn print_made<S: Alter, W: Write>(
    alloc: Global,
    made: &Result<Desk<S>, DeskFault>,
    output: &mut Watched<W>,
) -> u8
    requires fresh_output { IsFresh output.old }
    ensures no_wasted_write { StopsAtFailure output.old output.new }
    ensures prints { PrintsMade made.now result (output_of W.contents output.old)
        (output_of W.contents output.new) }
{
    match made {
        Ok(_) => print(output, "ok\n", ACCEPTED),
        Err(fault) => refuse_desk(alloc, *fault, output),
    }
}

/// Prints why there is no desk: `unavailable`, or a line that begins with `refused` and the fault's number and
/// name. Returns the exit status.
pub fn refuse_desk<W: Write>(alloc: Global, fault: DeskFault, output: &mut Watched<W>) -> u8
    requires fresh { IsFresh output.old }
    ensures no_wasted_write { StopsAtFailure output.old output.new }
    ensures refuses { RefusesDesk fault result (output_of W.contents output.old)
        (output_of W.contents output.new) }
{
    match fault {
        DeskFault::Unavailable => print_unavailable(output),
        DeskFault::NotAnOffice => print(output, "refused 21 NotAnOffice\n", REFUSED),
        DeskFault::OtherVersion(version) => refuse_version(alloc, version, output),
        DeskFault::AlreadyThere => print(output, "refused 23 AlreadyThere\n", REFUSED),
    }
}

// Prints that the tables are of another version, or `unavailable` if an allocation for the text fails.
fn refuse_version<W: Write>(alloc: Global, version: i64, output: &mut Watched<W>) -> u8
    requires fresh { IsFresh output.old }
    ensures no_wasted_write { StopsAtFailure output.old output.new }
    ensures refuses { RefusesVersion version result (output_of W.contents output.old)
        (output_of W.contents output.new) }
{
    match other_version_text(alloc, version) {
        Ok(line) => print(output, line.as_str(), REFUSED),
        Err(_) => print_unavailable(output),
    }
}

// Returns the line that refuses tables of another version.
fn other_version_text(alloc: Global, version: i64) -> Result<String, AllocError>
    ensures { IfOk result (λ line. string_bytes line ≡ other_version_text version) }
{
    format!(in alloc; "refused 22 OtherVersion {version}\n")
}
