//! Printing a text, and the exit statuses of the program.
ghost use Rattle.room_types.specs.Streams.{output_of};
ghost use Rattle.room_types.specs.Watched.{StopsAtFailure};
ghost use Rattle.room_types.specs.Printing.{Prints, PrintsUnavailable};

use crate::watched::Watched;
use crate::watched::sending::send;
use std::io::Write;

/// The exit status of a line that gets no response or whose request was accepted.
pub const ACCEPTED: u8 = 0;

/// The exit status of a line whose request was refused.
pub const REFUSED: u8 = 1;

/// The exit status of a line that is not understood.
pub const NOT_UNDERSTOOD: u8 = 2;

/// The exit status of a line that failed because memory ran out, a device failed, or the line is too long.
pub const UNAVAILABLE: u8 = 3;

/// Writes the text and flushes. Returns `status`, or 3 if a write or the flush fails.
pub fn print<W: Write>(output: &mut Watched<W>, text: &str, status: u8) -> u8
    ensures no_wasted_write { StopsAtFailure output.old output.new }
    ensures prints { Prints text.now status result (output_of W.contents output.old)
        (output_of W.contents output.new) }
{
    match send(output, text.as_bytes()) {
        Ok(()) => match output.flush() {
            Ok(()) => status,
            Err(_) => UNAVAILABLE,
        },
        Err(_) => UNAVAILABLE,
    }
}

/// Prints `unavailable` and returns exit status 3. Callers use this function when an allocation or the database
/// failed, or when the office's file or a list to import cannot be opened or read.
pub fn print_unavailable<W: Write>(output: &mut Watched<W>) -> u8
    ensures no_wasted_write { StopsAtFailure output.old output.new }
    ensures prints { PrintsUnavailable result (output_of W.contents output.old)
        (output_of W.contents output.new) }
{
    print(output, "unavailable\n", UNAVAILABLE)
}
