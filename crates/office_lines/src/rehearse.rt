//! Runs a rehearsal: handles the lines from a reader, and writes the responses to a writer.
ghost use Rattle.std.specs.Prelude.{◌≡◌, ◌+◌, ◌^◌, ◌≤◌, length, OnOk, IfErr};
ghost use Rattle.std.specs.Io.KnownBytes.{IsAtEnd};
ghost use Rattle.room_types.specs.Streams.{input_of, output_of};
ghost use Rattle.room_types.specs.Watched.{watched_inner, watched_failed, watched_reads, IsFresh};
ghost use Rattle.room_types.specs.Watched.{StopsAtEnd, StopsAtFailure};
ghost use Rattle.office_lines.specs.Lines.{read_limit};
ghost use Rattle.office_lines.specs.Rehearsals.{Rehearses};
ghost use Rattle.office_lines.specs.Inner.Sessions.{InputHandled, Stopped, OnlyWhereFailed, state};

use crate::ending::{Ending, Rehearsed};
use crate::limits::{CHUNK_LIMIT, READ_LIMIT};
use crate::session::Session;
use office_core::Handler;
use room_types::Watched;
use room_types::printing::UNAVAILABLE;
use std::alloc::Global;
use std::io::{Read, Write};

/// Handles each line of the input and writes the responses. Flushes the output at the end of the input. Returns how
/// the rehearsal ended, and its exit status. A handled request stays in effect even if the rehearsal fails
/// afterwards.
///
/// Reads the input in chunks of at most `CHUNK_LIMIT` bytes. Handles all lines that end in a chunk before it reads
/// the next chunk. Apart from what the handler allocates, allocates only for one line, its request and its response.
/// After a failure, makes no further call on the input or the output. After the end of the input, reads no more.
pub fn rehearse<H: Handler, R: Read, W: Write>(
    alloc: Global,
    handler: &mut H,
    input: &mut Watched<R>,
    output: &mut Watched<W>,
) -> Rehearsed
    requires ready { H.is_ready handler.old }
    requires fresh_input { IsFresh input.old }
    requires fresh_output { IsFresh output.old }
    ensures few { watched_reads input.new ≤ read_limit }
    ensures no_wasted_read { StopsAtEnd input.old input.new }
    ensures no_wasted_write { StopsAtFailure output.old output.new }
    ensures rehearses { Rehearses H.handles result.ending result.status handler.old handler.new
        (input_of R.remaining input.old) (input_of R.remaining input.new)
        (output_of W.contents output.old) (output_of W.contents output.new) }
    ensures ready { H.is_ready handler.new }
{
    let mut session = Session::new(alloc);
    match handle_input(alloc, handler, input, output, &mut session) {
        Ok(()) => match session.finish(alloc, handler, output) {
            Ok(()) => Rehearsed {
                status: session.status,
                ending: Ending::Ended,
            },
            Err(ending) => Rehearsed {
                status: UNAVAILABLE,
                ending,
            },
        },
        Err(ending) => Rehearsed {
            status: UNAVAILABLE,
            ending,
        },
    }
}

// Reads the input to its end, and handles each line that ends with a line feed. Fails with `ReadFault` if a read
// fails or if `READ_LIMIT` reads do not reach the end of the input. Also stops at the first error of `take_chunk`.
fn handle_input<H: Handler, R: Read, W: Write>(
    alloc: Global,
    handler: &mut H,
    input: &mut Watched<R>,
    output: &mut Watched<W>,
    session: &mut Session,
) -> Result<(), Ending>
    requires ready { H.is_ready handler.old }
    requires sent { session.old.sent ≡ 0 }
    requires reads { watched_reads input.old ≡ 0 }
    ensures end { OnOk result (IsAtEnd (R.remaining (watched_inner input.new))) }
    ensures handled { OnOk result ((handled : InputHandled H.handles
        (state handler.old (output_of W.contents output.old) session.old)
        (state handler.new (output_of W.contents output.new) session.new)
        (R.remaining (watched_inner input.old)) (R.remaining (watched_inner input.new)))
        × (watched_reads input.new ≤ length handled.bytes + 1)) }
    ensures stopped { IfErr result (λ ending. Stopped H.handles
        (state handler.old (output_of W.contents output.old) session.old) ending
        handler.new (output_of W.contents output.new)
        (input_of R.remaining input.old) (input_of R.remaining input.new)) }
    ensures failed { IfErr result (λ ending.
        OnlyWhereFailed ending (watched_failed output.old) (watched_failed output.new)) }
    ensures kept { OnOk result (watched_failed input.new ≡ watched_failed input.old) }
    ensures few { watched_reads input.new ≤ read_limit }
    ensures no_wasted_read { StopsAtEnd input.old input.new }
    ensures no_wasted_write { StopsAtFailure output.old output.new }
    ensures bound { OnOk result (session.new.sent ≤ 2 ^ 100) }
    ensures ready { H.is_ready handler.new }
{
    let mut buffer = [0u8; CHUNK_LIMIT];
    'reads: for _ in 0..READ_LIMIT {
        match input.read(&mut buffer) {
            Ok(0) => return Ok(()),
            Ok(n) => session.take_chunk(alloc, handler, output, &buffer[..n])?,
            Err(_) => return Err(Ending::ReadFault),
        }
    }
    Err(Ending::ReadFault)
}
