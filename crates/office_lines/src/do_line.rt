//! Handles one line that the program's arguments give. It is parsed and handled like a line of a rehearsal's input.
ghost use Rattle.std.specs.Prelude.{◌≡◌, map};
ghost use Rattle.room_types.specs.Streams.{output_of};
ghost use Rattle.room_types.specs.Watched.{IsFresh, StopsAtFailure};
ghost use Rattle.office_lines.specs.SingleLines.{DoesText, DoesWords, PrintsResponse, has_newline};

use crate::limits::LINE_LIMIT;
use crate::line::handle_line;
use crate::render::{Response, exit_status, text_of};
use office_core::Handler;
use room_types::Watched;
use room_types::printing::{NOT_UNDERSTOOD, UNAVAILABLE, print, print_unavailable};
use std::alloc::Global;
use std::io::Write;

/// Joins the words with single spaces and passes the result to `do_line`, which handles it as one line and prints the
/// response. Returns the exit status that `do_line` returns.
///
/// Joining two or more words allocates. If this allocation fails, handles no line, prints `unavailable`, and returns
/// exit status 3.
pub fn do_words<H: Handler, W: Write>(
    alloc: Global,
    handler: &mut H,
    words: &[&str],
    output: &mut Watched<W>,
) -> u8
    requires ready { H.is_ready handler.old }
    requires fresh_output { IsFresh output.old }
    ensures no_wasted_write { StopsAtFailure output.old output.new }
    ensures does { DoesWords H.handles handler.old (map (λ word. word.now) words.now) result
        handler.new (output_of W.contents output.old) (output_of W.contents output.new) }
    ensures ready { H.is_ready handler.new }
{
    match words {
        [] => do_line(alloc, handler, b"", output),
        [word] => do_line(alloc, handler, word.as_bytes(), output),
        _ => match words.join(alloc, " ") {
            Ok(line) => do_line(alloc, handler, line.as_bytes(), output),
            Err(_) => print_unavailable(output),
        },
    }
}

/// Handles one line and then prints its response. Returns the exit status of the response, or 3 if the output fails
/// or an allocation for the response's text fails. The line has been handled even if its response cannot be printed.
///
/// If `line` contains a line feed, handles nothing, prints `not understood`, and returns 2, or 3 if the output fails.
/// Otherwise, if `line` is longer than `LINE_LIMIT`, handles and prints nothing and returns 3.
pub fn do_line<H: Handler, W: Write>(
    alloc: Global,
    handler: &mut H,
    line: &[u8],
    output: &mut Watched<W>,
) -> u8
    requires ready { H.is_ready handler.old }
    requires fresh_output { IsFresh output.old }
    ensures no_wasted_write { StopsAtFailure output.old output.new }
    ensures does { DoesText H.handles handler.old line.now result handler.new
        (output_of W.contents output.old) (output_of W.contents output.new) }
    ensures ready { H.is_ready handler.new }
{
    if has_newline(line) {
        return print(output, "not understood\n", NOT_UNDERSTOOD);
    }
    if line.len() > LINE_LIMIT {
        return UNAVAILABLE;
    }
    let response = handle_line(alloc, handler, line);
    print_response(alloc, &response, output)
}

// Returns whether the text contains a line feed.
fn has_newline(text: &[u8]) -> bool
    ensures { result ≡ has_newline text.now }
{
    text.iter().any(|byte| *byte == b'\n')
}

/// Writes the text of the response and flushes. Returns the response's exit status, or 3 if a write, the flush or an
/// allocation for the text fails.
pub fn print_response<W: Write>(alloc: Global, response: &Response, output: &mut Watched<W>) -> u8
    requires fresh { IsFresh output.old }
    ensures no_wasted_write { StopsAtFailure output.old output.new }
    ensures prints { PrintsResponse response.now result (output_of W.contents output.old)
        (output_of W.contents output.new) }
{
    match text_of(alloc, response) {
        Ok(text) => print(output, text.as_str(), exit_status(response)),
        Err(_) => UNAVAILABLE,
    }
}
