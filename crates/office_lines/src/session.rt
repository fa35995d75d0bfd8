//! Handles the input of a rehearsal byte by byte, and keeps the state between two bytes.
ghost use Rattle.std.specs.Prelude.{◌≤◌, vec_len};
ghost use Rattle.office_lines.specs.Lines.{line_limit};

use crate::ending::Ending;
use crate::limits::LINE_LIMIT;
use crate::line::handle_line;
use crate::render::{exit_status, text_of};
use office_core::Handler;
use room_types::Watched;
use room_types::watched::sending::send;
use std::alloc::Global;
use std::io::Write;

/// The state of a rehearsal between two bytes of its input: the unfinished line, the number of bytes written, and the
/// greatest exit status so far.
#[derive(Drop)]
pub struct Session {
    pub partial_line: Vec<u8>,
    pub sent: u128,
    pub status: u8,
    ghost short: { vec_len partial_line ≤ line_limit },
}

impl Session {
    ghost use Rattle.std.specs.Prelude.{◌≡◌, ◌+◌, ◌*◌, ◌^◌, ◌<◌, OnOk, IfErr, false, length, [], ◌∷◌};
    ghost use Rattle.room_types.specs.Streams.{output_of};
    ghost use Rattle.room_types.specs.Watched.{watched_failed, watched_flushes, watched_pending, counted, StopsAtFailure};
    ghost use Rattle.office_lines.specs.Inner.Sessions.{Answered, Broken, Finished, Handled, Halted, OnlyWhereFailed, Unfinished, state};

    /// Creates a session that has taken no input.
    pub fn new(alloc: Global) -> Self
        ensures line { result.partial_line.items ≡ [] }
        ensures sent { result.sent ≡ 0 }
        ensures status { result.status ≡ 0 }
    {
        Session {
            partial_line: Vec::new(alloc),
            sent: 0,
            status: 0,
        }
    }

    /// Handles the line in `partial_line`, writes its response, and empties `partial_line`.
    ///
    /// # Errors
    ///
    /// `WriteFault` if a write fails, and `NoMemory` if an allocation for the response's text fails.
    pub fn answer_line<H: Handler, W: Write>(
        &mut self,
        alloc: Global,
        handler: &mut H,
        output: &mut Watched<W>,
    ) -> Result<(), Ending>
        requires ready { H.is_ready handler.old }
        requires headroom { self.old.sent + 2 ^ 64 ≤ 2 ^ 127 }
        ensures answered { OnOk result (Answered H.handles
            (state handler.old (output_of W.contents output.old) self.old)
            (state handler.new (output_of W.contents output.new) self.new)) }
        ensures broken { IfErr result (λ ending. Broken H.handles
            (state handler.old (output_of W.contents output.old) self.old) ending
            handler.new (output_of W.contents output.new)) }
        ensures failed { IfErr result (λ ending.
            OnlyWhereFailed ending (watched_failed output.old) (watched_failed output.new)) }
        ensures no_wasted_write { StopsAtFailure output.old output.new }
        ensures bound { OnOk result (self.new.sent < self.old.sent + 2 ^ 64) }
        ensures ready { H.is_ready handler.new }
    {
        let response = handle_line(alloc, handler, &self.partial_line);
        self.status = self.status.max(exit_status(&response));
        match text_of(alloc, &response) {
            Ok(text) => match send(output, text.as_bytes()) {
                Ok(()) => {
                    self.sent += text.len() as u128;
                    self.partial_line.clear();
                    Ok(())
                }
                Err(sent) => Err(Ending::WriteFault {
                    sent: self.sent + sent as u128,
                }),
            },
            Err(_) => Err(Ending::NoMemory { sent: self.sent }),
        }
    }

    /// Takes one byte of input. If the byte is a line feed, handles the unfinished line and writes its response.
    /// Otherwise appends the byte to the unfinished line.
    ///
    /// # Errors
    ///
    /// `ReadFault` if the byte would make the line longer than `LINE_LIMIT`. `NoMemory` if an allocation for the line
    /// or for the response's text fails. `WriteFault` if a write fails.
    pub fn take_byte<H: Handler, W: Write>(
        &mut self,
        alloc: Global,
        handler: &mut H,
        output: &mut Watched<W>,
        byte: u8,
    ) -> Result<(), Ending>
        requires ready { H.is_ready handler.old }
        requires headroom { self.old.sent + 2 ^ 64 ≤ 2 ^ 127 }
        ensures handled { OnOk result (Handled H.handles
            (state handler.old (output_of W.contents output.old) self.old)
            (state handler.new (output_of W.contents output.new) self.new) (byte ∷ [])) }
        ensures halted { IfErr result (λ ending. Halted H.handles
            (state handler.old (output_of W.contents output.old) self.old) ending
            handler.new (output_of W.contents output.new) (byte ∷ [])) }
        ensures failed { IfErr result (λ ending.
            OnlyWhereFailed ending (watched_failed output.old) (watched_failed output.new)) }
        ensures no_wasted_write { StopsAtFailure output.old output.new }
        ensures bound { OnOk result (self.new.sent < self.old.sent + 2 ^ 64) }
        ensures ready { H.is_ready handler.new }
    {
        if byte == b'\n' {
            return self.answer_line(alloc, handler, output);
        }
        if self.partial_line.len() >= LINE_LIMIT {
            return Err(Ending::ReadFault);
        }
        match self.partial_line.push(byte) {
            Ok(()) => Ok(()),
            Err(_) => Err(Ending::NoMemory { sent: self.sent }),
        }
    }

    /// Takes a chunk of input. Handles each line that ends in the chunk, and keeps the bytes after the last line feed
    /// as the unfinished line.
    ///
    /// # Errors
    ///
    /// Stops at the first error: `ReadFault` if a line is longer than `LINE_LIMIT`, `NoMemory` if an allocation for a
    /// line or for a response's text fails, and `WriteFault` if a write fails.
    pub fn take_chunk<H: Handler, W: Write>(
        &mut self,
        alloc: Global,
        handler: &mut H,
        output: &mut Watched<W>,
        chunk: &[u8],
    ) -> Result<(), Ending>
        requires ready { H.is_ready handler.old }
        requires headroom { self.old.sent + length chunk.now * 2 ^ 64 ≤ 2 ^ 127 }
        ensures handled { OnOk result (Handled H.handles
            (state handler.old (output_of W.contents output.old) self.old)
            (state handler.new (output_of W.contents output.new) self.new) chunk.now) }
        ensures halted { IfErr result (λ ending. Halted H.handles
            (state handler.old (output_of W.contents output.old) self.old) ending
            handler.new (output_of W.contents output.new) chunk.now) }
        ensures failed { IfErr result (λ ending.
            OnlyWhereFailed ending (watched_failed output.old) (watched_failed output.new)) }
        ensures no_wasted_write { StopsAtFailure output.old output.new }
        ensures bound { OnOk result (self.new.sent ≤ self.old.sent + length chunk.now * 2 ^ 64) }
        ensures ready { H.is_ready handler.new }
    {
        for byte in chunk {
            self.take_byte(alloc, handler, output, *byte)?;
        }
        Ok(())
    }

    // Handles the unfinished line at the end of the input, unless the line is empty.
    fn answer_rest<H: Handler, W: Write>(
        &mut self,
        alloc: Global,
        handler: &mut H,
        output: &mut Watched<W>,
    ) -> Result<(), Ending>
        requires ready { H.is_ready handler.old }
        requires headroom { self.old.sent ≤ 2 ^ 100 }
        ensures finished { OnOk result (Finished H.handles
            (state handler.old (output_of W.contents output.old) self.old)
            (state handler.new (output_of W.contents output.new) self.new) (watched_flushes output.old)) }
        ensures unfinished { IfErr result (λ ending. Unfinished H.handles
            (state handler.old (output_of W.contents output.old) self.old) ending
            handler.new (output_of W.contents output.new)) }
        ensures failed { IfErr result (λ ending.
            OnlyWhereFailed ending (watched_failed output.old) (watched_failed output.new)) }
        ensures no_wasted_write { StopsAtFailure output.old output.new }
        ensures ready { H.is_ready handler.new }
    {
        if self.partial_line.is_empty() {
            return Ok(());
        }
        self.answer_line(alloc, handler, output)
    }

    /// Handles the unfinished line at the end of the input, unless the line is empty. Then flushes the output.
    ///
    /// # Errors
    ///
    /// `WriteFault` if a write or the flush fails, and `NoMemory` if an allocation for the response's text fails.
    pub fn finish<H: Handler, W: Write>(
        &mut self,
        alloc: Global,
        handler: &mut H,
        output: &mut Watched<W>,
    ) -> Result<(), Ending>
        requires ready { H.is_ready handler.old }
        requires headroom { self.old.sent ≤ 2 ^ 100 }
        ensures finished { OnOk result (Finished H.handles
            (state handler.old (output_of W.contents output.old) self.old)
            (state handler.new (output_of W.contents output.new) self.new)
            (counted (watched_flushes output.old) 1)) }
        ensures flushed { OnOk result (watched_pending output.new ≡ false) }
        ensures unfinished { IfErr result (λ ending. Unfinished H.handles
            (state handler.old (output_of W.contents output.old) self.old) ending
            handler.new (output_of W.contents output.new)) }
        ensures failed { IfErr result (λ ending.
            OnlyWhereFailed ending (watched_failed output.old) (watched_failed output.new)) }
        ensures no_wasted_write { StopsAtFailure output.old output.new }
        ensures ready { H.is_ready handler.new }
    {
        self.answer_rest(alloc, handler, output)?;
        match output.flush() {
            Ok(()) => Ok(()),
            Err(_) => Err(Ending::WriteFault { sent: self.sent }),
        }
    }
}
