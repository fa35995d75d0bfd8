//! How a rehearsal ended.

/// How a rehearsal ended.
#[derive(Clone, Copy, Debug, PartialEq, Eq)]
pub enum Ending {
    /// The input ended, and all responses were written and flushed.
    Ended,
    /// A read failed, a line is longer than `LINE_LIMIT`, or the input did not end within `READ_LIMIT` reads.
    ReadFault,
    /// A write or the flush failed after `sent` bytes were written.
    WriteFault { sent: u128 },
    /// An allocation for a line or for the text of its response failed after `sent` bytes were written.
    NoMemory { sent: u128 },
}

/// The exit status of a rehearsal, and how it ended.
#[derive(Clone, Copy, Debug, PartialEq, Eq)]
pub struct Rehearsed {
    /// The exit status. If `ending` is `Ended`, this is the greatest exit status of the lines, or 0 if there are no
    /// lines. Otherwise it is 3.
    pub status: u8,
    pub ending: Ending,
}
