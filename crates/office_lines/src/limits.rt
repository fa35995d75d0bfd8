//! Limits on the length of a line and on reads.

/// The greatest length of a line that is handled, in bytes without the line feed.
pub const LINE_LIMIT: usize = 65536;

/// The greatest number of bytes that one read asks for.
pub const CHUNK_LIMIT: usize = 4096;

/// The greatest number of times that a rehearsal reads from its input.
pub const READ_LIMIT: u32 = 1048576;
