//! How serving a connection ended.
use http::StatusCode;

/// How serving a connection ended.
#[derive(Clone, Copy, Debug, PartialEq, Eq)]
pub enum Served {
    /// A response with this status was written completely and flushed.
    Answered {
        /// The status of the response.
        status: StatusCode,
    },
    /// The stream ended before its first byte. Nothing was written, and no request was handled.
    Silent,
    /// A read failed. Nothing was written, and no request was handled.
    ReadFault,
    /// A write failed after `sent` bytes of the response were written, or the flush failed after the whole response
    /// was written. A command that was accepted stays in effect.
    WriteFault {
        /// The number of bytes of the response that were written.
        sent: usize,
    },
}
