//! How an export ends early.

/// Why an export ended early. `sent` is the number of bytes written. If the disk returned what was written to it, these
/// bytes are a prefix of the export of the office that the desk represents.
#[derive(Clone, Copy, Debug, PartialEq, Eq, Drop)]
pub enum ExportEnd {
    /// A write to the output failed or accepted no bytes.
    Fault { sent: u128 },
    /// The database failed, a row had an unexpected form, or memory ran out. The bytes written are whole records.
    Unavailable { sent: u128 },
}
