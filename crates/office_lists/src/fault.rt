//! Errors in imported lists and in their records.
ghost use Rattle.std.specs.Prelude.{◌≡◌};
ghost use Rattle.office_lists.specs.Inner.RecordFaults.{at_record};

/// What is wrong with a record of a list.
#[derive(Clone, Copy, Debug, PartialEq, Eq, Drop)]
pub enum Cause {
    /// The first record is not the header of the list's kind, or there is no record.
    Header,
    /// A field is not UTF-8.
    NotText,
    /// The record has more or fewer fields than the header.
    FieldCount,
    /// A field is outside its grammar. This is the number of the first such field, counted from 1.
    BadField(u8),
    /// The list already has `RECORD_LIMIT` data records before this one.
    TooMany,
    /// The office refuses the record; this is the number of the refusal.
    Denied(u8),
}

/// Why a list could not be read.
#[derive(Clone, Copy, Debug, PartialEq, Eq, Drop)]
pub enum ListFault {
    /// Record `at` is the first bad record, and `cause` is what is wrong with it. The header is record 0.
    Bad { at: u32, cause: Cause },
    /// An allocation failed.
    OutOfMemory,
}

/// Why a record could not be read.
#[derive(Clone, Copy, Debug, PartialEq, Eq, Drop)]
pub enum RecordFault {
    /// What is wrong with the record.
    Bad(Cause),
    /// An allocation failed.
    OutOfMemory,
}

impl RecordFault {
    /// Converts this fault to the error of a list in which record `at` has the fault.
    pub fn at_record(self, at: u32) -> ListFault
        ensures { result ≡ at_record at self }
    {
        match self {
            RecordFault::Bad(cause) => ListFault::Bad { at, cause },
            RecordFault::OutOfMemory => ListFault::OutOfMemory,
        }
    }
}
