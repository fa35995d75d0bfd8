//! Reads imported lists from CSV.
ghost use Rattle.std.specs.Prelude.{◌≡◌, ◌<◌, IfOk, IfErr, None, Some, length, true, false};
ghost use Rattle.csv.specs.Reading.{default_config, error_kind, is_flexible, names_headers, owned_rows_left};
ghost use Rattle.csv.specs.Reading.{owned_rows_reader, reader_config, reader_headers, reader_state, reader_trim};
ghost use Rattle.csv.specs.Reading.{source_of, stops_reader, strip_bom};
ghost use Rattle.csv.specs.Records.{fields_of};
ghost use Rattle.csv.specs.declared.parser.State.TheVariants as st;
ghost use Rattle.csv.specs.declared.reader.Trim.TheVariants as trim;
ghost use Rattle.office_lists.specs.Entries.{choices_list, grades_list, people_list, room_list};
ghost use Rattle.office_lists.specs.Records.{Fails, ParsesTo, cause_of};
ghost use Rattle.office_lists.specs.Inner.RecordFaults.{FailsFor};

use crate::entries::{ChoicesEntry, ListEntry, PersonEntry};
use crate::fault::{Cause, ListFault, RecordFault};
use csv::{ByteRecord, ByteRecordsIntoIter, ReaderBuilder, StringRecord};
use room_types::{GradeRow, RoomCode};
use std::alloc::Global;

/// The largest number of data records that a list may have. The header does not count.
pub const RECORD_LIMIT: usize = 10_000;

// The error of a list that has no records or whose first record is not the header.
const NO_HEADER: ListFault = ListFault::Bad {
    at: 0,
    cause: Cause::Header,
};

// The error of a list with more than `RECORD_LIMIT` data records.
const TOO_MANY: ListFault = ListFault::Bad {
    at: RECORD_LIMIT as u32 + 1,
    cause: Cause::TooMany,
};

/// Reads a list of rooms and returns the room codes in the order of the list.
///
/// # Errors
///
/// `Bad` with the first bad record, or `OutOfMemory` if an allocation fails. If `bytes` is empty, the error is `Bad`.
pub fn read_rooms(alloc: Global, bytes: &[u8]) -> Result<Vec<RoomCode>, ListFault>
    ensures returned { IfOk result (λ rooms. ParsesTo room_list bytes.now rooms.items) }
    ensures fault { IfErr result (λ fault. Fails room_list bytes.now fault) }
{
    read_list(alloc, bytes)
}

/// Reads a list of people with their names, keys and homes. Returns one entry for each data record, in the order of
/// the list.
///
/// # Errors
///
/// `Bad` with the first bad record, or `OutOfMemory` if an allocation fails. If `bytes` is empty, the error is `Bad`.
pub fn read_people(alloc: Global, bytes: &[u8]) -> Result<Vec<PersonEntry>, ListFault>
    ensures returned { IfOk result (λ people. ParsesTo people_list bytes.now people.items) }
    ensures fault { IfErr result (λ fault. Fails people_list bytes.now fault) }
{
    read_list(alloc, bytes)
}

/// Reads a list of people's choices. Returns one entry for each data record, in the order of the list. A person may
/// have several entries.
///
/// # Errors
///
/// `Bad` with the first bad record, or `OutOfMemory` if an allocation fails. If `bytes` is empty, the error is `Bad`.
pub fn read_choices(alloc: Global, bytes: &[u8]) -> Result<Vec<ChoicesEntry>, ListFault>
    ensures returned { IfOk result (λ choices. ParsesTo choices_list bytes.now choices.items) }
    ensures fault { IfErr result (λ fault. Fails choices_list bytes.now fault) }
{
    read_list(alloc, bytes)
}

/// Reads a list of people's grades. Returns one entry for each data record, in the order of the list. A person may
/// have several entries.
///
/// # Errors
///
/// `Bad` with the first bad record, or `OutOfMemory` if an allocation fails. If `bytes` is empty, the error is `Bad`.
pub fn read_grades(alloc: Global, bytes: &[u8]) -> Result<Vec<GradeRow>, ListFault>
    ensures returned { IfOk result (λ grades. ParsesTo grades_list bytes.now grades.items) }
    ensures fault { IfErr result (λ fault. Fails grades_list bytes.now fault) }
{
    read_list(alloc, bytes)
}

// Reads a list record by record. Stops with an error at the first bad record.
fn read_list<E: ListEntry>(alloc: Global, bytes: &[u8]) -> Result<Vec<E>, ListFault>
    ensures returned { IfOk result (λ entries. ParsesTo E.form bytes.now entries.items) }
    ensures fault { IfErr result (λ fault. Fails E.form bytes.now fault) }
{
    if bytes.is_empty() {
        return Err(NO_HEADER);
    }
    let mut records = csv_records(alloc, bytes);
    let Some(header) = records.next() else {
        return Err(NO_HEADER);
    };
    let header = match header {
        Ok(header) => header,
        Err(error) => return Err(out_of_memory(error)),
    };
    if !E::is_header(&header) {
        return Err(NO_HEADER);
    }
    let width = header.len();
    let mut entries = Vec::new(alloc);
    for row in records {
        let row = match row {
            Ok(row) => row,
            Err(error) => return Err(out_of_memory(error)),
        };
        if entries.len() >= RECORD_LIMIT {
            return Err(TOO_MANY);
        }
        match read_record(alloc, row, width) {
            Ok(entry) => {
                if entries.push(entry).is_err() {
                    return Err(ListFault::OutOfMemory);
                }
            }
            Err(fault) => return Err(fault.at_record(entries.len() as u32 + 1)),
        }
    }
    Ok(entries)
}

// Returns an iterator over the records of a list. The header is the first record. A record may have any number of
// fields.
fn csv_records(alloc: Global, bytes: &[u8]) -> ByteRecordsIntoIter<&[u8]>
    ensures config { reader_config (owned_rows_reader result) ≡ default_config }
    ensures trim { reader_trim (owned_rows_reader result) ≡ trim.None }
    ensures header_is_record { names_headers (owned_rows_reader result) ≡ false }
    ensures headers { reader_headers (owned_rows_reader result) ≡ None }
    ensures flexible { is_flexible (owned_rows_reader result) ≡ true }
    ensures state { reader_state (owned_rows_reader result) ≡ st.StartRecord }
    ensures source { source_of (λ source. Some source.now) (owned_rows_reader result)
        ≡ Some (strip_bom bytes.now) }
    ensures left { 0 < owned_rows_left result }
{
    ReaderBuilder::new()
        .has_headers(false)
        .flexible(true)
        .from_reader(alloc, bytes)
        .into_byte_records()
}

// Converts an error that stops the CSV reader to `OutOfMemory`. The reader reads from memory, so only a failed
// allocation stops it. The precondition excludes errors about a single record, such as a wrong number of fields.
fn out_of_memory(error: csv::Error) -> ListFault
    requires { stops_reader (error_kind error) ≡ true }
    ensures { result ≡ ListFault.OutOfMemory }
{
    drop(error);
    ListFault::OutOfMemory
}

// Parses a data record. `width` is the number of fields of the header; a record with another number of fields fails
// with `FieldCount`.
fn read_record<E: ListEntry>(alloc: Global, row: ByteRecord, width: usize) -> Result<E, RecordFault>
    requires { width ≡ length E.form.header }
    ensures returned { IfOk result (λ entry. entry ≡ E.form.entry (fields_of row)) }
    ensures good { IfOk result (λ _. cause_of E.form (fields_of row) ≡ None) }
    ensures fault { IfErr result (λ fault. FailsFor (cause_of E.form (fields_of row)) fault) }
{
    if row.len() != width {
        return Err(RecordFault::Bad(Cause::FieldCount));
    }
    match StringRecord::from_byte_record(row) {
        Ok(fields) => E::from_fields(alloc, &fields),
        Err(_) => Err(RecordFault::Bad(Cause::NotText)),
    }
}
