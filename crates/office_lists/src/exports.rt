//! Converts the rows of exports to CSV records.
ghost use Rattle.std.specs.Prelude.{◌≡◌, IfOk, map};
ghost use Rattle.room_types.specs.Rows.{state_text};
ghost use Rattle.office_lists.specs.Exports.{grade_fields, header_of, move_fields, field_or_empty, person_fields};
ghost use Rattle.office_lists.specs.Exports.{record_bytes, room_fields};
ghost use Rattle.office_lists.specs.Records.{Record};

use crate::move_day::wave_text;
use csv::{StringRecord, WriterBuilder};
use room_types::{GradeRow, Grammar, Move, OutOfMemory, PersonRow, RoomRow, Text};
use std::alloc::Global;

/// The kind of an export, which says what the export lists.
#[derive(Clone, Copy, Debug, PartialEq, Eq, Drop)]
pub enum ExportKind {
    /// Rooms with their states and tenants, sorted by code.
    Rooms,
    /// People with their names and homes, sorted by identifier. Keys are not exported.
    People,
    /// Moves, sorted by round and, within a round, by the person's identifier.
    Moves,
    /// People with their grades, sorted by identifier.
    Grades,
}

/// Returns the bytes of the header record of an export of this kind.
///
/// # Errors
///
/// `OutOfMemory` if an allocation fails.
pub fn head_bytes(alloc: Global, kind: ExportKind) -> Result<Vec<u8>, OutOfMemory>
    ensures { IfOk result (λ bytes. bytes.items ≡ record_bytes (header_of kind)) }
{
    match kind {
        ExportKind::Rooms => record_bytes(alloc, &["room", "state", "tenant"]),
        ExportKind::People => record_bytes(alloc, &["person", "name", "home"]),
        ExportKind::Moves => record_bytes(alloc, &["round", "wave", "person", "from", "to"]),
        ExportKind::Grades => record_bytes(alloc, &["person", "grade"]),
    }
}

/// Returns the bytes of a room's record. The fields are the room's code, state and tenant. The last field is empty if
/// the room has no tenant.
///
/// # Errors
///
/// `OutOfMemory` if an allocation fails.
pub fn room_row_bytes(alloc: Global, row: &RoomRow) -> Result<Vec<u8>, OutOfMemory>
    ensures { IfOk result (λ bytes. bytes.items ≡ record_bytes (room_fields row.now)) }
{
    let fields = [
        row.room.as_str(),
        state_text(row),
        field_or_empty(&row.tenant),
    ];
    record_bytes(alloc, &fields)
}

/// Returns the bytes of a person's record. The fields are the person's identifier, name and home. The last field is
/// empty if the person has no home.
///
/// # Errors
///
/// `OutOfMemory` if an allocation fails.
pub fn person_row_bytes(alloc: Global, row: &PersonRow) -> Result<Vec<u8>, OutOfMemory>
    ensures { IfOk result (λ bytes. bytes.items ≡ record_bytes (person_fields row.now)) }
{
    let fields = [
        row.person.as_str(),
        row.name.as_str(),
        field_or_empty(&row.home),
    ];
    record_bytes(alloc, &fields)
}

/// Returns the bytes of a move's record. The fields are the round, the wave (a number or `swap`), the person, the old
/// room and the new room. A missing room is an empty field.
///
/// # Errors
///
/// `OutOfMemory` if an allocation fails.
pub fn move_row_bytes(alloc: Global, row: &Move) -> Result<Vec<u8>, OutOfMemory>
    ensures { IfOk result (λ bytes. bytes.items ≡ record_bytes (move_fields row.now)) }
{
    let round = row.round.to_string(alloc)?;
    let wave = wave_text(alloc, row.wave)?;
    let fields = [
        round.as_str(),
        wave.as_str(),
        row.person.as_str(),
        field_or_empty(&row.from),
        field_or_empty(&row.to),
    ];
    record_bytes(alloc, &fields)
}

/// Returns the bytes of a record with a person's identifier and their grade. The grade is one digit.
///
/// # Errors
///
/// `OutOfMemory` if an allocation fails.
pub fn grade_row_bytes(alloc: Global, row: &GradeRow) -> Result<Vec<u8>, OutOfMemory>
    ensures { IfOk result (λ bytes. bytes.items ≡ record_bytes (grade_fields row.now)) }
{
    let grade = row.grade.to_string(alloc)?;
    let fields = [row.person.as_str(), grade.as_str()];
    record_bytes(alloc, &fields)
}

/// A row that is exported as one record.
pub trait ExportRow {
    /// Gives the fields of the row's record.
    ghost fields: { Self → Record };

    /// Returns the bytes of the row's record, or `OutOfMemory` if an allocation fails.
    fn row_bytes(&self, alloc: Global) -> Result<Vec<u8>, OutOfMemory>
        ensures { IfOk result (λ bytes. bytes.items ≡ record_bytes (fields self.now)) };
}

impl ExportRow for RoomRow {
    ghost fields = { room_fields };

    fn row_bytes(&self, alloc: Global) -> Result<Vec<u8>, OutOfMemory> {
        room_row_bytes(alloc, self)
    }
}

impl ExportRow for PersonRow {
    ghost fields = { person_fields };

    fn row_bytes(&self, alloc: Global) -> Result<Vec<u8>, OutOfMemory> {
        person_row_bytes(alloc, self)
    }
}

impl ExportRow for Move {
    ghost fields = { move_fields };

    fn row_bytes(&self, alloc: Global) -> Result<Vec<u8>, OutOfMemory> {
        move_row_bytes(alloc, self)
    }
}

impl ExportRow for GradeRow {
    ghost fields = { grade_fields };

    fn row_bytes(&self, alloc: Global) -> Result<Vec<u8>, OutOfMemory> {
        grade_row_bytes(alloc, self)
    }
}

/// Returns the bytes of a CSV record with these fields, or `OutOfMemory` if an allocation fails.
pub fn record_bytes(alloc: Global, fields: &[&str]) -> Result<Vec<u8>, OutOfMemory>
    ensures { IfOk result (λ bytes.
        bytes.items ≡ record_bytes (map (λ field. field.now) fields.now)) }
{
    let record = StringRecord::from_fields(alloc, fields)?;
    let mut writer = WriterBuilder::new().from_writer(Vec::new(alloc));
    // A writer into memory fails only if an allocation fails. The writer accepts any number of fields in its first
    // record.
    let Ok(()) = writer.write_byte_record(record.as_byte_record()) else {
        return Err(OutOfMemory {});
    };
    match writer.into_inner() {
        Ok(bytes) => Ok(bytes),
        Err(_) => Err(OutOfMemory {}),
    }
}

// Returns the room's state as text. The result has the lifetime of `row`, like the texts of the row's other fields.
fn state_text(row: &RoomRow) -> &str
    ensures { result.now ≡ state_text row.now.state }
{
    row.state.as_str()
}

// Returns the text, or an empty text for `None`.
fn field_or_empty<G: Grammar>(text: &Option<Text<G>>) -> &str
    ensures { result.now ≡ field_or_empty text.now }
{
    match text {
        Some(text) => text.as_str(),
        None => "",
    }
}
