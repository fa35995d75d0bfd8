//! The entry types of imported lists, and how each is parsed from a record.
ghost use Rattle.std.specs.Prelude.{◌≡◌, IfOk, IfErr, None};
ghost use Rattle.csv.specs.Records.{fields_of};
ghost use Rattle.office_lists.specs.Entries.{choices_list, grades_list, people_list, room_list};
ghost use Rattle.office_lists.specs.Records.{ListForm, field_cause, same_fields};
ghost use Rattle.office_lists.specs.Inner.RecordFaults.{FailsFor};

use crate::fault::RecordFault;
use crate::fields::{choices, field, grade, optional_room, same_fields, value};
use csv::{ByteRecord, StringRecord};
use room_types::{Choices, GradeRow, Key, Name, PersonId, RoomCode};
use std::alloc::Global;

/// An entry of a list of people. It does not implement `Debug`, which would print the key.
#[derive(Drop)]
pub struct PersonEntry {
    pub person: PersonId,
    pub name: Name,
    pub key: Key,
    /// The person's home, if any.
    pub home: Option<RoomCode>,
}

/// An entry of a list of choices.
#[derive(Debug, Drop)]
pub struct ChoicesEntry {
    pub person: PersonId,
    pub choices: Choices,
}

/// An entry type. An implementation fixes the form of a list of such entries and parses one entry from a data record.
pub trait ListEntry: Drop {
    /// The form of a list of such entries: its header, the grammar of each field, and the entry that a record makes.
    ghost form: { ListForm Self };

    /// Returns whether `row` is the header of a list of such entries.
    fn is_header(row: &ByteRecord) -> bool
        ensures { result ≡ same_fields form.header (fields_of row.now) };

    /// Parses an entry from the fields of a data record.
    ///
    /// # Errors
    ///
    /// `BadField` with the first field outside its grammar, or `OutOfMemory` if an allocation fails.
    fn from_fields(alloc: Global, fields: &StringRecord) -> Result<Self, RecordFault>
        ensures returned { IfOk result (λ entry. entry ≡ form.entry (fields_of fields.now)) }
        ensures good { IfOk result (λ _. field_cause form (fields_of fields.now) ≡ None) }
        ensures fault { IfErr result
            (λ fault. FailsFor (field_cause form (fields_of fields.now)) fault) };
}

impl ListEntry for RoomCode {
    ghost form = { room_list };

    fn is_header(row: &ByteRecord) -> bool {
        same_fields(row, &["room"])
    }

    fn from_fields(alloc: Global, fields: &StringRecord) -> Result<RoomCode, RecordFault> {
        value(alloc, field(fields, 0), 1)
    }
}

impl ListEntry for PersonEntry {
    ghost form = { people_list };

    fn is_header(row: &ByteRecord) -> bool {
        same_fields(row, &["person", "name", "key", "home"])
    }

    fn from_fields(alloc: Global, fields: &StringRecord) -> Result<PersonEntry, RecordFault> {
        let person = value(alloc, field(fields, 0), 1)?;
        let name = value(alloc, field(fields, 1), 2)?;
        let key = value(alloc, field(fields, 2), 3)?;
        let home = optional_room(alloc, field(fields, 3), 4)?;
        Ok(PersonEntry {
            person,
            name,
            key,
            home,
        })
    }
}

impl ListEntry for ChoicesEntry {
    ghost form = { choices_list };

    fn is_header(row: &ByteRecord) -> bool {
        same_fields(row, &["person", "choices"])
    }

    fn from_fields(alloc: Global, fields: &StringRecord) -> Result<ChoicesEntry, RecordFault> {
        let person = value(alloc, field(fields, 0), 1)?;
        let choices = choices(alloc, field(fields, 1), 2)?;
        Ok(ChoicesEntry { person, choices })
    }
}

impl ListEntry for GradeRow {
    ghost form = { grades_list };

    fn is_header(row: &ByteRecord) -> bool {
        same_fields(row, &["person", "grade"])
    }

    fn from_fields(alloc: Global, fields: &StringRecord) -> Result<GradeRow, RecordFault> {
        let person = value(alloc, field(fields, 0), 1)?;
        let grade = grade(field(fields, 1), 2)?;
        Ok(GradeRow { person, grade })
    }
}
