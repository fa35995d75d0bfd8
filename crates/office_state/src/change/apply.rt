//! Applies changes to an office.
ghost use Rattle.std.specs.Prelude.{◌≡◌, ◌≢◌, OnOk, OnErr, true, false};
ghost use Rattle.std.specs.FinMap as map;
ghost use Rattle.office_state.specs.Change.{applied, change_allocates};
ghost use Rattle.office_state.specs.Change.{with_bytes, with_grade, with_home, with_choice_list};
ghost use Rattle.office_state.specs.Change.{with_name_and_key, without_round};
ghost use Rattle.office_state.specs.Empty.{is_empty};
ghost use Rattle.office_state.specs.Office.{knows_person};

use crate::change::Change;
use crate::office::person::Person;
use crate::office::stored_import::StoredImport;
use crate::office::{Assigned, Office};
use room_types::rows::copy_optional;
use room_types::{
    Choices, Grade, Key, Label, ListKind, Listing, Name, OutOfMemory, PersonId, RoomCode,
};

/// Applies a change. These changes do not allocate: `DropPerson`, `PutRound`, `ClearRound`, `PutChoices` of an empty
/// list, `PutGrade` of grade 0, `PutHome` and `PutNameAndKey` of an unknown person, and `PutBytes` of an unknown label.
/// `PutHome`, `PutNameAndKey` and `DropPerson` of an unknown person, and `PutBytes` of an unknown label, change nothing.
///
/// # Errors
///
/// `OutOfMemory` if an allocation fails. The office is then unchanged.
pub fn apply(office: &mut Office, change: &Change) -> Result<(), OutOfMemory>
    ensures ok { OnOk result (office.new ≡ applied office.old change.now) }
    ensures err { OnErr result (office.new ≡ office.old) }
    ensures memory { OnErr result (change_allocates office.old change.now ≡ true) }
{
    match change {
        Change::PutRoom { room, shut } => office.rooms.insert(room.copy()?, *shut),
        Change::PutPerson {
            person,
            name,
            key,
            home,
        } => put_person(office, person, name, key, home),
        Change::DropPerson { person } => {
            drop_person(office, person);
            Ok(())
        }
        Change::PutHome { person, home } => put_home(office, person, home),
        Change::PutNameAndKey { person, name, key } => {
            put_name_and_key(office, person, name, key)
        }
        Change::PutWithdrawn { person } => office.withdrawn.insert(person.copy()?, ()),
        Change::PutChoices { person, choices } => put_choices(office, person, choices),
        Change::PutWord { person, word } => office.words.insert(person.copy()?, *word),
        Change::PutResult { person, room } => put_result(office, person, room),
        Change::AddMove(moved) => office.moves.add(moved),
        Change::PutRound { number, phase } => {
            office.number = *number;
            office.phase = *phase;
            Ok(())
        }
        Change::ClearRound => {
            clear_round(office);
            Ok(())
        }
        Change::KeepList {
            label,
            kind,
            bytes,
            count,
        } => keep_list(office, label, *kind, bytes, *count),
        Change::PutBytes { label, bytes } => put_bytes(office, label, bytes),
        Change::PutGrade { person, grade } => put_grade(office, person, *grade),
        Change::PutGoing { person } => office.going.insert(person.copy()?, ()),
    }
}

fn put_person(
    office: &mut Office,
    person: &PersonId,
    name: &Name,
    key: &Key,
    home: &Option<RoomCode>,
) -> Result<(), OutOfMemory>
    ensures ok { OnOk result
        (office.new ≡ applied office.old (Change.PutPerson person.now name.now key.now home.now)) }
    ensures err { OnErr result (office.new ≡ office.old) }
{
    let kept = Person {
        name: name.copy()?,
        key: key.copy()?,
        home: copy_optional(home)?,
    };
    office.people.insert(person.copy()?, kept)
}

fn drop_person(office: &mut Office, person: &PersonId)
    ensures { office.new ≡ applied office.old (Change.DropPerson person.now) }
{
    if office.people.contains_key(person) {
        office.people.remove(person);
        office.grades.remove(person);
    }
}

fn put_home(
    office: &mut Office,
    person: &PersonId,
    home: &Option<RoomCode>,
) -> Result<(), OutOfMemory>
    ensures ok { OnOk result (office.new ≡ with_home office.old person.now home.now) }
    ensures err { OnErr result (office.new ≡ office.old) }
    ensures memory { OnErr result (knows_person office.old person.now ≡ true) }
{
    let Some(kept) = office.people.get(person) else {
        return Ok(());
    };
    let moved = kept.copy_with_home(home)?;
    office.people.insert(person.copy()?, moved)
}

fn put_name_and_key(
    office: &mut Office,
    person: &PersonId,
    name: &Name,
    key: &Key,
) -> Result<(), OutOfMemory>
    ensures ok { OnOk result
        (office.new ≡ with_name_and_key office.old person.now name.now key.now) }
    ensures err { OnErr result (office.new ≡ office.old) }
    ensures memory { OnErr result (knows_person office.old person.now ≡ true) }
{
    let Some(kept) = office.people.get(person) else {
        return Ok(());
    };
    let renamed = Person {
        name: name.copy()?,
        key: key.copy()?,
        home: copy_optional(&kept.home)?,
    };
    office.people.insert(person.copy()?, renamed)
}

fn put_choices(office: &mut Office, person: &PersonId, choices: &Choices) -> Result<(), OutOfMemory>
    ensures ok { OnOk result (office.new ≡
        record office.old { choices = with_choice_list office.old.choices person.now choices.now }) }
    ensures err { OnErr result (office.new ≡ office.old) }
    ensures memory { OnErr result (is_empty choices.now ≡ false) }
{
    if choices.as_slice().is_empty() {
        office.choices.remove(person);
        return Ok(());
    }
    office.choices.insert(person.copy()?, choices.copy()?)
}

fn put_grade(office: &mut Office, person: &PersonId, grade: Grade) -> Result<(), OutOfMemory>
    ensures ok { OnOk result (office.new ≡
        record office.old { grades = with_grade office.old.grades person.now grade }) }
    ensures err { OnErr result (office.new ≡ office.old) }
    ensures memory { OnErr result (grade ≢ 0) }
{
    if grade.is_first() {
        office.grades.remove(person);
        return Ok(());
    }
    office.grades.insert(person.copy()?, grade)
}

fn put_result(
    office: &mut Office,
    person: &PersonId,
    room: &Option<RoomCode>,
) -> Result<(), OutOfMemory>
    ensures ok { OnOk result
        (office.new ≡ applied office.old (Change.PutResult person.now room.now)) }
    ensures err { OnErr result (office.new ≡ office.old) }
{
    let given = Assigned {
        room: copy_optional(room)?,
    };
    office.results.insert(person.copy()?, given)
}

fn keep_list(
    office: &mut Office,
    label: &Label,
    kind: ListKind,
    bytes: &Listing<u8>,
    count: u16,
) -> Result<(), OutOfMemory>
    ensures ok { OnOk result
        (office.new ≡ applied office.old (Change.KeepList label.now kind bytes.now count)) }
    ensures err { OnErr result (office.new ≡ office.old) }
{
    let kept = StoredImport {
        kind,
        bytes: bytes.copy()?,
        count,
    };
    office.lists.insert(label.copy()?, kept)
}

fn put_bytes(office: &mut Office, label: &Label, bytes: &Listing<u8>) -> Result<(), OutOfMemory>
    ensures ok { OnOk result (office.new ≡ with_bytes office.old label.now bytes.now) }
    ensures err { OnErr result (office.new ≡ office.old) }
    ensures memory { OnErr result (map.contains_key office.old.lists label.now ≡ true) }
{
    let Some(kept) = office.lists.get(label) else {
        return Ok(());
    };
    let replaced = StoredImport {
        kind: kept.kind,
        bytes: bytes.copy()?,
        count: kept.count,
    };
    office.lists.insert(label.copy()?, replaced)
}

fn clear_round(office: &mut Office)
    ensures { office.new ≡ without_round office.old }
{
    office.choices.clear();
    office.withdrawn.clear();
    office.words.clear();
    office.results.clear();
    office.going.clear();
}
