//! Storing people.
ghost use Rattle.std.specs.Prelude.{OnOk};
ghost use Rattle.sqlite.specs.Held.{state};
ghost use Rattle.office_state.specs.declared.change.Change.TheVariants.{PutPerson, DropPerson, PutHome};
ghost use Rattle.office_state.specs.declared.change.Change.TheVariants.{PutNameAndKey, PutWithdrawn};
ghost use Rattle.office_schema.specs.tables.Crashes.{WasOpen};
ghost use Rattle.office_schema.specs.tables.Runs.{Runs, RunsSome};
ghost use Rattle.office_db.specs.changes.StoresChanges.{StoresAlways};

use crate::changes::lemmas::{lemma_optional_text, lemma_text};
use office_schema::tables::grades::drop_grade;
use office_schema::tables::people::{
    add_person, drop_person, set_home, set_name_and_key, set_withdrawn,
};
use room_types::{Key, Name, PersonId, RoomCode};
use sqlite::{Alter, Error, Transaction};

/// Adds a person. The identifier has to be new.
pub(crate) fn put_person<S: Alter>(
    tx: &mut Transaction<'_, S>,
    person: &PersonId,
    name: &Name,
    key: &Key,
    home: &Option<RoomCode>,
) -> Result<(), Error>
    ensures { Runs S.Store tx.old tx.new result
        (λ before after. StoresAlways before after (PutPerson person.now name.now key.now home.now)) }
{
    lemma_text(person);
    lemma_text(name);
    lemma_text(key);
    lemma_optional_text(home);
    add_person(tx, person, name, key, home)
}

/// Deletes a person and their grade.
pub(crate) fn remove_person<S: Alter>(
    tx: &mut Transaction<'_, S>,
    person: &PersonId,
) -> Result<(), Error>
    ensures runs { RunsSome S.Store tx.old tx.new result
        (λ before after. StoresAlways before after (DropPerson person.now)) }
    ensures was_open { OnOk result
        (WasOpen (state S.Store tx.old.conn.now) (state S.Store tx.new.conn.now)) }
{
    drop_grade(tx, person)?;
    drop_person(tx, person)
}

/// Sets or clears a person's home. Does nothing if the person is unknown.
pub(crate) fn put_home<S: Alter>(
    tx: &mut Transaction<'_, S>,
    person: &PersonId,
    home: &Option<RoomCode>,
) -> Result<(), Error>
    ensures { Runs S.Store tx.old tx.new result
        (λ before after. StoresAlways before after (PutHome person.now home.now)) }
{
    lemma_optional_text(home);
    set_home(tx, person, home)
}

/// Replaces a person's name and key. Does nothing if the person is unknown.
pub(crate) fn put_name_and_key<S: Alter>(
    tx: &mut Transaction<'_, S>,
    person: &PersonId,
    name: &Name,
    key: &Key,
) -> Result<(), Error>
    ensures { Runs S.Store tx.old tx.new result
        (λ before after. StoresAlways before after (PutNameAndKey person.now name.now key.now)) }
{
    lemma_text(name);
    lemma_text(key);
    set_name_and_key(tx, person, name, key)
}

/// Marks a person as withdrawn from the round. Does nothing if the person is unknown.
pub(crate) fn put_withdrawn<S: Alter>(
    tx: &mut Transaction<'_, S>,
    person: &PersonId,
) -> Result<(), Error>
    ensures { Runs S.Store tx.old tx.new result (λ before after. StoresAlways before after (PutWithdrawn person.now)) }
{
    set_withdrawn(tx, person)
}
