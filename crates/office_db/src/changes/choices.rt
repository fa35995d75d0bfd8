//! Storing preference lists.
ghost use Rattle.std.specs.Prelude.{OnOk};
ghost use Rattle.sqlite.specs.Held.{state};
ghost use Rattle.office_state.specs.declared.change.Change.TheVariants.{PutChoices};
ghost use Rattle.office_schema.specs.tables.Crashes.{WasOpen};
ghost use Rattle.office_schema.specs.tables.Runs.{RunsSome};
ghost use Rattle.office_db.specs.changes.StoresChanges.{StoresAlways, Turns};
ghost use Rattle.office_db.specs.changes.Inner.Choosing.{with_choices};

use crate::changes::lemmas::lemma_text;
use office_schema::tables::choices::{add_choice, drop_choices};
use room_types::{Choices, PersonId};
use sqlite::{Alter, Error, Transaction};

/// Replaces a person's preference list. If the new list is empty, only deletes the rows of the old list.
pub(crate) fn put_choices<S: Alter>(
    tx: &mut Transaction<'_, S>,
    person: &PersonId,
    choices: &Choices,
) -> Result<(), Error>
    ensures runs { RunsSome S.Store tx.old tx.new result
        (λ before after. StoresAlways before after (PutChoices person.now choices.now)) }
    ensures was_open { OnOk result
        (WasOpen (state S.Store tx.old.conn.now) (state S.Store tx.new.conn.now)) }
{
    drop_choices(tx, person)?;
    add_choices(tx, person, choices)
}

// Adds a row for each room of the list. The first room, the best one, has place 0.
fn add_choices<S: Alter>(
    tx: &mut Transaction<'_, S>,
    person: &PersonId,
    choices: &Choices,
) -> Result<(), Error>
    ensures { RunsSome S.Store tx.old tx.new result
        (λ before after. Turns before after (with_choices person.now 0 choices.now)) }
{
    lemma_text(person);
    let rooms = choices.as_slice();
    let mut place = 0;
    for room in rooms {
        lemma_text(room);
        add_choice(tx, person, place, room)?;
        place += 1;
    }
    Ok(())
}
