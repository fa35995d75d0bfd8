//! Storing drawn words.
ghost use Rattle.office_state.specs.declared.change.Change.TheVariants.{PutWord};
ghost use Rattle.office_schema.specs.tables.Runs.{Runs};
ghost use Rattle.office_db.specs.changes.StoresChanges.{StoresAlways};

use crate::changes::lemmas::{lemma_text, lemma_word};
use office_schema::tables::words::add_word;
use room_types::{PersonId, Word};
use sqlite::{Alter, Error, Transaction};
use std::alloc::Global;

/// Adds the word that a person drew. The person must have no word yet.
pub(crate) fn put_word<S: Alter>(
    alloc: Global,
    tx: &mut Transaction<'_, S>,
    person: &PersonId,
    word: Word,
) -> Result<(), Error>
    ensures { Runs S.Store tx.old tx.new result (λ before after. StoresAlways before after (PutWord person.now word)) }
{
    lemma_text(person);
    lemma_word(word);
    add_word(alloc, tx, person, word)
}
