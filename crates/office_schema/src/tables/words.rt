//! The table of drawn words.
ghost use Rattle.std.specs.Prelude.{◌≡◌, OnErr, IfOk, IfSome, MatchOption};
ghost use Rattle.sqlite_value.specs.Order.{column};
ghost use Rattle.sqlite_value.specs.declared.value.Value.TheVariants.{Text as text_value};
ghost use Rattle.room_types.specs.Words.{word_text};
ghost use Rattle.office_schema.specs.cells.Cells.{IsHex, IsWord};
ghost use Rattle.office_schema.specs.tables.Edits.{with_word};
ghost use Rattle.office_schema.specs.tables.Runs.{Edits};

use crate::cells::values::{str_in, text_in};
use crate::tables::layouts::Layout;
use crate::tables::refilling::Refilled;
use crate::tables::running::run;
use crate::tables::table_rows::TableRow;
use room_types::{OutOfMemory, PersonId, Word};
use sqlite::{Alter, Error, Row, Transaction, params};
use std::alloc::Global;

// Reads a column as a word, written as sixteen hexadecimal digits in lower case. Returns `None` for any other value.
// Allocates only if the column holds sixteen hexadecimal digits, in lower or upper case. Fails only if an allocation
// fails.
fn word_in(alloc: Global, row: &Row, at: usize) -> Result<Option<Word>, OutOfMemory>
    ensures returned { IfOk result (λ found. MatchOption found (¬ IsWord (column row.now at))
        (λ w. column row.now at ≡ text_value (word_text w))) }
    ensures formed { IfOk result (λ found. IfSome found (λ _. IsWord (column row.now at))) }
    ensures memory { OnErr result (IsHex (column row.now at)) }
{
    let Some(text) = str_in(row, at) else {
        return Ok(None);
    };
    let word = match Word::read(text) {
        Ok(word) => word,
        Err(_) => return Ok(None),
    };
    let Ok(digits) = format!(in alloc; "{word}") else {
        return Err(OutOfMemory {});
    };
    if digits.as_str() != text {
        return Ok(None);
    }
    Ok(Some(word))
}

impl TableRow for (PersonId, Word) {
    ghost use Rattle.room_types.specs.Grammars.{is_person_id};
    ghost use Rattle.office_schema.specs.cells.Allocation.{BeginsWith};
    ghost use Rattle.office_schema.specs.cells.Columns.{word_columns, two};
    ghost use Rattle.office_schema.specs.cells.Forms.{IsWordRow};
    ghost use Rattle.office_schema.specs.declared.tables.names.TableName.TheVariants.{Words};

    ghost is_form = { IsWordRow };

    ghost front = { two };

    ghost columns = { word_columns };

    ghost may_allocate = { BeginsWith is_person_id };

    ghost name = { Words };

    ghost kept = { word_columns };

    fn from_row(alloc: Global, row: &Row) -> Result<Option<(PersonId, Word)>, OutOfMemory> {
        let Some(person) = text_in(alloc, row, 0)? else {
            return Ok(None);
        };
        let Some(word) = word_in(alloc, row, 1)? else {
            return Ok(None);
        };
        Ok(Some((person, word)))
    }

    fn query() -> &'static str {
        "SELECT person, hex FROM word"
    }

    fn is_in(_layout: Layout) -> bool {
        true
    }
}

impl Refilled for (PersonId, Word) {
    ghost use Rattle.office_schema.specs.tables.Edits.{with_word};

    ghost with_row = { λ r. with_word r.0 r.1 };

    fn add_again<S: Alter>(&self, alloc: Global, tx: &mut Transaction<'_, S>) -> Result<(), Error> {
        add_word(alloc, tx, &self.0, self.1)
    }
}

/// Adds the word that a person drew. Fails if the person has a word already, or if the person is unknown.
pub fn add_word<S: Alter>(
    alloc: Global,
    tx: &mut Transaction<'_, S>,
    person: &PersonId,
    word: Word,
) -> Result<(), Error>
    ensures { Edits S.Store tx.old tx.new result (with_word person.now word) }
{
    let hex = format!(in alloc; "{word}")?;
    run(
        tx,
        "INSERT INTO word(person, hex) VALUES (?1, ?2)",
        params![person.as_str(), hex.as_str()],
    )
}
