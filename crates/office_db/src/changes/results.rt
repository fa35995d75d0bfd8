//! Storing results and moves.
ghost use Rattle.office_state.specs.declared.change.Change.TheVariants.{PutResult, AddMove};
ghost use Rattle.office_schema.specs.tables.Runs.{Runs};
ghost use Rattle.office_db.specs.changes.StoresChanges.{StoresAlways};

use crate::changes::lemmas::{lemma_move, lemma_optional_text, lemma_text};
use office_schema::tables::moves::add_move;
use office_schema::tables::results::add_result;
use room_types::{Move, PersonId, RoomCode};
use sqlite::{Alter, Error, Transaction};

/// Adds the result of a person who has no result yet. The result is a room, or `None` for no room.
pub(crate) fn put_result<S: Alter>(
    tx: &mut Transaction<'_, S>,
    person: &PersonId,
    room: &Option<RoomCode>,
) -> Result<(), Error>
    ensures { Runs S.Store tx.old tx.new result
        (λ before after. StoresAlways before after (PutResult person.now room.now)) }
{
    lemma_text(person);
    lemma_optional_text(room);
    add_result(tx, person, room)
}

/// Adds a person's move in a round to table `move`.
pub(crate) fn record_move<S: Alter>(tx: &mut Transaction<'_, S>, moved: &Move) -> Result<(), Error>
    ensures { Runs S.Store tx.old tx.new result (λ before after. StoresAlways before after (AddMove moved.now)) }
{
    lemma_move(moved);
    add_move(tx, moved)
}
