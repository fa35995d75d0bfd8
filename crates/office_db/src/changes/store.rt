//! Storing all changes of a command in one transaction.
ghost use Rattle.std.specs.Prelude.{◌≡◌, ◌<◌, false, length, OnOk, OnErr, IsTrue};
ghost use Rattle.sqlite.specs.Held.{state};
ghost use Rattle.sqlite.specs.State.{HasCleanDisk};
ghost use Rattle.office_state.specs.declared.change.Change.TheVariants.{PutRoom};
ghost use Rattle.office_schema.specs.tables.Crashes.{LeavesOldOr, ShowsCommitted, WasOpen};
ghost use Rattle.office_schema.specs.tables.Runs.{Runs, RunsSome};
ghost use Rattle.office_schema.specs.tables.Steps.{IsIntact, Follows};
ghost use Rattle.office_db.specs.changes.StoresChanges.{CommitsChanges, StoresChange, StoresChanges};

use crate::changes::choices::put_choices;
use crate::changes::grades::{put_going, put_grade};
use crate::changes::imports::{keep_list, put_bytes};
use crate::changes::lemmas::lemma_text;
use crate::changes::people::{
    put_home, put_name_and_key, put_person, put_withdrawn, remove_person,
};
use crate::changes::results::{put_result, record_move};
use crate::changes::round::{clear_round, put_round};
use crate::changes::words::put_word;
use office_schema::tables::rooms::{add_room, set_shut};
use office_state::{Change, Office};
use room_types::RoomCode;
use sqlite::{Alter, Connection, Error, Transaction};
use std::alloc::Global;

/// Stores all changes in one transaction, or none of them. The tables have to hold the rows of `office`.
///
/// On `Ok` the connection is open. The tables then hold the rows of the office after the changes, if the changes fit
/// the office and the tables are in this program's own layout. On an error the tables are unchanged, unless a fault
/// closed the connection. These guarantees presuppose a disk that returns what was written to it.
///
/// # Errors
///
/// Fails if the disk or an allocation fails, or if the engine refuses a statement.
pub fn store_changes<S: Alter>(
    alloc: Global,
    conn: &mut Connection<S>,
    office: &Office,
    changes: &[Change],
) -> Result<(), Error>
    requires { conn.old.in_transaction ≡ false }
    ensures outside { conn.new.in_transaction ≡ false }
    ensures follows { Follows (state S.Store conn.old) (state S.Store conn.new) }
    ensures stored { OnOk result
        (StoresChanges office.now (state S.Store conn.old) (state S.Store conn.new) changes.now) }
    ensures is_open { OnOk result (HasCleanDisk (state S.Store conn.new)
        → IsTrue (state S.Store conn.new).is_open) }
    ensures undone { OnErr result
        (IsIntact (state S.Store conn.new)
        → (state S.Store conn.new).now ≡ (state S.Store conn.old).now) }
    ensures committed { OnOk result (HasCleanDisk (state S.Store conn.new)
        → ShowsCommitted (state S.Store conn.new)) }
    ensures crash { LeavesOldOr (CommitsChanges office.now (state S.Store conn.old) changes.now)
        (state S.Store conn.old) (state S.Store conn.new) }
{
    // The proof needs these two lines: outside a transaction, an open connection shows what is committed.
    let outside = conn.is_autocommit();
    prove!(outside);
    let mut tx = conn.transaction();
    apply_changes(alloc, &mut tx, office, changes)?;
    tx.commit()?;
    Ok(())
}

// Applies the changes in order. `first` is the office before all of them.
fn apply_changes<S: Alter>(
    alloc: Global,
    tx: &mut Transaction<'_, S>,
    first: &Office,
    changes: &[Change],
) -> Result<(), Error>
    ensures runs { RunsSome S.Store tx.old tx.new result
        (λ before after. StoresChanges first.now before after changes.now) }
    ensures was_open { OnOk result (0 < length changes.now
        → WasOpen (state S.Store tx.old.conn.now) (state S.Store tx.new.conn.now)) }
{
    for change in changes {
        apply_change(alloc, tx, first, change)?;
    }
    Ok(())
}

// Applies one change.
fn apply_change<S: Alter>(
    alloc: Global,
    tx: &mut Transaction<'_, S>,
    first: &Office,
    change: &Change,
) -> Result<(), Error>
    ensures runs { RunsSome S.Store tx.old tx.new result
        (λ before after. StoresChange first.now before after change.now) }
    ensures was_open { OnOk result
        (WasOpen (state S.Store tx.old.conn.now) (state S.Store tx.new.conn.now)) }
{
    match change {
        Change::PutRoom { room, shut } => put_room(tx, first, room, *shut),
        Change::PutPerson {
            person,
            name,
            key,
            home,
        } => put_person(tx, person, name, key, home),
        Change::DropPerson { person } => remove_person(tx, person),
        Change::PutHome { person, home } => put_home(tx, person, home),
        Change::PutNameAndKey { person, name, key } => put_name_and_key(tx, person, name, key),
        Change::PutWithdrawn { person } => put_withdrawn(tx, person),
        Change::PutChoices { person, choices } => put_choices(tx, person, choices),
        Change::PutWord { person, word } => put_word(alloc, tx, person, *word),
        Change::PutResult { person, room } => put_result(tx, person, room),
        Change::AddMove(moved) => record_move(tx, moved),
        Change::PutRound { number, phase } => put_round(tx, *number, *phase),
        Change::ClearRound => clear_round(tx),
        Change::KeepList {
            label,
            kind,
            bytes,
            count,
        } => keep_list(tx, label, *kind, bytes, *count),
        Change::PutBytes { label, bytes } => put_bytes(tx, label, bytes),
        Change::PutGrade { person, grade } => put_grade(tx, person, *grade),
        Change::PutGoing { person } => put_going(tx, person),
    }
}

// Adds a room. If the office before all changes of the command, `first`, has the room already, sets the room's `shut`
// flag instead. While people list the room or live in it, its row cannot be deleted and added again.
fn put_room<S: Alter>(
    tx: &mut Transaction<'_, S>,
    first: &Office,
    room: &RoomCode,
    shut: bool,
) -> Result<(), Error>
    ensures { Runs S.Store tx.old tx.new result
        (λ before after. StoresChange first.now before after (PutRoom room.now shut)) }
{
    if first.rooms.contains_key(room) {
        return set_shut(tx, room, shut);
    }
    lemma_text(room);
    add_room(tx, room, shut)
}
