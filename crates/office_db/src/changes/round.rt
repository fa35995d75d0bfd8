//! Storing the round.
ghost use Rattle.std.specs.Prelude.{OnOk};
ghost use Rattle.sqlite.specs.Held.{state};
ghost use Rattle.office_state.specs.declared.change.Change.TheVariants.{PutRound, ClearRound};
ghost use Rattle.office_schema.specs.tables.Crashes.{WasOpen};
ghost use Rattle.office_schema.specs.tables.Runs.{Runs, RunsSome};
ghost use Rattle.office_db.specs.changes.StoresChanges.{StoresAlways};

use office_schema::tables::people::clear_withdrawn;
use office_schema::tables::round_tables::clear_round_tables;
use office_schema::tables::rounds::set_round;
use room_types::Phase;
use sqlite::{Alter, Error, Transaction};

/// Sets the number and the phase of the round.
pub(crate) fn put_round<S: Alter>(
    tx: &mut Transaction<'_, S>,
    number: u16,
    phase: Phase,
) -> Result<(), Error>
    ensures { Runs S.Store tx.old tx.new result (λ before after. StoresAlways before after (PutRound number phase)) }
{
    set_round(tx, number, phase)
}

/// Deletes all preference lists, withdrawals, leavers, drawn words and results.
pub(crate) fn clear_round<S: Alter>(tx: &mut Transaction<'_, S>) -> Result<(), Error>
    ensures runs { RunsSome S.Store tx.old tx.new result (λ before after. StoresAlways before after ClearRound) }
    ensures was_open { OnOk result
        (WasOpen (state S.Store tx.old.conn.now) (state S.Store tx.new.conn.now)) }
{
    clear_round_tables(tx)?;
    clear_withdrawn(tx)
}
