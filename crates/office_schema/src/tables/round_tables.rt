//! The tables of a round: its words, results, choices and leavers, which are cleared together.
ghost use Rattle.std.specs.Prelude.{OnErr};
ghost use Rattle.sqlite.specs.Held.{state};
ghost use Rattle.office_schema.specs.tables.Declaring.{MayLackTables};
ghost use Rattle.office_schema.specs.tables.Edits.{without_round_tables};
ghost use Rattle.office_schema.specs.tables.Makes.{Makes};
ghost use Rattle.office_schema.specs.tables.Runs.{RunsSome};

use crate::tables::creating::create_tables_from;
use crate::tables::dropping::drop_tables_to;
use crate::tables::layouts::Layout;
use sqlite::{Alter, Error, Transaction};

/// Deletes all words, results, choices and leavers: drops their four tables and creates the tables again in the same
/// places. Deleting the rows would be slower, because the store in memory scans the whole table for each deleted row.
/// On an error, some of the four tables may be missing for the rest of the transaction.
pub fn clear_round_tables<S: Alter>(tx: &mut Transaction<'_, S>) -> Result<(), Error>
    ensures runs { RunsSome S.Store tx.old tx.new result
        (λ before after. Makes before after without_round_tables) }
    ensures undone { OnErr result
        (MayLackTables (state S.Store tx.old.conn.now) (state S.Store tx.new.conn.now)) }
{
    drop_tables_to(tx, Layout::Own, 6)?;
    create_tables_from(tx, 6)
}
