//! Converts the tables of any layout to the layout that this program creates, and keeps all rows.
ghost use Rattle.office_schema.specs.rows.Tables.{Tables};
ghost use Rattle.office_schema.specs.tables.Inner.Declaring.{Rebuilds};
ghost use Rattle.office_schema.specs.tables.Makes.{Makes};
ghost use Rattle.office_schema.specs.tables.Refilling.{Migrates, with_all};
ghost use Rattle.office_schema.specs.tables.Runs.{RunsSome};

use crate::rows::OfficeRecords;
use crate::tables::creating::create_tables_from;
use crate::tables::dropping::drop_tables_to;
use crate::tables::layouts::Layout;
use crate::tables::rounds::set_version;
use sqlite::{Alter, Error, Transaction};
use std::alloc::Global;

/// Converts the tables of `layout` to the layout and version that this program creates. Keeps the first three tables,
/// which are at the same places in every layout, and drops the others. Then creates the other tables of this
/// program's layout, fills them from `records`, and sets the version. `records` has to hold all rows of the tables of
/// `layout`.
pub fn migrate_tables<S: Alter>(
    alloc: Global,
    tx: &mut Transaction<'_, S>,
    layout: Layout,
    records: &OfficeRecords,
) -> Result<(), Error>
    ensures { RunsSome S.Store tx.old tx.new result (Migrates layout records.now) }
{
    rebuild_tables(tx, layout)?;
    refill(alloc, tx, records.moves.as_slice())?;
    refill(alloc, tx, records.lists.as_slice())?;
    refill(alloc, tx, records.grades.as_slice())?;
    refill(alloc, tx, records.choices.as_slice())?;
    refill(alloc, tx, records.words.as_slice())?;
    refill(alloc, tx, records.results.as_slice())?;
    refill(alloc, tx, records.going.as_slice())?;
    set_version(tx)
}

// Drops the tables of `layout` after the first three. Then creates the tables after the first three of this program's
// layout, without rows.
fn rebuild_tables<S: Alter>(tx: &mut Transaction<'_, S>, layout: Layout) -> Result<(), Error>
    ensures { RunsSome S.Store tx.old tx.new result (Rebuilds layout) }
{
    drop_tables_to(tx, layout, 3)?;
    create_tables_from(tx, 3)
}

// Adds these rows, one after another.
fn refill<R: Refilled, S: Alter>(
    alloc: Global,
    tx: &mut Transaction<'_, S>,
    rows: &[R],
) -> Result<(), Error>
    ensures { RunsSome S.Store tx.old tx.new result
        (λ before after. Makes before after (with_all R.with_row rows.now)) }
{
    for row in rows {
        row.add_again(alloc, tx)?;
    }
    Ok(())
}

/// A record that can be added, as a row, to the table for records of its type.
pub trait Refilled {
    /// The tables of an office after `self` is added to its table as a row.
    ghost with_row: { Self → Tables → Tables };

    /// Adds `self` as a row to the table for records of its type.
    fn add_again<S: Alter>(&self, alloc: Global, tx: &mut Transaction<'_, S>) -> Result<(), Error>
        ensures { RunsSome S.Store tx.old tx.new result
            (λ before after. Makes before after (with_row self.now)) };
}
