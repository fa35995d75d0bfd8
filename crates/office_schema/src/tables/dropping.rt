//! Dropping the tables of an office, the last one first.
ghost use Rattle.std.specs.Prelude.{◌≡◌, ◌<◌, ◌≤◌, OnErr};
ghost use Rattle.sqlite.specs.Held.{state};
ghost use Rattle.office_schema.specs.tables.Inner.Declaring.{DropsTooFew};
ghost use Rattle.office_schema.specs.tables.Declaring.{LeavesFirst};
ghost use Rattle.office_schema.specs.tables.Inner.Texts.{drop_text, drop_text_named};
ghost use Rattle.office_schema.specs.tables.Layouts.{table_count};
ghost use Rattle.office_schema.specs.tables.Runs.{RunsSome};

use crate::tables::layouts::Layout;
use crate::tables::names::TableName;
use crate::tables::running::run;
use sqlite::{Alter, Error, Transaction};

/// Drops tables of the layout and their rows, the last table first, until only the first `left` tables remain.
pub(crate) fn drop_tables_to<S: Alter>(
    tx: &mut Transaction<'_, S>,
    layout: Layout,
    left: usize,
) -> Result<(), Error>
    requires low { 3 ≤ left }
    requires high { left ≤ table_count layout }
    ensures runs { RunsSome S.Store tx.old tx.new result (LeavesFirst layout left) }
    ensures undone { OnErr result
        (DropsTooFew layout left (state S.Store tx.old.conn.now) (state S.Store tx.new.conn.now)) }
{
    let count = layout.tables();
    for step in 0..count - left {
        run(tx, drop_text(layout, count - 1 - step), &[])?;
    }
    Ok(())
}

// Returns the statement that drops the table at this place of the layout.
fn drop_text(layout: Layout, place: usize) -> &'static str
    requires { place < table_count layout }
    ensures { result.now ≡ drop_text layout place }
{
    text_named(layout.order()[place].0)
}

// Returns the statement that drops the table with this name.
fn text_named(name: TableName) -> &'static str
    ensures { result.now ≡ drop_text_named name }
{
    match name {
        TableName::Rooms => "DROP TABLE room",
        TableName::People => "DROP TABLE person",
        TableName::Rounds => "DROP TABLE round",
        TableName::Choices => "DROP TABLE choice",
        TableName::Words => "DROP TABLE word",
        TableName::Results => "DROP TABLE result",
        TableName::Moves => "DROP TABLE move",
        TableName::Lists => "DROP TABLE list",
        TableName::Grades => "DROP TABLE grade",
        TableName::Going => "DROP TABLE going",
    }
}
