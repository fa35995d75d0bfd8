//! The table of imported lists.
ghost use Rattle.std.specs.Prelude.{◌≡◌, IfSome, MatchOption};
ghost use Rattle.sqlite_value.specs.Order.{column};
ghost use Rattle.sqlite_value.specs.declared.value.Value.TheVariants.{Text as text_value};
ghost use Rattle.room_types.specs.Kinds.{kind_text};
ghost use Rattle.office_state.specs.declared.office.stored_import.StoredImport.{StoredImport};
ghost use Rattle.office_schema.specs.cells.Cells.{IsKind};
ghost use Rattle.office_schema.specs.tables.Edits.{with_body, with_import};
ghost use Rattle.office_schema.specs.tables.Runs.{Edits};

use crate::cells::values::{bytes_in, str_in, text_in, u16_in};
use crate::tables::layouts::Layout;
use crate::tables::refilling::Refilled;
use crate::tables::running::run;
use crate::tables::table_rows::TableRow;
use office_state::StoredImport;
use room_types::{Label, ListKind, Listing, OutOfMemory};
use sqlite::{Alter, Error, Row, Transaction, params};
use std::alloc::Global;

// Reads a column as a kind of list.
fn kind_in(row: &Row, at: usize) -> Option<ListKind>
    ensures returned { MatchOption result (¬ IsKind (column row.now at))
        (λ k. column row.now at ≡ text_value (kind_text k)) }
    ensures formed { IfSome result (λ _. IsKind (column row.now at)) }
{
    let Some(text) = str_in(row, at) else {
        return None;
    };
    ListKind::named(text)
}

impl TableRow for (Label, StoredImport) {
    ghost use Rattle.room_types.specs.Grammars.{is_label};
    ghost use Rattle.office_schema.specs.cells.Allocation.{BeginsWith};
    ghost use Rattle.office_schema.specs.cells.Columns.{list_columns, four};
    ghost use Rattle.office_schema.specs.cells.Forms.{IsListRow};
    ghost use Rattle.office_schema.specs.declared.tables.names.TableName.TheVariants.{Lists};

    ghost is_form = { IsListRow };

    ghost front = { four };

    ghost columns = { list_columns };

    ghost may_allocate = { BeginsWith is_label };

    ghost name = { Lists };

    ghost kept = { list_columns };

    fn from_row(alloc: Global, row: &Row) -> Result<Option<(Label, StoredImport)>, OutOfMemory> {
        let Some(label) = text_in(alloc, row, 0)? else {
            return Ok(None);
        };
        let Some(kind) = kind_in(row, 1) else {
            return Ok(None);
        };
        let Some(bytes) = bytes_in(alloc, row, 2)? else {
            return Ok(None);
        };
        let Some(count) = u16_in(row, 3) else {
            return Ok(None);
        };
        Ok(Some((label, StoredImport { kind, bytes, count })))
    }

    fn query() -> &'static str {
        "SELECT label, kind, body, added FROM list"
    }

    fn is_in(_layout: Layout) -> bool {
        true
    }
}

impl Refilled for (Label, StoredImport) {
    ghost use Rattle.office_schema.specs.tables.Edits.{with_import};

    ghost with_row = { λ r. with_import r.0 r.1 };

    fn add_again<S: Alter>(
        &self,
        _alloc: Global,
        tx: &mut Transaction<'_, S>,
    ) -> Result<(), Error> {
        add_list(tx, &self.0, self.1.kind, &self.1.bytes, self.1.count)
    }
}

/// Adds an imported list under its label. `count` is the number of records that the import added. Fails if a list is
/// stored under this label already.
pub fn add_list<S: Alter>(
    tx: &mut Transaction<'_, S>,
    label: &Label,
    kind: ListKind,
    bytes: &Listing<u8>,
    count: u16,
) -> Result<(), Error>
    ensures { Edits S.Store tx.old tx.new result
        (with_import label.now (record { kind = kind; bytes = bytes.now; count = count })) }
{
    run(
        tx,
        "INSERT INTO list(label, kind, body, added) VALUES (?1, ?2, ?3, ?4)",
        params![
            label.as_str(),
            kind.as_str(),
            bytes.as_slice(),
            u32::from(count)
        ],
    )
}

/// Replaces the bytes of an imported list. Does nothing if there is no list with this label.
pub fn set_body<S: Alter>(
    tx: &mut Transaction<'_, S>,
    label: &Label,
    bytes: &Listing<u8>,
) -> Result<(), Error>
    ensures { Edits S.Store tx.old tx.new result (with_body label.now bytes.now) }
{
    run(
        tx,
        "UPDATE list SET body = ?2 WHERE label = ?1",
        params![label.as_str(), bytes.as_slice()],
    )
}
