//! Storing imported lists.
ghost use Rattle.office_state.specs.declared.change.Change.TheVariants.{KeepList, PutBytes};
ghost use Rattle.office_schema.specs.tables.Runs.{Runs};
ghost use Rattle.office_db.specs.changes.StoresChanges.{StoresAlways};

use crate::changes::lemmas::lemma_text;
use office_schema::tables::imports::{add_list, set_body};
use room_types::{Label, ListKind, Listing};
use sqlite::{Alter, Error, Transaction};

/// Stores an imported list under its label. `count` is the number of records that the import added.
pub(crate) fn keep_list<S: Alter>(
    tx: &mut Transaction<'_, S>,
    label: &Label,
    kind: ListKind,
    bytes: &Listing<u8>,
    count: u16,
) -> Result<(), Error>
    ensures { Runs S.Store tx.old tx.new result
        (λ before after. StoresAlways before after (KeepList label.now kind bytes.now count)) }
{
    lemma_text(label);
    add_list(tx, label, kind, bytes, count)
}

/// Replaces the bytes of an imported list. Does nothing if there is no list with this label.
pub(crate) fn put_bytes<S: Alter>(
    tx: &mut Transaction<'_, S>,
    label: &Label,
    bytes: &Listing<u8>,
) -> Result<(), Error>
    ensures { Runs S.Store tx.old tx.new result
        (λ before after. StoresAlways before after (PutBytes label.now bytes.now)) }
{
    set_body(tx, label, bytes)
}
