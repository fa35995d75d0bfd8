//! Tests the invariants on imported lists.
ghost use Rattle.std.specs.Prelude.{◌≡◌};
ghost use Rattle.std.specs.Bool.{Decides};
ghost use Rattle.std.specs.List.{list_all};
ghost use Rattle.std.specs.FinMap as map;
ghost use Rattle.office_state.specs.Office.Invariants.{AreValidImports};
ghost use Rattle.office_state.specs.Inner.Soundness.{is_short};

use crate::office::Office;
use crate::office::limits::{BYTE_LIMIT, LABEL_LIMIT};
use crate::office::stored_import::StoredImport;
use office_lists::RECORD_LIMIT;

/// Returns whether the invariants on imported lists hold: the office stores at most `LABEL_LIMIT` lists, and each has
/// at most `BYTE_LIMIT` bytes and added at most `RECORD_LIMIT` records.
pub(crate) fn are_valid_imports(office: &Office) -> bool
    ensures { Decides result (AreValidImports office.now.lists) }
{
    if office.lists.len() > LABEL_LIMIT {
        return false;
    }
    are_imports_short(office)
}

// Returns whether each imported list has at most `BYTE_LIMIT` bytes and added at most `RECORD_LIMIT` records.
fn are_imports_short(office: &Office) -> bool
    ensures { result ≡ list_all (λ e. is_short e.1) (map.entries office.now.lists) }
{
    office.lists.iter().all(|(_, kept)| is_short(kept))
}

fn is_short(kept: &StoredImport) -> bool
    ensures { result ≡ is_short kept.now }
{
    kept.bytes.len() <= BYTE_LIMIT && usize::from(kept.count) <= RECORD_LIMIT
}
