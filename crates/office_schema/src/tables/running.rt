//! Running one statement inside a transaction.
ghost use Rattle.sqlite.specs.State.{HasCleanDisk};
ghost use Rattle.sqlite.specs.Values.{bound};
ghost use Rattle.office_schema.specs.tables.Runs.{Runs};
ghost use Rattle.office_schema.specs.tables.Steps.{HasRun};

use sqlite::types::ValueRef;
use sqlite::{Alter, Error, Transaction};

/// Runs a statement that returns no rows.
pub fn run<S: Alter>(
    tx: &mut Transaction<'_, S>,
    text: &str,
    params: &[ValueRef<'_>],
) -> Result<(), Error>
    ensures { Runs S.Store tx.old tx.new result
        (λ before after. HasCleanDisk after → HasRun text.now (bound params.now) before after) }
{
    tx.execute(text, params)?;
    Ok(())
}
