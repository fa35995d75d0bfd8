//! Shows that a connection outside a transaction shows what was committed last.
ghost use Rattle.std.specs.Prelude.{◌≡◌, false};
ghost use Rattle.sqlite.specs.Held.{state};
ghost use Rattle.office_schema.specs.tables.Crashes.{ShowsCommitted};

use sqlite::{Alter, Connection};

/// Changes nothing. A caller whose contract says that the connection shows what was committed last calls this: only
/// the contract of `is_autocommit` says so of a connection outside a transaction.
pub(crate) fn show_committed<S: Alter>(conn: &Connection<S>)
    requires { conn.now.in_transaction ≡ false }
    ensures { ShowsCommitted (state S.Store conn.now) }
{
    let outside = conn.is_autocommit();
    prove!(outside);
}
