//! Closes desks over files.
ghost use Rattle.std.specs.Prelude.{◌≡◌, false, IfOk, OnErr};
ghost use Rattle.sqlite.specs.Held.{state};
ghost use Rattle.office_schema.specs.tables.Crashes.{ShowsCommitted};

use crate::files::Closes;
use office_store::{Desk, DeskFault};
use sqlite::{Alter, Connection};

/// If `desk` is `Ok`, closes its connection, which is in no transaction and shows what was committed last. Otherwise
/// does nothing.
pub fn close<B: Alter, F: Closes<Connection<B>>>(files: &mut F, desk: Result<Desk<B>, DeskFault>)
    ensures outside { IfOk desk (λ desk. desk.conn.in_transaction ≡ false) }
    ensures committed { IfOk desk (λ desk. ShowsCommitted (state B.Store desk.conn)) }
    ensures closed { IfOk desk (λ desk. F.closes files.old desk.conn files.new) }
    ensures none { OnErr desk (files.new ≡ files.old) }
{
    if let Ok(desk) = desk {
        let connection = desk.release();
        // The proof needs these two lines: outside a transaction, an open connection shows what is committed.
        let outside = connection.is_autocommit();
        prove!(outside);
        files.close(connection);
    }
}
