//! Asks whether the connection of a desk is open.
ghost use Rattle.std.specs.Prelude.{◌≡◌, false, IfOk};
ghost use Rattle.office_store.specs.Handling.{TellsIfOpen};

use crate::committed::show_committed;
use crate::desk::Desk;
use crate::desk::faults::Unavailable;
use sqlite::{Alter, Error, ErrorCode};

impl<S: Alter> Desk<S> {
    /// Returns whether the connection is open. A fault of the disk may close it for good, as when a command cannot be
    /// committed. The desk then stores nothing more: it answers what it can from its cached office, and `Unavailable`
    /// to everything else.
    ///
    /// Prepares the empty statement, so it reads and writes no table.
    ///
    /// # Errors
    ///
    /// `Unavailable` if memory runs out.
    pub fn is_open(&mut self) -> Result<bool, Unavailable>
        ensures tells { TellsIfOpen S.Store self.old result self.new }
    {
        show_committed(&self.conn);
        let answer = match self.conn.prepare("") {
            Ok(_) => Ok(true),
            Err(error) => openness_after(error),
        };
        show_committed(&self.conn);
        answer
    }
}

// What an error of the empty statement says: that the connection is closed, or nothing.
fn openness_after(error: Error) -> Result<bool, Unavailable>
    ensures closed { IfOk result
        (λ is_open. (is_open ≡ false) × (error ≡ Error.SqliteFailure ErrorCode.Closed)) }
{
    match error {
        Error::SqliteFailure(ErrorCode::Closed) => Ok(false),
        _ => Err(Unavailable),
    }
}
