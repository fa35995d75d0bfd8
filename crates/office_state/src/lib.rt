//! The state of a college's room exchange office. `Office` is the state, and `apply` applies a `Change` to it. The
//! module `round` computes a round's results, and `sound` tests whether a state is lawful: whether it satisfies all
//! invariants.
#![tactic(auto)]

mod change;
mod office;
pub mod round;
mod soundness;

pub use crate::change::Change;
pub use crate::change::apply::apply;
pub use crate::office::limits::{BYTE_LIMIT, LABEL_LIMIT, PEOPLE_LIMIT, ROOM_LIMIT, ROUND_LIMIT};
pub use crate::office::moves::{Moved, RoundMoves, Rounds};
pub use crate::office::person::Person;
pub use crate::office::queries::copy_found;
pub use crate::office::stored_import::StoredImport;
pub use crate::office::{Assigned, Office, phases};
pub use crate::soundness::sound;
