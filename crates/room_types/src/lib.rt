//! The small types of a college's room exchange: texts, lottery numbers (words), grades, preference lists, maps, and
//! monitored readers, writers and streams. Sends and prints texts to such writers.
#![tactic(auto)]

pub mod choices;
pub mod device;
pub mod fault;
pub mod grade;
pub mod grammars;
pub mod kinds;
pub mod laws;
pub mod listing;
pub mod moves;
pub mod phase;
pub mod printing;
pub mod rows;
pub mod stream;
pub mod table;
pub mod text;
pub mod watched;
pub mod word;

pub use crate::choices::{CHOICE_LIMIT, Choices};
pub use crate::device::{Sink, Source};
pub use crate::fault::{OutOfMemory, TypeFault};
pub use crate::grade::{GRADE_LIMIT, Grade};
pub use crate::grammars::{Key, Label, Name, PersonId, RoomCode};
pub use crate::kinds::ListKind;
pub use crate::laws::one_arrangement;
pub use crate::listing::Listing;
pub use crate::moves::{Move, Wave};
pub use crate::phase::Phase;
pub use crate::rows::{GradeRow, PersonRow, ResultRow, RoomRow, State};
pub use crate::stream::Stream;
pub use crate::table::{ExactClone, Table};
pub use crate::text::{Grammar, Text};
pub use crate::watched::Watched;
pub use crate::word::{WORD_DIGITS, Word};
