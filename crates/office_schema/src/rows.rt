//! Defines the records that the tables of an office store, and rebuilds an office from these records. The records may
//! be in any order. Nothing in this module refers to a database.

mod choices;
pub mod laws;
mod moves;
mod office;
mod people;
mod records;
mod round;
mod tables;

pub use crate::rows::choices::read_choices;
pub use crate::rows::moves::read_moves;
pub use crate::rows::office::read_office;
pub use crate::rows::people::{People, read_people};
pub use crate::rows::records::{ChoiceRecord, OfficeRecords, PersonRecord, RoundRecord};
pub use crate::rows::round::read_round;
pub use crate::rows::tables::{read_keys, read_table};
