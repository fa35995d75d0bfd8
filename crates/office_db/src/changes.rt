//! Stores the changes of an office by statements on its tables. One transaction stores all changes of a command.

mod choices;
mod grades;
mod imports;
mod lemmas;
mod people;
mod results;
mod round;
mod store;
mod words;

pub use crate::changes::store::store_changes;
