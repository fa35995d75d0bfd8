//! Creates an empty office in a database, stores the changes of an office, and loads an office.
#![tactic(auto)]

pub mod changes;
pub mod creation;
pub mod loading;
