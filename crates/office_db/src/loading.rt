//! Reads the tables of an office: the records of each table, and the lawful office that has these records.

pub mod declared;
pub mod finding;
pub mod first_tables;
pub mod holding;
pub mod layout;
pub mod listed;
pub mod numbers;
pub mod reading;
pub mod versions;

pub use crate::loading::finding::{FindFault, Found, find};
pub use crate::loading::holding::held;
pub use crate::loading::reading::{load, read_records};
