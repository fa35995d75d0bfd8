//! Writes exports of an office from the tables of a database, one row at a time.

mod ending;
mod exported;
mod exporting;
mod kinds;

pub use crate::exports::ending::ExportEnd;
pub use crate::exports::exporting::export;
