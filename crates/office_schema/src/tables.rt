//! The tables of an office in a database. For each table, defines the form of its rows, the query for all rows, and
//! the statements that change it. The first two are an impl of `TableRow`.
//!
//! Each function that takes a transaction runs one statement inside it, but `create_tables_from`, `clear_round_tables`
//! and `migrate_tables` run several.
//!
//! The contract of a function states the effect of its statements on typed records. A function of one statement has
//! one clause, `Edits`, a record whose fields are named below; a function of several statements has `RunsSome`, which
//! lacks `undone` and `was_open`. A statement fails if the engine refuses it, or if an allocation or the disk fails. No
//! clause says why a statement failed. A failed statement changes no row, or the whole transaction is rolled back. The
//! field `undone` states this for an intact disk and an open connection; `migrate_tables` lacks it, since its caller
//! rolls the transaction back. If one of several statements fails, the effects of the statements before it may remain
//! inside the transaction. No function commits anything, as the field `inside` states.

pub mod choices;
pub mod creating;
mod dropping;
pub mod going;
pub mod grades;
pub mod imports;
pub mod layouts;
pub mod moves;
pub mod names;
mod parameters;
pub mod people;
pub mod refilling;
pub mod results;
pub mod rooms;
pub mod round_tables;
pub mod rounds;
pub mod running;
pub mod table_rows;
pub mod words;
