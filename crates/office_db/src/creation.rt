//! Creating an empty office in a database where nothing is declared.

pub mod empty;
mod names;

pub use crate::creation::empty::{CreateFault, create};
