//! Reads the cells of a row as typed values.

pub mod values;
