//! Parses the words of a line into a request.

pub mod requests;
pub mod values;
pub mod word_fault;

pub use crate::parse::requests::words_to_command;
pub use crate::parse::word_fault::WordFault;
