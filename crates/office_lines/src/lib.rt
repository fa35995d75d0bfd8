//! Parses lines of requests, passes each request to a `Handler`, and prints the responses.
#![tactic(auto)]

pub mod do_line;
pub mod ending;
pub mod limits;
pub mod line;
pub mod parse;
pub mod rehearse;
pub mod render;
mod session;

pub use crate::ending::{Ending, Rehearsed};
pub use crate::line::{ParsedLine, handle_line, parse_line};
