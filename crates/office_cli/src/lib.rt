//! The program `rooms`: parses its arguments and carries out the subcommand on an office file, in memory (a rehearsal),
//! or without an office (the words of a draw).
#![tactic(auto)]

pub mod arguments;
pub mod carrying_out;
pub mod desk_faults;
pub mod exporting;
pub mod importing;
pub mod in_file;
pub mod lists;
pub mod seeds;
pub mod usage;
pub mod word_lines;

pub use crate::arguments::program;
pub use crate::carrying_out::{carry_out, refuse, rehearse};
pub use crate::usage::Program;
pub use office_lines::parse::{WordFault, words_to_command};
pub use office_lines::{Ending, Rehearsed};
