//! Computes a round: its trading problem, its results, what a participant would get with another list, and who moves.
pub mod laws;
mod lists;
mod names;
mod other_list;
mod people;
mod problem;
mod results;
mod rooms;
mod settlement;

pub use crate::round::other_list::result_by;
pub use crate::round::people::{round_people, word_of};
pub use crate::round::results::round_results;
pub use crate::round::settlement::relocations;
