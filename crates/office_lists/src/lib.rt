//! Reads and writes the office's CSV lists, formats its text tables, and computes the waves of the day of moving.
#![tactic(auto)]

mod entries;
mod exports;
mod fault;
mod fields;
pub mod laws;
pub mod move_day;
mod reading;
pub mod schedule;
pub mod tables;
mod writing;

pub use crate::entries::{ChoicesEntry, PersonEntry};
pub use crate::exports::{
    ExportKind, ExportRow, grade_row_bytes, head_bytes, move_row_bytes, person_row_bytes,
    room_row_bytes,
};
pub use crate::fault::{Cause, ListFault};
pub use crate::move_day::{in_moving_order, move_day_text, one_move_list};
pub use crate::reading::{RECORD_LIMIT, read_choices, read_grades, read_people, read_rooms};
pub use crate::schedule::{Relocation, one_wave_each, waves};
pub use crate::tables::{or_none, people_text, results_text, rooms_text};
pub use crate::writing::{WriteEnd, write_grades, write_moves, write_people, write_rooms};
