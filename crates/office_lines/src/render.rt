//! Turns the response to a line into the text to print and the exit status.

pub mod order_lines;
pub mod refusals;
pub mod replies;
pub mod response;

pub use crate::render::order_lines::order_text;
pub use crate::render::refusals::refusal_text;
pub use crate::render::replies::{exit_status, reply_text, text_of};
pub use crate::render::response::Response;
