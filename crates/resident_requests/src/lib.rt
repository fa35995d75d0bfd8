//! Residents' requests over HTTP: parses the bytes of a connection, and builds the bytes of a response.
#![tactic(auto)]

pub mod answer;
pub mod ask;
pub mod bodies;
pub mod choices;
pub mod error_response;
mod fields;
pub mod laws;
pub mod method;
pub mod routes;

pub use crate::answer::{HttpAnswer, answer_bytes};
pub use crate::ask::{AskState, read_ask};
pub use crate::bodies::{choices_body, rooms_body, standing_body, withdrawn_body};
pub use crate::choices::choices_of_body;
pub use crate::error_response::ErrorResponse;
pub use crate::method::Method;
pub use crate::routes::{Route, Routed, route_request};
