//! Tests of worked requests, and of the exact bytes of responses, with enough memory.
mod answers;
mod asks;
mod routes;

pub use crate::requests::answers::{fault_text, listed};
