//! Serves residents over HTTP. For each connection, the server reads one request, lets the desk handle it, and writes
//! the response. The module `server` listens on a port and serves one connection after another.
#![tactic(auto)]

mod answering;
pub mod connection;
mod delivery;
pub mod laws;
pub mod served;
pub mod server;
pub mod serving;

pub use crate::connection::{CONNECTION_LIMIT, serve_connection};
pub use crate::served::Served;
pub use crate::serving::{serve_one, serve_one_in_memory};
pub use resident_requests::{AskState, HttpAnswer, answer_bytes, read_ask};
