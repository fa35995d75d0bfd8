//! Listens on a port and serves residents at a desk, one connection after another.

pub mod listener;
pub mod serving;

pub use crate::server::listener::{Listener, Loopback, Ports};
pub use crate::server::serving::{serve_each, serve_listener, serve_port};
