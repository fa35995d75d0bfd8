//! The office of a college's room exchange. `decide` decides a command: it returns a reply and the changes to apply,
//! or a refusal. `answer` answers a query: it returns a reply or a refusal. A `Handler` answers requests, each of which
//! is a command or a query.
#![tactic(auto)]

mod command;
pub mod laws;
mod query;
mod refusal;
mod reply;
mod requests;

pub use crate::command::Command;
pub use crate::command::decide::decide;
pub use crate::command::decision::Decision;
pub use crate::query::Query;
pub use crate::query::answer::answer;
pub use crate::refusal::Refusal;
pub use crate::reply::{OrderRow, Reply, Standing};
pub use crate::requests::{Answer, Handler, Request};
pub use office_state::{Change, Office, apply, sound};
