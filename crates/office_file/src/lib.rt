//! An office in a file: desks over a database file and its log.
#![tactic(auto)]

pub mod closing;
pub mod creating;
pub mod files;
pub mod finding;
pub mod migrating;
pub mod opening;
pub mod system;

pub use crate::closing::close;
pub use crate::creating::create_in;
pub use crate::files::{Closes, Files, SystemFiles};
pub use crate::finding::find_in;
pub use crate::migrating::migrate_in;
pub use crate::opening::{FileConnection, open_file, open_present_file};
pub use crate::system::{FileDesk, OnFile, close_file, create_over, find_over, migrate_over};
