//! Migrates the tables of an office to the layout that this program creates. The office that they hold stays the
//! same.
#![tactic(auto)]

pub mod migrating;
pub mod renewing;
pub mod taken;
pub mod versions;

pub use crate::migrating::{MigrateFault, migrate};
pub use crate::renewing::renewed_office;
