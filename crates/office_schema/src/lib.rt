//! How a database stores an office: the rows as typed records (`rows`), the cells of each row (`cells`), and the
//! tables with the queries for all their rows and the statements that change them (`tables`).
#![tactic(auto)]

pub mod cells;
pub mod rows;
pub mod tables;
