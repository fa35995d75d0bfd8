//! The layouts that the tables of an office may have in a database.
ghost use Rattle.std.specs.Prelude.{◌≡◌, ◌≤◌, length};
ghost use Rattle.office_schema.specs.tables.Layouts.{has_grades, has_leavers, order_of, table_count, version_of};

mod orders;

use crate::tables::layouts::orders::{DOCUMENTED, EARLIER, OWN};
use crate::tables::names::TableName;

/// A layout of an office's tables in a database: their version, and the order in which they were created.
#[derive(Clone, Copy, Debug, PartialEq, Eq, Drop)]
pub enum Layout {
    /// Version 3, with the tables in the order in which this program creates them.
    Own,
    /// Version 3, with the tables in the order of `docs/formats.md`.
    Documented,
    /// Version 2, with the tables in the order of `docs/formats.md`. This version has no table of leavers.
    DocumentedSecond,
    /// Version 1, with the tables in the order of `docs/formats.md`. This version has no tables of grades and
    /// leavers.
    DocumentedFirst,
    /// Version 1, with the tables in the order in which this program created them in that version.
    EarlierFirst,
}

impl Layout {
    /// Returns the version of the tables.
    pub fn version(self) -> u16
        ensures { result ≡ version_of self }
    {
        match self {
            Layout::Own => 3,
            Layout::Documented => 3,
            Layout::DocumentedSecond => 2,
            Layout::DocumentedFirst => 1,
            Layout::EarlierFirst => 1,
        }
    }

    /// Returns the tables in the order of the layout, each with the number of its tree. The layout has the first
    /// `tables()` of them.
    pub fn order(self) -> &'static [(TableName, u32)]
        ensures order { result.now ≡ order_of self }
        ensures whole { table_count self ≤ length result.now }
    {
        match self {
            Layout::Own => &OWN,
            Layout::Documented => &DOCUMENTED,
            Layout::DocumentedSecond => &DOCUMENTED,
            Layout::DocumentedFirst => &DOCUMENTED,
            Layout::EarlierFirst => &EARLIER,
        }
    }

    /// Returns the number of tables. Version 1 has eight tables, and each later version has one more.
    pub fn tables(self) -> usize
        ensures { result ≡ table_count self }
    {
        7 + usize::from(self.version())
    }

    /// Returns whether the layout has a table of grades.
    pub fn has_grades(self) -> bool
        ensures { result ≡ has_grades self }
    {
        self.version() >= 2
    }

    /// Returns whether the layout has a table of leavers.
    pub fn has_leavers(self) -> bool
        ensures { result ≡ has_leavers self }
    {
        self.version() >= 3
    }
}
