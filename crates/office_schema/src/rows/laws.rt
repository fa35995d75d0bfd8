//! A theorem about the definitions, for every office. The function's contract states the theorem; the function does
//! nothing.
ghost use Rattle.office_schema.specs.rows.SameRows.{RowsDetermineOffice};

/// A theorem: if two lawful offices have the same rows, in any order, the offices are equal. The function itself does
/// nothing.
pub fn rows_determine_office()
    ensures { RowsDetermineOffice }
{}
