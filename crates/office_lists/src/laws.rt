//! A theorem about exports. The function that states the theorem does nothing.
ghost use Rattle.office_lists.specs.Exports.{AreReadBack};

/// Theorem: reading the bytes of an export as CSV gives back the exported records. These are the header and one
/// record for each row.
pub fn exports_read_back()
    ensures { AreReadBack }
{}
