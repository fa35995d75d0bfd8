//! The trait `Exported`, which gives each kind of export its query.
ghost use Rattle.std.specs.Prelude.{◌≡◌, ℕ, IfOk, IfSome, List};
ghost use Rattle.sqlite_value.specs.Order.{Row as Values};
ghost use Rattle.office_lists.specs.Exports.{record_bytes};
ghost use Rattle.office_lists.specs.Records.{Record};
ghost use Rattle.office_lists.specs.declared.exports.ExportKind.{ExportKind as Kind};
ghost use Rattle.office_store.specs.exports.Asking.{AsksForExport};

use office_lists::ExportKind;
use room_types::OutOfMemory;
use sqlite::Row;
use std::alloc::Global;

/// A type of row that an export writes. The members of this trait specify the query that returns the rows of the
/// export, and the record that the export writes for each row.
pub trait Exported {
    /// The kind of the export.
    ghost kind: { Kind };
    /// The SQL text of the query that returns the rows of the export, in the order of the export.
    ghost text: { List ℕ };
    /// Maps a row of the query to the fields of its record.
    ghost fields: { Values → Record };

    /// Returns the kind of the export.
    fn kind() -> ExportKind
        ensures { result ≡ kind };

    /// Returns the SQL text of the query for the rows of the export.
    fn query() -> &'static str
        ensures text { result.now ≡ text }
        ensures asks { AsksForExport kind text fields };

    /// Returns the bytes of the record for a row of the query, or `None` if the row has an unexpected form. Fails if
    /// an allocation fails.
    fn row_bytes(alloc: Global, row: &Row) -> Result<Option<Vec<u8>>, OutOfMemory>
        ensures { IfOk result
            (λ found. IfSome found (λ bytes. bytes.items ≡ record_bytes (fields row.now))) };
}
