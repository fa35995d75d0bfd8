//! Checking what a database declares.
ghost use Rattle.std.specs.Prelude.{◌≡◌, Decides};
ghost use Rattle.office_db.specs.creation.Names.{is_taken};
ghost use Rattle.office_schema.specs.tables.Schema.{no_schema};

use sqlite_catalog::layout::is_used;
use sqlite_schema::schema::Schema;

/// Returns whether a table, an index, a view or a trigger has the name of one of an office's ten tables.
/// `schema.views` also lists the triggers, and the tables that the engine does not understand.
pub(crate) fn is_taken(schema: &Schema) -> bool
    ensures { result ≡ is_taken schema.now }
{
    is_used(schema, b"room")
        || is_used(schema, b"person")
        || is_used(schema, b"round")
        || is_used(schema, b"choice")
        || is_used(schema, b"word")
        || is_used(schema, b"result")
        || is_used(schema, b"move")
        || is_used(schema, b"list")
        || is_used(schema, b"grade")
        || is_used(schema, b"going")
}

/// Returns whether the schema declares nothing: no table, no index, no view and no trigger.
pub(crate) fn declares_nothing(schema: &Schema) -> bool
    ensures { Decides result (schema.now ≡ no_schema) }
{
    schema.tables.as_slice().is_empty()
        && schema.indexes.as_slice().is_empty()
        && schema.views.as_slice().is_empty()
}
