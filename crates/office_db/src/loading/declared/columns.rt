//! Tests the columns and the key of a table.
ghost use Rattle.std.specs.Prelude.{◌≡◌, map};
ghost use Rattle.office_db.specs.loading.Inner.Declared.{is_binary, is_column, is_null, kind_code, same_bool, same_key};
ghost use Rattle.office_db.specs.loading.Inner.Lists.{pass_all};

use sqlite_schema::schema::{Column, Kind};
use sqlite_value::keys::Collation;
use sqlite_value::value::Value;

pub(crate) fn are_columns(columns: &[Column], own: &[(&str, Kind, bool)]) -> bool
    ensures { result ≡ pass_all is_column (map (λ o. (o.0.now, o.1, o.2)) own.now) columns.now }
{
    if columns.len() != own.len() {
        return false;
    }
    for place in 0..own.len() {
        let (name, kind, not_null) = own[place];
        if !is_column(&columns[place], name, kind, not_null) {
            return false;
        }
    }
    true
}

// Returns whether the column has this name and kind, takes values of its kind alone, has no default, and sorts by
// bytes. `not_null` says whether it has to refuse NULL.
fn is_column(column: &Column, name: &str, kind: Kind, not_null: bool) -> bool
    ensures { result ≡ is_column (name.now, kind, not_null) column.now }
{
    column.name.as_slice() == name.as_bytes()
        && kind_code(column.kind) == kind_code(kind)
        && column.is_strict
        && is_same(not_null, column.not_null)
        && is_null(&column.default)
        && is_binary(column.collation)
}

// Returns a number for each kind.
fn kind_code(kind: Kind) -> u8
    ensures { result ≡ kind_code kind }
{
    match kind {
        Kind::Integer => 0,
        Kind::Real => 1,
        Kind::Text => 2,
        Kind::Blob => 3,
        Kind::Any => 4,
    }
}

fn is_same(a: bool, b: bool) -> bool
    ensures { result ≡ same_bool a b }
{
    match a {
        true => b,
        false => !b,
    }
}

fn is_null(value: &Value) -> bool
    ensures { result ≡ is_null value.now }
{
    match value {
        Value::Null => true,
        Value::Int(_) => false,
        Value::Real(_) => false,
        Value::Text(_) => false,
        Value::Blob(_) => false,
    }
}

fn is_binary(collation: Collation) -> bool
    ensures { result ≡ is_binary collation }
{
    match collation {
        Collation::Binary => true,
        Collation::NoCase => false,
        Collation::RTrim => false,
    }
}

pub(crate) fn is_same_key(key: Option<usize>, own: Option<usize>) -> bool
    ensures { result ≡ same_key own key }
{
    match own {
        None => match key {
            None => true,
            Some(_) => false,
        },
        Some(own) => match key {
            None => false,
            Some(at) => at == own,
        },
    }
}
