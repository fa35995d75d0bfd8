//! Tests the unique keys and the references of a table, and whether the engine stamps its rows.
ghost use Rattle.std.specs.Prelude.{◌≡◌, ◌==◌, length, map};
ghost use Rattle.office_db.specs.loading.Inner.Declared.{are_places, is_only_name, is_only_place, is_plain};
ghost use Rattle.office_db.specs.loading.Inner.Declared.{is_reference, is_unstamped, takes_no_action};
ghost use Rattle.office_db.specs.loading.Inner.Lists.{pass_all};

use sqlite_schema::code::Terms;
use sqlite_schema::schema::{Action, Reference, Stamps, Table};
use sqlite_value::keys::Order;
use sqlite_value::value::Bytes;

pub(crate) fn has_uniques(table: &Table, own: &[&[usize]]) -> bool
    ensures { result ≡ pass_all are_places (map (λ o. o.now) own.now) table.now.uniques }
{
    let uniques = table.uniques.as_slice();
    if uniques.len() != own.len() {
        return false;
    }
    for place in 0..own.len() {
        if !are_places(uniques[place].as_slice(), own[place]) {
            return false;
        }
    }
    true
}

fn are_places(places: &[usize], own: &[usize]) -> bool
    ensures { result ≡ are_places own.now places.now }
{
    places == own
}

// Returns whether there is an order for each of the unique keys, and each sorts by bytes, upwards.
pub(crate) fn are_plain(orders: &[Order], uniques: &[&[usize]]) -> bool
    ensures { result ≡ pass_all is_plain (map (λ o. o.now) uniques.now) orders.now }
{
    if orders.len() != uniques.len() {
        return false;
    }
    for place in 0..uniques.len() {
        if orders[place].digits != 0 {
            return false;
        }
    }
    true
}

pub(crate) fn are_references(references: &[Reference], own: &[(&str, &str, usize)]) -> bool
    ensures { result ≡ pass_all is_reference (map (λ o. (o.0.now, o.1.now, o.2)) own.now)
        references.now }
{
    if references.len() != own.len() {
        return false;
    }
    for place in 0..own.len() {
        let (parent, column, at) = own[place];
        if !is_reference(&references[place], parent, column, at) {
            return false;
        }
    }
    true
}

// Returns whether the column at place `at`, and no other, refers to this column of the table `parent`.
fn is_reference(reference: &Reference, parent: &str, column: &str, at: usize) -> bool
    ensures { result ≡ is_reference (parent.now, column.now, at) reference.now }
{
    reference.parent.as_slice() == parent.as_bytes()
        && is_only_name(reference.parent_columns.as_slice(), column)
        && is_only_place(reference.columns.as_slice(), at)
        && takes_no_action(reference.on_delete)
        && takes_no_action(reference.on_update)
        && !reference.is_deferred
}

fn is_only_name(names: &[Bytes], own: &str) -> bool
    ensures { result ≡ is_only_name own.now names.now }
{
    match names {
        [name] => name.as_slice() == own.as_bytes(),
        _ => false,
    }
}

fn is_only_place(places: &[usize], own: usize) -> bool
    ensures { result ≡ is_only_place own places.now }
{
    match places {
        [place] => *place == own,
        _ => false,
    }
}

fn takes_no_action(action: Action) -> bool
    ensures { result ≡ takes_no_action action }
{
    match action {
        Action::NoAction => true,
        Action::Restrict => false,
        Action::Cascade => false,
        Action::SetNull => false,
        Action::SetDefault => false,
    }
}

pub(crate) fn is_unstamped(stamps: &Stamps) -> bool
    ensures { result ≡ is_unstamped stamps.now }
{
    stamps.places.len() == 0 && has_no_terms(&stamps.terms) && stamps.formats.len() == 0
}

fn has_no_terms(terms: &Terms) -> bool
    ensures { result ≡ (length terms.now == 0) }
{
    terms.roots.len() == 0
}
