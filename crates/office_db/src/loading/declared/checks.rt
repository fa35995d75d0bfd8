//! Tests the checks of a table.
ghost use Rattle.std.specs.Prelude.{◌≡◌, ◌≢◌, ◌-◌, ◌<◌, None as nothing, IfSome, Decides, pos};
ghost use Rattle.sqlite_sql.specs.Term.{Term, col, lit, op2};
ghost use Rattle.sqlite_value.specs.declared.value.Value.TheVariants.{Int};
ghost use Rattle.sqlite_schema.specs.Code.{term_to, terms_in};
ghost use Rattle.office_schema.specs.tables.Schema.{either, equals, is_digit};
ghost use Rattle.office_db.specs.loading.Inner.Declared.{checks_of};

use crate::loading::declared::forms::Checks;
use sqlite_schema::code::{Op, Terms};
use sqlite_sql::ops::{BinaryOp, CompareOp};
use sqlite_value::keys::Collation;
use sqlite_value::value::Value;

// Returns whether the checks are these.
pub(crate) fn has_checks(checks: &Terms, own: Checks) -> bool
    ensures { Decides result (checks.now ≡ checks_of own) }
{
    are_checks(checks.nodes.as_slice(), checks.roots.as_slice(), own)
}

// Returns whether the terms at `roots` are these checks.
fn are_checks(ops: &[Op], roots: &[usize], own: Checks) -> bool
    ensures { Decides result (terms_in ops.now roots.now ≡ checks_of own) }
{
    match own {
        Checks::Free => roots.len() == 0,
        Checks::Flag(place) => {
            roots.len() == 1 && is_pair(ops, ops.len(), roots[0], place, (0, 1))
        }
        Checks::Digit(place) => roots.len() == 1 && is_digit(ops, ops.len(), roots[0], place),
        Checks::One => roots.len() == 1 && is_equality(ops, ops.len(), roots[0], 0, 1),
    }
}

// Returns whether the term at `at` tests that the column at `place` is an integer from 1 to 9. Each of these functions
// reads the term down to the depth `depth`.
fn is_digit(ops: &[Op], depth: usize, at: usize, place: usize) -> bool
    ensures { Decides result (term_to ops.now depth at ≡ is_digit place) }
{
    let Some((low, high)) = operands(ops, depth, at, BinaryOp::Or) else {
        return false;
    };
    is_low_digit(ops, depth - 1, low, place) && is_high_digit(ops, depth - 1, high, place)
}

// The same of an integer from 1 to 4.
fn is_low_digit(ops: &[Op], depth: usize, at: usize, place: usize) -> bool
    ensures { Decides result (term_to ops.now depth at
        ≡ either (either (equals place 1) (equals place 2)) (either (equals place 3) (equals place 4))) }
{
    let Some((low, high)) = operands(ops, depth, at, BinaryOp::Or) else {
        return false;
    };
    is_pair(ops, depth - 1, low, place, (1, 2)) && is_pair(ops, depth - 1, high, place, (3, 4))
}

// The same of an integer from 5 to 9.
fn is_high_digit(ops: &[Op], depth: usize, at: usize, place: usize) -> bool
    ensures { Decides result (term_to ops.now depth at
        ≡ either (either (equals place 5) (equals place 6))
        (either (equals place 7) (either (equals place 8) (equals place 9)))) }
{
    let Some((low, high)) = operands(ops, depth, at, BinaryOp::Or) else {
        return false;
    };
    is_pair(ops, depth - 1, low, place, (5, 6)) && is_top_digit(ops, depth - 1, high, place)
}

// The same of an integer from 7 to 9.
fn is_top_digit(ops: &[Op], depth: usize, at: usize, place: usize) -> bool
    ensures { Decides result (term_to ops.now depth at
        ≡ either (equals place 7) (either (equals place 8) (equals place 9))) }
{
    let Some((low, high)) = operands(ops, depth, at, BinaryOp::Or) else {
        return false;
    };
    is_equality(ops, depth - 1, low, place, 7) && is_pair(ops, depth - 1, high, place, (8, 9))
}

// Returns whether the term at `at` tests that the column at `place` is one of these two numbers.
fn is_pair(ops: &[Op], depth: usize, at: usize, place: usize, numbers: (u8, u8)) -> bool
    ensures { Decides result (term_to ops.now depth at
        ≡ either (equals place numbers.0) (equals place numbers.1)) }
{
    let Some((low, high)) = operands(ops, depth, at, BinaryOp::Or) else {
        return false;
    };
    is_equality(ops, depth - 1, low, place, numbers.0)
        && is_equality(ops, depth - 1, high, place, numbers.1)
}

// Returns whether the term at `at` tests that the column at `place` is this number.
fn is_equality(ops: &[Op], depth: usize, at: usize, place: usize, number: u8) -> bool
    ensures { Decides result (term_to ops.now depth at ≡ equals place number) }
{
    let equal = BinaryOp::Compare(CompareOp::Eq, Collation::Binary);
    let Some((column, literal)) = operands(ops, depth, at, equal) else {
        return false;
    };
    is_row_column(ops, depth - 1, column, place) && is_number(ops, depth - 1, literal, number)
}

// Returns the places of the two operands if the term at `at` applies this operator.
fn operands(ops: &[Op], depth: usize, at: usize, of: BinaryOp) -> Option<(usize, usize)>
    ensures deep { IfSome result (λ two. 0 < depth) }
    ensures term { IfSome result (λ two. term_to ops.now depth at
        ≡ op2 of (term_to ops.now (depth - 1) two.0) (term_to ops.now (depth - 1) two.1)) }
    ensures other { result ≡ nothing → (a : Term) (b : Term) → term_to ops.now depth at ≢ op2 of a b }
{
    if depth == 0 || at >= ops.len() {
        return None;
    }
    let Op::Binary(op, a, b) = &ops[at] else {
        return None;
    };
    if *op != of {
        return None;
    }
    Some((*a, *b))
}

// Returns whether the term at `at` is the column at `place` of the row.
fn is_row_column(ops: &[Op], depth: usize, at: usize, place: usize) -> bool
    ensures { Decides result (term_to ops.now depth at ≡ col 1 place) }
{
    if depth == 0 || at >= ops.len() {
        return false;
    }
    match &ops[at] {
        Op::Column(slot, column) => *slot == 1 && *column == place,
        _ => false,
    }
}

// Returns whether the term at `at` is this number.
fn is_number(ops: &[Op], depth: usize, at: usize, number: u8) -> bool
    ensures { Decides result (term_to ops.now depth at ≡ lit (Int (pos number))) }
{
    if depth == 0 || at >= ops.len() {
        return false;
    }
    match &ops[at] {
        Op::Literal(Value::Int(found)) => *found == i64::from(number),
        _ => false,
    }
}
