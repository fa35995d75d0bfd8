//! Reads cells as typed values. Each function returns `None` if the cell has another form. Reading a number or a flag
//! does not allocate.
ghost use Rattle.std.specs.Prelude.{◌≡◌, ◌⊎◌, ◌<◌, ℕ, length, pos, IfOk, IfSome, IsUtf8, MatchOption, OnErr, Option};
ghost use Rattle.std.specs.Bool.{Decides};
ghost use Rattle.sqlite_value.specs.Order.{column};
ghost use Rattle.sqlite_value.specs.declared.value.Value.TheVariants.{Blob as blob_value, Int, Null, Text as text_value};
ghost use Rattle.office_schema.specs.cells.Cells.{IsTextOf, IsOptionalTextOf, IsString, IsBlob, IsFlag, IsCount};
ghost use Rattle.office_schema.specs.cells.Cells.{IsFilledBlob, IsShort, IsWave, count_or_null, flag, text_or_null};
ghost use Rattle.office_schema.specs.cells.Cells.{wave_value};

use room_types::{Grammar, Listing, OutOfMemory, Text, TypeFault, Wave};
use sqlite::Row;
use sqlite_value::value::ValueRef;
use std::alloc::Global;
use std::str;

/// Reads column `at` as a text, borrowed from the row. Returns `None` if the column does not hold a UTF-8 text. Does
/// not allocate.
pub fn str_in(row: &Row, at: usize) -> Option<&str>
    ensures { MatchOption result (¬ IsString (column row.now at))
        (λ t. (column row.now at ≡ text_value t.now) × IsUtf8 t.now) }
{
    match row.get_ref(at) {
        Ok(ValueRef::Text(bytes)) => str::from_utf8(bytes).ok(),
        _ => None,
    }
}

/// Reads column `at` as a text of the grammar `G`. Returns `None` if the column holds anything else. Allocates only
/// if the column holds a text of `G`. Fails only if an allocation fails.
pub fn text_in<G: Grammar>(
    alloc: Global,
    row: &Row,
    at: usize,
) -> Result<Option<Text<G>>, OutOfMemory>
    ensures returned { IfOk result (λ found. MatchOption found
        (¬ IsTextOf G.is_text (column row.now at))
        (λ t. column row.now at ≡ text_value t)) }
    ensures formed { IfOk result
        (λ found. IfSome found (λ _. IsTextOf G.is_text (column row.now at))) }
    ensures memory { OnErr result (IsTextOf G.is_text (column row.now at)) }
{
    let Some(text) = str_in(row, at) else {
        return Ok(None);
    };
    match Text::read(alloc, text) {
        Ok(text) => Ok(Some(text)),
        Err(TypeFault::OutOfMemory) => Err(OutOfMemory {}),
        Err(_) => Ok(None),
    }
}

/// Reads column `at` as a text of the grammar `G`, or as NULL. Returns `Some(None)` for NULL and for a column past
/// the end of the row. Returns `None` if the column holds anything else. Allocates only if the column holds a text of
/// `G`. Fails only if an allocation fails.
pub fn optional_text_in<G: Grammar>(
    alloc: Global,
    row: &Row,
    at: usize,
) -> Result<Option<Option<Text<G>>>, OutOfMemory>
    ensures returned { IfOk result (λ found. MatchOption found
        (¬ IsOptionalTextOf G.is_text (column row.now at))
        (λ t. column row.now at ≡ text_or_null t)) }
    ensures formed { IfOk result
        (λ found. IfSome found (λ _. IsOptionalTextOf G.is_text (column row.now at))) }
    ensures memory { OnErr result (IsTextOf G.is_text (column row.now at)) }
{
    if is_null(row, at) {
        return Ok(Some(None));
    }
    match text_in(alloc, row, at)? {
        Some(text) => Ok(Some(Some(text))),
        None => Ok(None),
    }
}

// Returns whether a column is NULL. A column past the end of the row is NULL.
fn is_null(row: &Row, at: usize) -> bool
    ensures { Decides result (column row.now at ≡ Null) }
{
    matches!(row.get_ref(at), Ok(ValueRef::Null) | Err(_))
}

/// Reads column `at` as a blob. Returns `None` if the column holds anything else. Allocates only if the column holds
/// a blob of at least one byte. Fails only if an allocation fails.
pub fn bytes_in(alloc: Global, row: &Row, at: usize) -> Result<Option<Listing<u8>>, OutOfMemory>
    ensures returned { IfOk result (λ found. MatchOption found (¬ IsBlob (column row.now at))
        (λ bytes. column row.now at ≡ blob_value bytes)) }
    ensures formed { IfOk result (λ found. IfSome found (λ _. IsBlob (column row.now at))) }
    ensures memory { OnErr result (IsFilledBlob (column row.now at)) }
{
    match row.get_ref(at) {
        Ok(ValueRef::Blob(bytes)) => Ok(Some(copy_bytes(alloc, bytes)?)),
        _ => Ok(None),
    }
}

// Copies the bytes. Allocates nothing if `bytes` is empty.
fn copy_bytes(alloc: Global, bytes: &[u8]) -> Result<Listing<u8>, OutOfMemory>
    ensures same { IfOk result (λ copy. copy ≡ bytes.now) }
    ensures memory { OnErr result (0 < length bytes.now) }
{
    if bytes.is_empty() {
        return Ok(Listing::empty(alloc));
    }
    Ok(Listing::new(Vec::from_slice(alloc, bytes)?))
}

/// Reads column `at` as an integer from 0 up. Returns `None` if the column holds anything else.
pub fn u64_in(row: &Row, at: usize) -> Option<u64>
    ensures returned { MatchOption result (¬ IsCount (column row.now at))
        (λ n. column row.now at ≡ Int (pos n)) }
    ensures formed { IfSome result (λ _. IsCount (column row.now at)) }
{
    match row.get_ref(at) {
        Ok(ValueRef::Int(number)) => u64::try_from(number).ok(),
        _ => None,
    }
}

// Reads column `at` as an integer from 0 up, or as NULL. Returns `Some(None)` for NULL and for a column past the end
// of the row. Returns `None` if the column holds anything else.
fn optional_u64_in(row: &Row, at: usize) -> Option<Option<u64>>
    ensures { MatchOption result
        (¬ ((column row.now at ≡ Null) ⊎ IsCount (column row.now at)))
        (λ n. column row.now at ≡ count_or_null n) }
{
    match row.get_ref(at) {
        Ok(ValueRef::Int(number)) => Some(Some(u64::try_from(number).ok()?)),
        Ok(ValueRef::Null) | Err(_) => Some(None),
        Ok(_) => None,
    }
}

/// Reads column `at` as a flag: 0 is `false`, 1 is `true`. Returns `None` if the column holds anything else.
pub fn flag_in(row: &Row, at: usize) -> Option<bool>
    ensures returned { MatchOption result (¬ IsFlag (column row.now at))
        (λ b. column row.now at ≡ flag b) }
    ensures formed { IfSome result (λ _. IsFlag (column row.now at)) }
{
    match u64_in(row, at) {
        Some(0) => Some(false),
        Some(1) => Some(true),
        _ => None,
    }
}

/// Reads column `at` as an integer from 0 to 65535. Returns `None` if the column holds anything else.
pub fn u16_in(row: &Row, at: usize) -> Option<u16>
    ensures returned { MatchOption result (¬ IsShort (column row.now at))
        (λ n. column row.now at ≡ Int (pos n)) }
    ensures formed { IfSome result (λ _. IsShort (column row.now at)) }
{
    let number = u64_in(row, at)?;
    u16::try_from(number).ok()
}

/// Reads column `at` as a wave. NULL is a swap, and an integer from 0 to 65535 is the number of a wave. A column past
/// the end of the row counts as NULL. Returns `None` if the column holds anything else.
pub fn wave_in(row: &Row, at: usize) -> Option<Wave>
    ensures returned { MatchOption result (¬ IsWave (column row.now at))
        (λ w. column row.now at ≡ wave_value w) }
    ensures formed { IfSome result (λ _. IsWave (column row.now at)) }
{
    let Some(number) = optional_u64_in(row, at)? else {
        return Some(Wave::Swap);
    };
    let number = u16::try_from(number).ok()?;
    Some(Wave::Nth(number))
}
