//! The fields of a request's head.
ghost use Rattle.std.specs.Prelude.{◌≡◌, ◌+◌, ◌≤◌, ◌++◌, ◌∷◌, [], List, ℕ, if◌then◌else◌, length, map, min, true};
ghost use Rattle.std.specs.List.{All, list_all};
ghost use Rattle.std.specs.Char.{is_ascii_digit};
ghost use Rattle.std.specs.Str.{str_eq_ignore_ascii_case};
ghost use Rattle.httparse.specs.Spans.{IsHeaderWithin, header_bytes, span_bytes};
ghost use Rattle.resident_requests.specs.Fields.{values_of, is_decimal, number_of};
ghost use Rattle.resident_requests.specs.Inner.Found.{Finds};

use httparse::spans::{HeaderSpan, Span};

/// The result of searching a request's head for the fields with a given name.
#[derive(Clone, Copy, Debug, PartialEq, Eq, Drop)]
pub enum Found {
    Nothing,
    /// There is exactly one field. The span is the place of its value in the buffer.
    One(Span),
    Several,
}

/// Searches `headers` for the fields named `name`, ignoring ASCII case. The spans in `headers` and in the result are
/// places in `buf`.
pub fn find_fields(buf: &[u8], headers: &[HeaderSpan], name: &[u8]) -> Found
    requires { All (IsHeaderWithin (length buf.now)) headers.now }
    ensures { Finds buf.now result (values_of name.now (map (header_bytes buf.now) headers.now)) }
{
    let mut found = Found::Nothing;
    for header in headers {
        found = with_field(buf, found, *header, name);
    }
    found
}

// Returns the search result `found`, updated for one more field. The field counts only if it has this name.
fn with_field(buf: &[u8], found: Found, header: HeaderSpan, name: &[u8]) -> Found
    requires { IsHeaderWithin (length buf.now) header }
    ensures { (values : List (List ℕ)) → Finds buf.now found values
        → Finds buf.now result (values
        ++ (if str_eq_ignore_ascii_case (span_bytes buf.now header.name) name.now
        then span_bytes buf.now header.value ∷ [] else [])) }
{
    if !header.name.of(buf).eq_ignore_ascii_case(name) {
        return found;
    }
    match found {
        Found::Nothing => Found::One(header.value),
        Found::One(_) => Found::Several,
        Found::Several => Found::Several,
    }
}

/// Returns whether the text is one or more decimal digits.
pub fn is_decimal(text: &[u8]) -> bool
    ensures { result ≡ is_decimal text.now }
{
    !text.is_empty() && has_only_digits(text)
}

fn has_only_digits(text: &[u8]) -> bool
    ensures { result ≡ list_all is_ascii_digit text.now }
{
    text.iter().all(|b| b.is_ascii_digit())
}

/// Returns the number that the decimal digits in `text` denote, or `most` if the number is greater than `most`.
pub fn number_up_to(text: &[u8], most: u16) -> usize
    requires { list_all is_ascii_digit text.now ≡ true }
    ensures { result ≡ min (number_of text.now) most }
{
    let most = usize::from(most);
    let mut number = 0;
    for b in text {
        number = (number * 10 + usize::from(*b - b'0')).min(most);
    }
    number
}
