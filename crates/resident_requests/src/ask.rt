//! Parsing a request from the bytes of a connection.
ghost use Rattle.std.specs.Prelude.{◌≡◌, ◌<◌, ◌∷◌, [], ◌≤◌, ◌++◌, ◌+◌, codes, drop, length, map, option_map, IfOk};
ghost use Rattle.std.specs.Prelude.{IfErr, IsUtf8, true};
ghost use Rattle.std.specs.List.{All};
ghost use Rattle.httparse.specs.Spans.{IsHeaderWithin, IsWithin, header_bytes, span_bytes};
ghost use Rattle.resident_requests.specs.Asks.{Asks, asked_of, seen, has_bad_host, is_present, key_of, body_length, path_of};
ghost use Rattle.resident_requests.specs.Asks.{HasEarlyStatus, is_early_status};
ghost use Rattle.resident_requests.specs.Asks.{window, is_more};
ghost use Rattle.resident_requests.specs.Fields.{values_of};

use crate::fields::{Found, find_fields, is_decimal, number_up_to};
use http::StatusCode;
use httparse::Status;
use httparse::spans::{EMPTY_HEADER_SPAN, HeaderSpan, RequestSpans, parse_request};
use room_types::Grammar;
use room_types::grammars::Keys;

/// The greatest number of bytes of a head.
pub const HEAD_LIMIT: usize = 8_192;

/// The greatest number of fields of a head.
pub const FIELD_LIMIT: usize = 64;

/// The greatest number of bytes of a body.
pub const BODY_LIMIT: u16 = 1_024;

/// The result of parsing the bytes that have been read from a connection so far. It borrows from these bytes.
#[derive(Clone, Copy, Debug)]
pub enum AskState<'b> {
    /// The request is incomplete: more bytes are needed.
    More,
    /// A complete request.
    Ask {
        /// The method, as written in the request.
        method: &'b [u8],
        /// The part of the request target before its first question mark. Percent-encoding is not decoded.
        path: &'b str,
        /// The resident's key, if there is exactly one field `Room-Key` and its value is in the grammar of `Key`.
        key: Option<&'b str>,
        /// The body: as many bytes after the head as the field `Content-Length` says. Empty without that field.
        body: &'b [u8],
        /// The length of the head and the body, in bytes.
        used: usize,
    },
    /// The bytes are refused. The response to them has the status given here.
    Fault(StatusCode),
}

/// Parses the request at the start of the bytes: the head, and as many bytes after it as the head announces. Ignores
/// the bytes after the body. Does not allocate.
///
/// A head follows the default grammar of `httparse`; for example, a line may end with a line feed alone. A request
/// with a fault is refused with one of the following statuses. If it has several faults, the first in this list
/// counts:
///
/// - 400: the head is not HTTP/1.0 or HTTP/1.1, is longer than `HEAD_LIMIT`, has more than `FIELD_LIMIT` fields, has
///   more than one field `Host`, or has none in HTTP/1.1.
/// - 417: the head has a field `Expect`.
/// - 501: the head has a field `Transfer-Encoding`.
/// - 400: the head has more than one field `Content-Length`, or one that is not decimal digits.
/// - 413: the value of the field `Content-Length` is above `BODY_LIMIT`.
///
/// If there are fewer than `HEAD_LIMIT` bytes and they do not start with a complete head, the result depends on
/// whether further bytes can complete a head:
///
/// - They can, with at most `FIELD_LIMIT` fields: the result is `More`.
/// - They can, but only with more than `FIELD_LIMIT` fields: the result may be `More` or 400.
/// - They cannot, and the bytes end within the request target: the result may be `More` or 400.
/// - They cannot, and the bytes do not end within the request target: the result is 400.
pub fn read_ask(bytes: &[u8]) -> AskState<'_>
    ensures asks { Asks bytes.now (seen result) }
    // The status of a fault is 400, 413, 417 or 501.
    ensures early { HasEarlyStatus (seen result) }

    // The result is `More` only for fewer than `HEAD_LIMIT + BODY_LIMIT` bytes, so a reader needs no larger buffer.
    ensures few { is_more (seen result) ≡ true → length bytes.now < 9216 }
{
    let mut headers = [EMPTY_HEADER_SPAN; FIELD_LIMIT];
    let window = first_bytes(bytes);
    match parse_request(window, &mut headers) {
        Ok(Status::Complete(head)) => asked_of(window, bytes, head, &headers[..head.headers]),
        Ok(Status::Partial) if bytes.len() < HEAD_LIMIT => AskState::More,
        Ok(Status::Partial) | Err(_) => AskState::Fault(StatusCode::BAD_REQUEST),
    }
}

// Returns the first `HEAD_LIMIT` bytes, or all if there are fewer. A head must end within them.
fn first_bytes(bytes: &[u8]) -> &[u8]
    ensures value { result.now ≡ window bytes.now }
    ensures all { bytes.now ≡ result.now ++ drop (length result.now) bytes.now }
    ensures few { length bytes.now < 8192 → result.now ≡ bytes.now }
    ensures bound { length result.now ≤ 8192 }
{
    if bytes.len() < HEAD_LIMIT {
        return bytes;
    }
    &bytes[..HEAD_LIMIT]
}

// Returns the result for a complete head and the bytes after it.
#[tactic(auto, unfolding(crate::specs::Asks::asked_of))]
fn asked_of<'b>(
    window: &'b [u8],
    bytes: &'b [u8],
    head: RequestSpans,
    headers: &[HeaderSpan],
) -> AskState<'b>
    requires method { IsWithin (length window.now) head.method }
    requires path { IsWithin (length window.now) head.path }
    requires text { IsUtf8 (span_bytes window.now head.path) }
    requires len { head.len ≤ length bytes.now }
    requires headers { All (IsHeaderWithin (length window.now)) headers.now }
    ensures early { HasEarlyStatus (seen result) }
    ensures few { is_more (seen result) ≡ true → length bytes.now < head.len + 1024 }
    ensures value { let fields = map (header_bytes window.now) headers.now in
        seen result ≡ asked_of (span_bytes window.now head.method)
        (span_bytes window.now head.path) head.version fields head.len (drop head.len bytes.now) }
{
    if has_bad_host(window, headers, head.version) {
        return AskState::Fault(StatusCode::BAD_REQUEST);
    }
    if has_field(window, headers, b"expect") {
        return AskState::Fault(StatusCode::EXPECTATION_FAILED);
    }
    if has_field(window, headers, b"transfer-encoding") {
        return AskState::Fault(StatusCode::NOT_IMPLEMENTED);
    }
    let rest = &bytes[head.len..];
    match body_length(window, headers) {
        Err(status) => AskState::Fault(status),
        Ok(length) if rest.len() < length => AskState::More,
        Ok(length) => AskState::Ask {
            method: head.method.of(window),
            path: path_of(text_of(head.path.of(window))),
            key: key_of(window, headers),
            body: &rest[..length],
            used: head.len + length,
        },
    }
}

// Returns whether the head has more than one field `Host`, or is HTTP/1.1 and has none.
fn has_bad_host(window: &[u8], headers: &[HeaderSpan], minor: u8) -> bool
    requires { All (IsHeaderWithin (length window.now)) headers.now }
    ensures { let fields = map (header_bytes window.now) headers.now in
        result ≡ has_bad_host minor (values_of (codes "host") fields) }
{
    match find_fields(window, headers, b"host") {
        Found::Nothing => minor == 1,
        Found::One(_) => false,
        Found::Several => true,
    }
}

fn has_field(window: &[u8], headers: &[HeaderSpan], name: &[u8]) -> bool
    requires { All (IsHeaderWithin (length window.now)) headers.now }
    ensures { result ≡ is_present (values_of name.now (map (header_bytes window.now) headers.now)) }
{
    match find_fields(window, headers, name) {
        Found::Nothing => false,
        Found::One(_) => true,
        Found::Several => true,
    }
}

// Returns the resident's key, if there is exactly one field `Room-Key` and its value is in the grammar of keys.
fn key_of<'b>(window: &'b [u8], headers: &[HeaderSpan]) -> Option<&'b str>
    requires { All (IsHeaderWithin (length window.now)) headers.now }
    ensures { let fields = map (header_bytes window.now) headers.now in
        option_map (λ k. k.now) result ≡ key_of (values_of (codes "room-key") fields) }
{
    match find_fields(window, headers, b"room-key") {
        Found::One(span) => key_text(span.of(window)),
        Found::Nothing => None,
        Found::Several => None,
    }
}

// Returns the length of the body, or the status of a fault in the fields `Content-Length`. Without such a field, the
// length is 0.
fn body_length(window: &[u8], headers: &[HeaderSpan]) -> Result<usize, StatusCode>
    requires { All (IsHeaderWithin (length window.now)) headers.now }
    ensures value { let fields = map (header_bytes window.now) headers.now in
        result ≡ body_length (values_of (codes "content-length") fields) }
    ensures early { IfErr result (λ status. is_early_status status ≡ true) }
    ensures bound { IfOk result (λ n. n ≤ 1024) }
{
    match find_fields(window, headers, b"content-length") {
        Found::Nothing => Ok(0),
        Found::One(span) => body_length_in(span.of(window)),
        Found::Several => Err(StatusCode::BAD_REQUEST),
    }
}

// Returns the length in the value of a field `Content-Length`. Fails with status 400 if the value is not decimal
// digits, and with status 413 if the length is above `BODY_LIMIT`.
fn body_length_in(text: &[u8]) -> Result<usize, StatusCode>
    ensures value { result ≡ body_length (text.now ∷ []) }
    ensures early { IfErr result (λ status. is_early_status status ≡ true) }
    ensures bound { IfOk result (λ n. n ≤ 1024) }
{
    if !is_decimal(text) {
        return Err(StatusCode::BAD_REQUEST);
    }
    let length = number_up_to(text, BODY_LIMIT + 1);
    if length > usize::from(BODY_LIMIT) {
        return Err(StatusCode::PAYLOAD_TOO_LARGE);
    }
    Ok(length)
}

// Returns the value as text, if it is in the grammar of keys.
fn key_text(value: &[u8]) -> Option<&str>
    ensures { option_map (λ k. k.now) result ≡ key_of (value.now ∷ []) }
{
    let Ok(text) = str::from_utf8(value) else {
        return None;
    };
    Keys::is_text(text).then_some(text)
}

// Returns the bytes as text.
fn text_of(bytes: &[u8]) -> &str
    requires { IsUtf8 bytes.now }
    ensures { result.now ≡ bytes.now }
{
    match str::from_utf8(bytes) {
        Ok(text) => text,
        Err(_) => unreachable!(),
    }
}

// Returns the part of the target before its first question mark.
fn path_of(target: &str) -> &str
    ensures { result.now ≡ path_of target.now }
{
    match target.split_once('?') {
        Some((path, _)) => path,
        None => target,
    }
}
