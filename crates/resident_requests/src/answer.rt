//! HTTP responses and their bytes.
ghost use Rattle.std.specs.Prelude.{◌≡◌, ◌++◌, IfOk, OnOk, string_bytes, true};
ghost use Rattle.resident_requests.specs.Answers.{allow_line, bytes_of, head_text, is_response_status, reason};
ghost use Rattle.resident_requests.specs.Faults.{success_answer};

use crate::method::Method;
use http::StatusCode;
use room_types::{Listing, OutOfMemory};
use std::alloc::{AllocError, Global};
use std::marker::Model;

/// An HTTP response. Its status is 200, 400, 403, 404, 405, 409, 413, 417, 422, 501 or 503. `allow` is present
/// exactly if the status is 405. The body should be JSON, because `answer_bytes` labels each body as JSON in the
/// field `Content-Type`. The type does not check the body.
#[derive(Debug, Drop)]
pub struct HttpAnswer {
    /// The status.
    pub status: StatusCode,
    /// For status 405, the method that the path takes; the request had a different method. Otherwise `None`.
    pub allow: Option<Method>,
    /// The bytes of the body.
    pub body: Listing<u8>,
}

impl Model for HttpAnswer {
    ghost use Rattle.resident_requests.specs.Answers.{Answer, IsAnswer};

    ghost Value = { Answer };

    ghost view = { λ a. record { status = a.status; allow = a.allow; body = a.body } };

    ghost invariant = { λ a.
        IsAnswer (record { status = a.status; allow = a.allow; body = a.body }) };
}

impl HttpAnswer {
    /// Returns the response with status 200 and this body.
    pub fn success(body: Listing<u8>) -> Self
        ensures { result ≡ success_answer body }
    {
        HttpAnswer {
            status: StatusCode::OK,
            allow: None,
            body,
        }
    }
}

/// Returns the bytes of a response: its head, with the fields in a fixed order, and its body.
///
/// # Errors
///
/// `OutOfMemory` if an allocation fails.
pub fn answer_bytes(alloc: Global, answer: &HttpAnswer) -> Result<Vec<u8>, OutOfMemory>
    ensures { IfOk result (λ bytes. bytes.items ≡ bytes_of answer.now) }
{
    let head = head_text(alloc, answer.status, answer.allow, answer.body.len())?;
    let mut bytes = head.into_bytes();
    bytes.extend_from_slice(answer.body.as_slice())?;
    Ok(bytes)
}

// Returns the head of a response: the status line, the fields, and the empty line after them.
fn head_text(
    alloc: Global,
    status: StatusCode,
    allow: Option<Method>,
    body_length: usize,
) -> Result<String, AllocError>
    requires { is_response_status status ≡ true }
    ensures { IfOk result (λ text. string_bytes text ≡ head_text status allow body_length) }
{
    let code = status.as_u16();
    let reason = reason(status);
    let mut text = format!(in alloc;
        "HTTP/1.1 {code} {reason}\r\nContent-Type: application/json\r\nContent-Length: {body_length}\r\n"
    )?;
    push_allow(&mut text, allow)?;
    text.push_str("Connection: close\r\n\r\n")?;
    Ok(text)
}

// Appends the field `Allow`, if a method is given.
fn push_allow(text: &mut String, allow: Option<Method>) -> Result<(), AllocError>
    ensures { OnOk result (string_bytes text.new ≡ string_bytes text.old ++ allow_line allow) }
{
    if let Some(method) = allow {
        text.push_str("Allow: ")?;
        text.push_str(method.as_str())?;
        text.push_str("\r\n")?;
    }
    Ok(())
}

// Returns the reason phrase of the status.
fn reason(status: StatusCode) -> &'static str
    requires { is_response_status status ≡ true }
    ensures { result.now ≡ reason status }
{
    match status.as_u16() {
        200 => "OK",
        400 => "Bad Request",
        403 => "Forbidden",
        404 => "Not Found",
        405 => "Method Not Allowed",
        409 => "Conflict",
        413 => "Payload Too Large",
        417 => "Expectation Failed",
        422 => "Unprocessable Entity",
        501 => "Not Implemented",
        503 => "Service Unavailable",
        // A status may be any number from 100 to 999, so the match needs this arm. The contract proves the arm
        // unreachable.
        _ => unreachable!(),
    }
}
