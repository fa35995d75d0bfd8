//! Error responses.
ghost use Rattle.std.specs.Prelude.{◌≡◌, true};
ghost use Rattle.resident_requests.specs.Answers.{bytes_of};
ghost use Rattle.resident_requests.specs.Asks.{is_early_status};
ghost use Rattle.resident_requests.specs.Faults.{error_answer, status_fault, wrong_method_answer};

use crate::method::Method;
use http::StatusCode;
use room_types::OutOfMemory;

/// An error response: its status, and the error name in its body. The bytes of each are a constant, so an error
/// response needs no allocation.
#[derive(Clone, Copy, Debug, PartialEq, Eq, Drop)]
pub enum ErrorResponse {
    /// 400: the bytes are not a request, or the body is not a preference list.
    BadRequest,
    /// 403: the request has no valid key, or nobody has this key.
    Forbidden,
    /// 404: the server has no resource at the path.
    NotFound,
    /// 405: the path takes only this method.
    WrongMethod(Method),
    /// 409: the command does not belong to the phase.
    BadPhase,
    /// 409: the person has withdrawn from the round.
    Withdrawn,
    /// 409: the person leaves the college.
    Going,
    /// 413: the body is too long.
    ContentTooLarge,
    /// 417: the request has a field `Expect`.
    ExpectationFailed,
    /// 422: the list has too many rooms.
    TooManyChoices,
    /// 422: the list has a room twice.
    RoomRepeated,
    /// 422: the list has a room that is unknown.
    UnknownRoom,
    /// 422: the list has a room that is out of use.
    RoomShut,
    /// 501: the request has a field `Transfer-Encoding`.
    NotImplemented,
    /// 503: an allocation failed, or the desk is unavailable.
    Unavailable,
}

// The text of the error response with this status line, error name and length of the body, and with the method in the
// field `Allow`, if one is given.
macro_rules! text {
    ($status:literal, $name:literal, $length:literal $(, $allow:literal)?) => {
        concat!(
            "HTTP/1.1 ", $status, "\r\n",
            "Content-Type: application/json\r\n",
            "Content-Length: ", $length, "\r\n",
            $("Allow: ", $allow, "\r\n",)?
            "Connection: close\r\n\r\n",
            "{\"error\":\"", $name, "\"}"
        )
    };
}

impl ErrorResponse {
    /// Returns the error response with this status, which must be one that `read_ask` gives to a fault: 400, 413, 417
    /// or 501.
    pub fn of_fault(status: StatusCode) -> Self
        requires { is_early_status status ≡ true }
        ensures { error_answer result ≡ status_fault status }
    {
        match status.as_u16() {
            400 => ErrorResponse::BadRequest,
            413 => ErrorResponse::ContentTooLarge,
            417 => ErrorResponse::ExpectationFailed,
            501 => ErrorResponse::NotImplemented,
            // A status may be any number from 100 to 999, so the match needs this arm. The contract proves the arm
            // unreachable.
            _ => unreachable!(),
        }
    }

    /// Returns the status.
    pub fn status(self) -> StatusCode
        ensures { let answer = error_answer self in result ≡ answer.status }
    {
        match self {
            ErrorResponse::BadRequest => StatusCode::BAD_REQUEST,
            ErrorResponse::Forbidden => StatusCode::FORBIDDEN,
            ErrorResponse::NotFound => StatusCode::NOT_FOUND,
            ErrorResponse::WrongMethod(_) => StatusCode::METHOD_NOT_ALLOWED,
            ErrorResponse::BadPhase | ErrorResponse::Withdrawn | ErrorResponse::Going => {
                StatusCode::CONFLICT
            }
            ErrorResponse::ContentTooLarge => StatusCode::PAYLOAD_TOO_LARGE,
            ErrorResponse::ExpectationFailed => StatusCode::EXPECTATION_FAILED,
            ErrorResponse::TooManyChoices
            | ErrorResponse::RoomRepeated
            | ErrorResponse::UnknownRoom
            | ErrorResponse::RoomShut => StatusCode::UNPROCESSABLE_ENTITY,
            ErrorResponse::NotImplemented => StatusCode::NOT_IMPLEMENTED,
            ErrorResponse::Unavailable => StatusCode::SERVICE_UNAVAILABLE,
        }
    }

    /// Returns the bytes, which are a constant.
    pub fn bytes(self) -> &'static [u8]
        ensures { result.now ≡ bytes_of (error_answer self) }
    {
        self.text().as_bytes()
    }

    // Returns the bytes as text.
    fn text(self) -> &'static str
        ensures { result.now ≡ bytes_of (error_answer self) }
    {
        match self {
            ErrorResponse::BadRequest => text!("400 Bad Request", "BadRequest", 22),
            ErrorResponse::Forbidden => text!("403 Forbidden", "Forbidden", 21),
            ErrorResponse::NotFound => text!("404 Not Found", "NotFound", 20),
            ErrorResponse::WrongMethod(allow) => wrong_method_text(allow),
            ErrorResponse::BadPhase => text!("409 Conflict", "BadPhase", 20),
            ErrorResponse::Withdrawn => text!("409 Conflict", "Withdrawn", 21),
            ErrorResponse::Going => text!("409 Conflict", "Going", 17),
            ErrorResponse::ContentTooLarge => {
                text!("413 Payload Too Large", "ContentTooLarge", 27)
            }
            ErrorResponse::ExpectationFailed => {
                text!("417 Expectation Failed", "ExpectationFailed", 29)
            }
            ErrorResponse::TooManyChoices => {
                text!("422 Unprocessable Entity", "TooManyChoices", 26)
            }
            ErrorResponse::RoomRepeated => text!("422 Unprocessable Entity", "RoomRepeated", 24),
            ErrorResponse::UnknownRoom => text!("422 Unprocessable Entity", "UnknownRoom", 23),
            ErrorResponse::RoomShut => text!("422 Unprocessable Entity", "RoomShut", 20),
            ErrorResponse::NotImplemented => text!("501 Not Implemented", "NotImplemented", 26),
            ErrorResponse::Unavailable => text!("503 Service Unavailable", "Unavailable", 23),
        }
    }
}

// Returns the text of the response with status 405, for a path that takes only the method `allow`.
fn wrong_method_text(allow: Method) -> &'static str
    ensures { result.now ≡ bytes_of (wrong_method_answer allow) }
{
    match allow {
        Method::Get => text!("405 Method Not Allowed", "MethodNotAllowed", 28, "GET"),
        Method::Put => text!("405 Method Not Allowed", "MethodNotAllowed", 28, "PUT"),
        Method::Post => text!("405 Method Not Allowed", "MethodNotAllowed", 28, "POST"),
    }
}

impl From<OutOfMemory> for ErrorResponse {
    ghost use Rattle.std.specs.Prelude.{◌≡◌};
    ghost use Rattle.resident_requests.specs.declared.error_response.ErrorResponse.TheVariants.{Unavailable};

    ghost from_gives = { λ _ response. response ≡ Unavailable };

    fn from(_error: OutOfMemory) -> ErrorResponse {
        ErrorResponse::Unavailable
    }
}
