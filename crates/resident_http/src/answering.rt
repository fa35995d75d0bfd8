//! Finds the response to a request: routes it, authenticates the resident, and asks the desk.
ghost use Rattle.std.specs.Prelude.{◌≡◌, IfOk};
ghost use Rattle.resident_requests.specs.Answers.{bytes_of};
ghost use Rattle.resident_requests.specs.Asks.{HasEarlyStatus, seen};
ghost use Rattle.resident_requests.specs.Faults.{error_answer, success_answer};
ghost use Rattle.resident_http.specs.DueResponses.{list_fault, refusal_answer};
ghost use Rattle.resident_http.specs.Inner.Responses.{WithAnswer};
ghost use Rattle.resident_http.specs.Serving.{Answers, Authenticates, Dispatches, Executes};

use office_core::{Command, Query, Refusal, Reply, Standing};
use office_store::{Answer, Handler, Request};
use resident_requests::{
    AskState, ErrorResponse, HttpAnswer, Route, Routed, answer_bytes, choices_body,
    choices_of_body, rooms_body, route_request, standing_body, withdrawn_body,
};
use room_types::{Key, Listing, OutOfMemory, TypeFault};
use std::alloc::Global;

/// Returns the bytes of the success response to `asked`, the parsed bytes of a connection, or the error response. Asks
/// the handler only for a complete request with a known path, the right method and a key. Looks for errors in this
/// order: an unknown path, a wrong method, a missing key, an unknown key, a bad list.
///
/// An incomplete request gets status 400, because no more bytes will come. This response, and that to a fault, needs
/// no allocation.
///
/// # Errors
///
/// The error response, if the parsed bytes are an incomplete request or a fault, or if the request or its command is
/// refused. The error response is `Unavailable` if an allocation fails, if the handler's answer is `Unavailable`, if
/// the handler answers a query with a reply of another form, or if it gives a refusal that the request never gets.
pub fn answer_ask<H: Handler>(
    alloc: Global,
    handler: &mut H,
    asked: &AskState<'_>,
) -> Result<Listing<u8>, ErrorResponse>
    requires ready { H.is_ready handler.old }
    requires early { HasEarlyStatus (seen asked.now) }
    ensures answers { WithAnswer result (λ answer.
        Answers H.handles (seen asked.now) handler.old answer handler.new) }
    ensures ready { H.is_ready handler.new }
{
    match asked {
        AskState::More => Err(ErrorResponse::BadRequest),
        AskState::Fault(status) => Err(ErrorResponse::of_fault(*status)),
        AskState::Ask {
            method,
            path,
            key,
            body,
            ..
        } => match route_request(alloc, method, path, *key)? {
            Routed::Unknown => Err(ErrorResponse::NotFound),
            Routed::WrongMethod { allow } => Err(ErrorResponse::WrongMethod(allow)),
            Routed::Forbidden => Err(ErrorResponse::Forbidden),
            Routed::To { route, key } => authenticate(alloc, handler, route, key, body),
        },
    }
}

// Returns the response to a request with a key. Asks the desk who owns the key, and lets the owner's request be carried
// out. The response is 403 if nobody owns the key.
fn authenticate<H: Handler>(
    alloc: Global,
    handler: &mut H,
    route: Route,
    key: &str,
    body: &[u8],
) -> Result<Listing<u8>, ErrorResponse>
    requires ready { H.is_ready handler.old }
    ensures answers { WithAnswer result (λ answer.
        Authenticates H.handles route key.now body.now handler.old answer handler.new) }
    ensures ready { H.is_ready handler.new }
{
    // The key was checked against the grammar of keys before, so `Key::read` fails only if an allocation fails.
    let Ok(key) = Key::read(alloc, key) else {
        return Err(ErrorResponse::Unavailable);
    };
    match handler.handle(alloc, &Request::Ask(Query::Me(key))) {
        Answer::Reply(Reply::Me(standing)) => act(alloc, handler, route, &standing, body),
        Answer::Refused(Refusal::UnknownPerson) => Err(ErrorResponse::Forbidden),
        _ => Err(ErrorResponse::Unavailable),
    }
}

// Carries out the request of the owner of the key, according to the route, and returns the response.
fn act<H: Handler>(
    alloc: Global,
    handler: &mut H,
    route: Route,
    standing: &Standing,
    body: &[u8],
) -> Result<Listing<u8>, ErrorResponse>
    requires ready { H.is_ready handler.old }
    ensures answers { WithAnswer result (λ answer.
        Dispatches H.handles route standing.now body.now handler.old answer handler.new) }
    ensures ready { H.is_ready handler.new }
{
    match route {
        Route::Standing => Ok(success_bytes(alloc, standing_body(alloc, standing)?)?),
        Route::Rooms => match handler.handle(alloc, &Request::Ask(Query::Rooms)) {
            Answer::Reply(Reply::Rooms(rows)) => {
                Ok(success_bytes(alloc, rooms_body(alloc, rows.as_slice())?)?)
            }
            _ => Err(ErrorResponse::Unavailable),
        },
        Route::Withdrawal => {
            let returned = withdrawn_body(alloc)?;
            let person = standing.person.copy()?;
            execute(alloc, handler, Command::Withdraw { person }, returned)
        }
        Route::Choices => match choices_of_body(alloc, body) {
            Ok(choices) => {
                let returned = choices_body(alloc, choices.as_slice())?;
                let person = standing.person.copy()?;
                execute(
                    alloc,
                    handler,
                    Command::SetChoices { person, choices },
                    returned,
                )
            }
            Err(fault) => Err(list_error(&fault)),
        },
    }
}

// Lets the desk handle the command, and returns the response for the desk's answer. Builds the bytes of the success
// response before, so the response to a command that has taken effect needs no allocation.
fn execute<H: Handler>(
    alloc: Global,
    handler: &mut H,
    command: Command,
    body: Listing<u8>,
) -> Result<Listing<u8>, ErrorResponse>
    requires ready { H.is_ready handler.old }
    ensures answers { WithAnswer result (λ answer.
        Executes H.handles command body handler.old answer handler.new) }
    ensures ready { H.is_ready handler.new }
{
    let done = success_bytes(alloc, body)?;
    match handler.handle(alloc, &Request::Office(command)) {
        Answer::Reply(_) => Ok(done),
        Answer::Refused(refusal) => Err(refusal_error(&refusal)),
        Answer::Unavailable => Err(ErrorResponse::Unavailable),
    }
}

// Returns the bytes of the success response with this body.
fn success_bytes(alloc: Global, body: Listing<u8>) -> Result<Listing<u8>, OutOfMemory>
    ensures { IfOk result (λ bytes. bytes ≡ bytes_of (success_answer body)) }
{
    let bytes = answer_bytes(alloc, &HttpAnswer::success(body))?;
    Ok(Listing::new(bytes))
}

// Returns the response to a body that is not a preference list.
fn list_error(fault: &TypeFault) -> ErrorResponse
    ensures { error_answer result ≡ list_fault fault.now }
{
    match fault {
        TypeFault::BadValue => ErrorResponse::BadRequest,
        TypeFault::OutOfMemory => ErrorResponse::Unavailable,
        TypeFault::TooManyChoices => ErrorResponse::TooManyChoices,
        TypeFault::RoomRepeated(_) => ErrorResponse::RoomRepeated,
    }
}

// Returns the response to a command that the office refuses. It is `Unavailable` for a refusal that a resident's
// command never gets.
fn refusal_error(refusal: &Refusal) -> ErrorResponse
    ensures { error_answer result ≡ refusal_answer refusal.now }
{
    match refusal {
        Refusal::BadPhase(_) => ErrorResponse::BadPhase,
        Refusal::Withdrawn => ErrorResponse::Withdrawn,
        Refusal::Going => ErrorResponse::Going,
        Refusal::UnknownRoom(_) => ErrorResponse::UnknownRoom,
        Refusal::RoomShut(_) => ErrorResponse::RoomShut,
        _ => ErrorResponse::Unavailable,
    }
}
