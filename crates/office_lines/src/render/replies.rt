//! Turns a response into its text and exit status, and a reply into its text.
ghost use Rattle.std.specs.Prelude.{◌≡◌, ◌<◌, ◌++◌, [], ◌∷◌, IfOk, OnErr, OnOk, false, length, string_bytes};
ghost use Rattle.std.specs.Cow.{cow_str_bytes};
ghost use Rattle.room_types.specs.OutputLines.{line_of};
ghost use Rattle.office_lines.specs.render.Texts.{text_of as text-of, exit_status as status-of, is_constant};
ghost use Rattle.office_lines.specs.render.Replies.{going_text, reply_text, result_text, spaced, standing_text, yes_or_no};

use crate::render::order_lines::order_text;
use crate::render::refusals::refusal_text;
use crate::render::response::Response;
use office_core::{Answer, Reply, Standing};
use office_lists::{move_day_text, or_none, people_text, results_text, rooms_text};
use room_types::printing::{ACCEPTED, NOT_UNDERSTOOD, REFUSED, UNAVAILABLE};
use room_types::{OutOfMemory, PersonId, Phase, RoomCode};
use std::alloc::{AllocError, Global};
use std::borrow::CowStr;

/// Returns the text to print for a response.
///
/// The texts `unavailable` and `not understood` are borrowed constants. So the program needs no allocation to report
/// that it is out of memory.
///
/// # Errors
///
/// `OutOfMemory` if an allocation fails. This never happens if the text is a constant or empty.
pub fn text_of(alloc: Global, response: &Response) -> Result<CowStr<'static, Global>, OutOfMemory>
    ensures text { IfOk result (λ text. cow_str_bytes text ≡ text-of response.now) }
    ensures made { OnErr result (is_constant response.now ≡ false) }
    ensures memory { OnErr result (0 < length (text-of response.now)) }
{
    match response {
        Response::Nothing => Ok(CowStr::Borrowed("")),
        Response::Answered(Answer::Reply(reply)) => Ok(CowStr::Owned(reply_text(alloc, reply)?)),
        Response::Answered(Answer::Refused(refusal)) => {
            Ok(CowStr::Owned(refusal_text(alloc, refusal)?))
        }
        Response::Answered(Answer::Unavailable) => Ok(CowStr::Borrowed("unavailable\n")),
        Response::NotUnderstood => Ok(CowStr::Borrowed("not understood\n")),
    }
}

/// Returns the exit status of a line that got this response.
pub fn exit_status(response: &Response) -> u8
    ensures { result ≡ status-of response.now }
{
    match response {
        Response::Nothing | Response::Answered(Answer::Reply(_)) => ACCEPTED,
        Response::Answered(Answer::Refused(_)) => REFUSED,
        Response::Answered(Answer::Unavailable) => UNAVAILABLE,
        Response::NotUnderstood => NOT_UNDERSTOOD,
    }
}

/// Returns the lines to print for a reply.
///
/// # Errors
///
/// `OutOfMemory` if an allocation fails. This never happens if the text is empty.
pub fn reply_text(alloc: Global, reply: &Reply) -> Result<String, OutOfMemory>
    ensures text { IfOk result (λ text. string_bytes text ≡ reply_text reply.now) }
    ensures memory { OnErr result (0 < length (reply_text reply.now)) }
{
    match reply {
        Reply::Done => owned_line(alloc, "ok\n"),
        Reply::Shut { displaced } => text_of_shut(alloc, displaced),
        Reply::Opened { round } => Ok(format!(in alloc; "round {round} open\n")?),
        Reply::Chosen { choices } => text_of_chosen(alloc, choices.as_slice()),
        Reply::Withdrawn => owned_line(alloc, "withdrawn\n"),
        Reply::Closed { participants } => Ok(format!(in alloc; "closed {participants}\n")?),
        Reply::Drawn { participants } => Ok(format!(in alloc; "drawn {participants}\n")?),
        Reply::Ran { participants } => Ok(format!(in alloc; "ran {participants}\n")?),
        Reply::Published { participants } => Ok(format!(in alloc; "published {participants}\n")?),
        Reply::Settled { moves } => Ok(format!(in alloc; "settled {moves}\n")?),
        Reply::Cancelled => owned_line(alloc, "cancelled\n"),
        Reply::Added { count } => Ok(format!(in alloc; "added {count}\n")?),
        Reply::Rooms(rows) => rooms_text(alloc, rows.as_slice()),
        Reply::People(rows) => people_text(alloc, rows.as_slice()),
        Reply::Round {
            number,
            phase,
            people,
            withdrawn,
            going,
        } => text_of_round(alloc, *number, *phase, *people, *withdrawn, *going),
        Reply::Order(rows) => order_text(alloc, rows.as_slice()),
        Reply::Results(rows) => results_text(alloc, rows.as_slice()),
        Reply::Moves(rows) => move_day_text(alloc, rows.as_slice()),
        Reply::Me(standing) => standing_text(alloc, standing),
        Reply::WouldGet(room) => text_of_would_get(alloc, room),
        Reply::Going => owned_line(alloc, "going\n"),
    }
}

// Copies a line into an owned string.
fn owned_line(alloc: Global, text: &str) -> Result<String, OutOfMemory>
    ensures { IfOk result (λ line. string_bytes line ≡ text.now) }
{
    let line = String::from_str(alloc, text)?;
    Ok(line)
}

fn text_of_shut(alloc: Global, displaced: &Option<PersonId>) -> Result<String, OutOfMemory>
    ensures { IfOk result (λ text. string_bytes text ≡ reply_text (Reply.Shut displaced.now)) }
{
    match displaced {
        Some(person) => Ok(format!(in alloc; "shut displaced {person}\n")?),
        None => owned_line(alloc, "shut\n"),
    }
}

fn text_of_chosen(alloc: Global, rooms: &[RoomCode]) -> Result<String, OutOfMemory>
    ensures { IfOk result (λ text. string_bytes text ≡ reply_text (Reply.Chosen rooms.now)) }
{
    let mut text = String::new(alloc);
    push_rooms(&mut text, "chosen", rooms)?;
    Ok(text)
}

fn text_of_would_get(alloc: Global, room: &Option<RoomCode>) -> Result<String, OutOfMemory>
    ensures { IfOk result (λ text. string_bytes text ≡ reply_text (Reply.WouldGet room.now)) }
{
    let mut text = String::new(alloc);
    push_line(&mut text, "would get ", or_none(room))?;
    Ok(text)
}

fn text_of_round(
    alloc: Global,
    number: u16,
    phase: Phase,
    people: usize,
    withdrawn: usize,
    going: usize,
) -> Result<String, OutOfMemory>
    ensures { IfOk result (λ text. string_bytes text
        ≡ reply_text (Reply.Round number phase people withdrawn going)) }
{
    let mut text = format!(in alloc;
        "round {number} {phase} people {people} withdrawn {withdrawn}"
    )?;
    push_going(&mut text, going)?;
    text.push_str("\n")?;
    Ok(text)
}

// Appends ` going ` and the number of people who leave the college. Appends nothing if the number is 0.
fn push_going(text: &mut String, going: usize) -> Result<(), AllocError>
    ensures { OnOk result (string_bytes text.new ≡ string_bytes text.old ++ going_text going) }
{
    if going == 0 {
        return Ok(());
    }
    write!(text, " going {going}")
}

// Returns the eight lines that show a person their standing, from `person` to `result`.
fn standing_text(alloc: Global, standing: &Standing) -> Result<String, OutOfMemory>
    ensures { IfOk result (λ text. string_bytes text ≡ standing_text standing.now) }
{
    let round = standing.round;
    let phase = standing.phase;
    let mut text = String::new(alloc);
    push_line(&mut text, "person ", standing.person.as_str())?;
    push_line(&mut text, "name ", standing.name.as_str())?;
    push_line(&mut text, "home ", or_none(&standing.home))?;
    writeln!(text, "round {round} {phase}")?;
    push_rooms(&mut text, "choices", standing.choices.as_slice())?;
    push_line(&mut text, "withdrawn ", yes_or_no(standing.withdrawn))?;
    push_line(&mut text, "going ", yes_or_no(standing.going))?;
    push_line(&mut text, "result ", result_text(standing))?;
    Ok(text)
}

fn yes_or_no(answer: bool) -> &'static str
    ensures { result.now ≡ yes_or_no answer }
{
    if answer { "yes" } else { "no" }
}

// Returns the result: a room or `none` if the result is shown, otherwise `hidden`.
fn result_text(standing: &Standing) -> &str
    ensures { result.now ≡ result_text standing.now }
{
    if standing.shown {
        or_none(&standing.result)
    } else {
        "hidden"
    }
}

// Appends a line that consists of the heading and the value.
fn push_line(text: &mut String, heading: &str, value: &str) -> Result<(), AllocError>
    ensures { OnOk result
        (string_bytes text.new ≡ string_bytes text.old ++ line_of (heading.now ∷ value.now ∷ [])) }
{
    text.push_str(heading)?;
    text.push_str(value)?;
    text.push_str("\n")
}

// Appends a line that consists of the heading and the room codes, with a space before each code.
fn push_rooms(text: &mut String, heading: &str, rooms: &[RoomCode]) -> Result<(), AllocError>
    ensures { OnOk result
        (string_bytes text.new
        ≡ string_bytes text.old ++ line_of (heading.now ∷ spaced rooms.now ∷ [])) }
{
    text.push_str(heading)?;
    for room in rooms {
        text.push_str(" ")?;
        text.push_str(room.as_str())?;
    }
    text.push_str("\n")
}
